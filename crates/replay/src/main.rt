// Reads calls from standard input, 44 bytes each, makes them on one market, and writes what they answer.
#![tactic(auto)]

ghost use Rattle.std.specs.Prelude.{◌≡◌, IfOk, ◌≤◌, ◌<◌, ◌^◌, length};
ghost use Rattle.replay.specs.Room.{Roomy};

use answers::{flush, make_room, put_answers};
use listing::Call;
use listing::reading::read;
use listing::writing::Lines;
use rules::{Limits, Refusal, Ticked};
use std::io::Read;

mod answers;
mod reading;

// More blocks of input than any run has: a proved loop has to end.
const BLOCKS: u64 = 1_099_511_627_776;
// How many records a block has.
const BLOCK: u64 = 1489;

// Why no more calls are made.
#[derive(Clone, Copy, Debug, PartialEq, Eq)]
pub enum End {
    // The input ends.
    Input,
    // The next bytes are no record.
    Record,
    // The output takes no more.
    Output,
}

// A market: the words of its store, and the lists of records and of reports that it writes.
#[derive(Drop)]
struct Market {
    s: [u64; 2240],
    out: [u64; 4046],
    reports: [u64; 24],
}

impl Market {
    // A tick with this view answer for every line.
    fn tick(&mut self, answer: u64, time: u64) -> Result<Ticked, Refusal> {
        let answers = [answer; 4];
        let lines = store::conns::count(&self.s).min(4);
        calls::tick(
            &mut self.s,
            &mut self.out,
            &mut self.reports,
            &answers[..lines],
            time,
        )
    }

    // The calls of a list, as far as there is room for their records; how many were made, the first refused one too.
    fn list(&mut self, rt: &impl Print, lines: &mut Lines, rows: &[u64]) -> Result<usize, End>
        requires roomy { Roomy lines.old }
        requires some { (8 ≤ length rows.now) × (length rows.now ≤ 256) }
        ensures same { lines.new.text.ghost_name ≡ lines.old.text.ghost_name }
        ensures roomy { Roomy lines.new }
        ensures few { IfOk result (λ n. (1 ≤ n) × (n ≤ 32)) }
    {
        let mut answers = [0; 96];
        let did = batch::batch(
            &mut self.s,
            &mut self.out,
            &mut self.reports,
            &mut answers,
            rows,
        );
        let refusal = match did {
            Ok(done) => {
                if 0 < done.calls {
                    let made = done.calls.min(rows.len() / 8);
                    put_answers(rt, lines, &answers[..3 * made], &self.out, &self.reports)?;
                    return Ok(made);
                }
                Refusal::Room
            }
            Err(refusal) => refusal,
        };
        make_room(rt, lines)?;
        lines.put_changed(Err(refusal));
        Ok(1)
    }

    // The record at the front of the bytes, which has this number and is not for a list.
    fn alone(
        &mut self,
        rt: &impl Print,
        lines: &mut Lines,
        bytes: &[u8],
        number: u64,
    ) -> Result<usize, End>
        requires { Roomy lines.old }
        ensures same { lines.new.text.ghost_name ≡ lines.old.text.ghost_name }
        ensures roomy { Roomy lines.new }
        ensures few { IfOk result (λ n. (1 ≤ n) × (n ≤ 32)) }
    {
        match read(bytes) {
            Ok(Call::Tick(answer, time)) => {
                let ticked = self.tick(answer, time);
                make_room(rt, lines)?;
                lines.put_ticked(ticked, &self.reports, &self.out);
                Ok(1)
            }
            Ok(_) => Err(End::Input),
            Err(_) => {
                make_room(rt, lines)?;
                lines.put_bad(number);
                Err(End::Record)
            }
        }
    }

    // The records at the front of the bytes, the first of which has this number: as many as make a list, or one; how many.
    fn some(
        &mut self,
        rt: &impl Print,
        lines: &mut Lines,
        bytes: &[u8],
        number: u64,
    ) -> Result<usize, End>
        requires { Roomy lines.old }
        ensures same { lines.new.text.ghost_name ≡ lines.old.text.ghost_name }
        ensures roomy { Roomy lines.new }
        ensures few { IfOk result (λ n. (1 ≤ n) × (n ≤ 32)) }
    {
        let mut rows = [0; 256];
        let count = reading::gather(&mut rows, bytes);
        if count == 0 {
            return self.alone(rt, lines, bytes, number);
        }
        self.list(rt, lines, &rows[..8 * count])
    }

    // The calls of a block of records, the first of which has this number.
    fn records(
        &mut self,
        rt: &impl Print,
        lines: &mut Lines,
        input: &[u8],
        first: u64,
    ) -> Result<(), End>
        requires roomy { Roomy lines.old }
        requires few { (length input.now ≤ 65516) × (first < 2 ^ 60) }
        ensures same { lines.new.text.ghost_name ≡ lines.old.text.ghost_name }
        ensures roomy { Roomy lines.new }
    {
        let mut number = first;
        let mut at = 0;
        // by as many records as made a list: a `for` does not say it plainer
        while at < input.len() {
            let count = self.some(rt, lines, &input[at..], number)?;
            number += count as u64;
            at += 44 * count;
        }
        Ok(())
    }

    // Reads a block, makes its calls and writes their text.
    fn block(
        &mut self,
        rt: &impl Print,
        from: &mut impl Read,
        lines: &mut Lines,
        input: &mut [u8],
        blocks: u64,
    ) -> Result<(), End>
        requires roomy { Roomy lines.old }
        requires few { (length input.old ≤ 65516) × (blocks < 2 ^ 40) }
        ensures same { lines.new.text.ghost_name ≡ lines.old.text.ghost_name }
        ensures roomy { Roomy lines.new }
    {
        let got = read_full(from, input);
        let made = self.records(rt, lines, &input[..got], blocks * BLOCK + 1);
        let written = flush(rt, lines);
        made?;
        if got < input.len() {
            return Err(End::Input);
        }
        written
    }

    fn run(&mut self, rt: &impl Print, from: &mut impl Read, lines: &mut Lines, input: &mut [u8])
        requires roomy { Roomy lines.old }
        requires few { length input.old ≤ 65516 }
    {
        for blocks in 0..BLOCKS {
            if self.block(rt, from, lines, input, blocks).is_err() {
                return;
            }
        }
    }
}

// Reads until the list is full, the input ends or a read fails; how many bytes were read.
fn read_full(from: &mut impl Read, to: &mut [u8]) -> usize
    ensures { result ≤ length to.new }
{
    let mut done = 0;
    // by as many bytes as came: std's `read_exact` does not say how many there were
    while done < to.len() {
        let n = from.read(&mut to[done..]).unwrap_or(0);
        if n == 0 {
            break;
        }
        done += n;
    }
    done
}

fn main(rt: HostRuntime) {
    let mut market = Market {
        s: [0; 2240],
        out: [0; 4046],
        reports: [0; 24],
    };
    let mut text = [0; 131072];
    let mut input = [0; 65516];
    let limits = Limits {
        L: 4,
        H: reading::HELD,
        G: 128,
        C: 32,
        D: 128,
    };
    let _ = setup::setup(&mut market.s, limits, 0);
    let mut lines = Lines {
        text: &mut text,
        len: 0,
    };
    market.run(&rt, &mut rt.stdin(), &mut lines, &mut input);
}
