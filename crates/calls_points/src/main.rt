// Reads lines from standard input, one call to a line, makes the calls on one store, and writes each line with its answer.
#![tactic(auto)]

mod acting;
mod answers;
mod reading;
mod session;
mod text;

ghost use Rattle.std.specs.Prelude.{◌≤◌, length};

use session::{Lengths, Session, Words};
use std::io::Read;
use text::say;

// Does what a line says; none where it says nothing that can be done.
fn act(rt: &impl Print, line: &[u8], session: &mut Session) -> Option<()> {
    let n = reading::numbers(line)?;
    let form = reading::form_of(line)?;
    session.lengths.resize(form, &n)?;
    session.act(rt, form, &n);
    Some(())
}

fn is_comment(line: &[u8]) -> bool {
    line.is_empty() || line[0] == b'#'
}

// Writes a line and does what it says; whether to go on.
fn one_line(rt: &impl Print, line: &[u8], session: &mut Session) -> bool {
    say(rt, line);
    if is_comment(line) {
        say(rt, b"\n");
        return true;
    }
    if act(rt, line, session).is_some() {
        return true;
    }
    say(rt, b": no call\n");
    false
}

fn run(rt: &impl Print, input: &[u8], session: &mut Session) {
    for line in input.split_inclusive(|c| *c == b'\n') {
        if !one_line(rt, line.strip_suffix(b"\n").unwrap_or(line), session) {
            return;
        }
    }
}

// Reads until the list is full, the input ends or a read fails; how many bytes were read.
fn read_full(from: &mut impl Read, to: &mut [u8]) -> usize
    ensures { result ≤ length to.new }
{
    let mut done = 0;
    // by as many bytes as came: std's `read_exact` does not say how many there were
    while done < to.len() {
        let n = from.read(&mut to[done..]).unwrap_or(0);
        if n == 0 {
            break;
        }
        done += n;
    }
    done
}

fn main(rt: HostRuntime) {
    let words = Words {
        s: [0; 344],
        out: [0; 287],
        reports: [0; 6],
    };
    let mut session = Session {
        words,
        kept: words,
        lengths: Lengths {
            store: 0,
            out: 0,
            reports: 0,
            list: 0,
        },
    };
    let mut input = [0; 65536];
    let got = read_full(&mut rt.stdin(), &mut input);
    if got == input.len() {
        say(&rt, b"input too long\n");
        return;
    }
    run(&rt, &input[..got], &mut session);
}
