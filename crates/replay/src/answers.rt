// The text of what a list of calls answered.
ghost use Rattle.std.specs.Prelude.{◌≡◌, IfOk, ◌+◌, ◌*◌, ◌≤◌, length};
ghost use Rattle.replay.specs.Room.{Roomy};

use crate::End;
use listing::writing::{Lines, split};
use rules::{Lost, Step, Ticked};

// The text of a call takes fewer bytes than this.
const ROOM: usize = 80_000;

// Writes the text that waits.
pub fn flush(rt: &impl Print, lines: &mut Lines) -> Result<(), End>
    requires { Roomy lines.old }
    ensures same { lines.new.text.ghost_name ≡ lines.old.text.ghost_name }
    ensures roomy { Roomy lines.new }
    ensures empty { lines.new.len ≡ 0 }
{
    let len = lines.len;
    lines.len = 0;
    rt.write_all(&lines.text[..len]).map_err(|_| End::Output)
}

// Writes the text where it leaves no room for another call's.
pub fn make_room(rt: &impl Print, lines: &mut Lines) -> Result<(), End>
    requires { Roomy lines.old }
    ensures same { lines.new.text.ghost_name ≡ lines.old.text.ghost_name }
    ensures roomy { Roomy lines.new }
    ensures room { IfOk result (λ u. lines.new.len + 80000 ≤ length lines.new.text.now) }
{
    if ROOM <= lines.text.len() - lines.len {
        return Ok(());
    }
    flush(rt, lines)
}

// The codes of a message's answers. They are words of a lent list, and so no enum: docs/LAYOUT.md.
fn step_of(code: u64, count: usize) -> Step {
    match code {
        2 => Step::Apply(count),
        3 => Step::Duplicate,
        4 => Step::Held,
        5 => Step::Ignored,
        6 => Step::Diverged,
        _ => Step::Failed,
    }
}

fn lost_of(code: u64, count: usize) -> Lost {
    match code {
        8 => Lost::Kept,
        9 => Lost::Gone,
        _ => Lost::Rebuild(count),
    }
}

// The text of an answer of three words, whose records and reports are at the front of these.
fn put_answer(lines: &mut Lines, a: &[u64], out: &[u64], reports: &[u64])
    requires { (lines.old.len + 29 + 10 * length reports.now + 19 * length out.now ≤ length lines.old.text.now) × (length a.now ≡ 3) }
    ensures same { lines.new.text.ghost_name ≡ lines.old.text.ghost_name }
    ensures size { length lines.new.text.now ≡ length lines.old.text.now }
    ensures fits { lines.new.len ≤ length lines.new.text.now }
{
    let code = a[0];
    let count = a[1] as usize;
    match code {
        0 => lines.put_refused(a[1]),
        1 => lines.put_ticked(
            Ok(Ticked {
                reports: a[2] as usize,
                records: count,
            }),
            reports,
            out,
        ),
        2..=7 => lines.put_step(Ok(step_of(code, count)), out),
        _ => lines.put_lost(Ok(lost_of(code, count)), out),
    }
}

// The text of answers of three words each.
pub fn put_answers(
    rt: &impl Print,
    lines: &mut Lines,
    answers: &[u64],
    out: &[u64],
    reports: &[u64],
) -> Result<(), End>
    requires short { (length out.now ≤ 4046) × (length reports.now ≤ 24) }
    requires roomy { Roomy lines.old }
    ensures same { lines.new.text.ghost_name ≡ lines.old.text.ghost_name }
    ensures roomy { Roomy lines.new }
{
    let mut out = out;
    let mut reports = reports;
    for a in answers.chunks_exact(3) {
        make_room(rt, lines)?;
        put_answer(lines, a, out, reports);
        // the count of a refusal is its number, and it has no records
        if a[0] != 0 {
            (_, out) = split(out, 7, a[1] as usize);
        }
        (_, reports) = split(reports, 3, a[2] as usize);
    }
    Ok(())
}
