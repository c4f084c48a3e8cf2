// The answers in words, with what the lent lists hold then, to the end of the line.
use crate::text::{entries, number, say};
use rules::{Lost, Refusal, Step, Ticked};

fn refused(rt: &impl Print, refusal: Refusal) {
    say(rt, b": refused");
    number(rt, refusal.number());
    say(rt, b"\n");
}

// A word, the count of records, and the records.
fn put_out(rt: &impl Print, word: &[u8], out: &[u64], n: usize) {
    say(rt, word);
    number(rt, n as u64);
    entries(rt, b"put", out, n, 7);
    say(rt, b"\n");
}

pub fn changed(rt: &impl Print, r: Result<(), Refusal>) {
    match r {
        Ok(()) => say(rt, b": done\n"),
        Err(refusal) => refused(rt, refusal),
    }
}

pub fn step(rt: &impl Print, r: Result<Step, Refusal>, out: &[u64]) {
    match r {
        Ok(Step::Apply(n)) => put_out(rt, b": apply", out, n),
        Ok(Step::Duplicate) => say(rt, b": duplicate\n"),
        Ok(Step::Held) => say(rt, b": held\n"),
        Ok(Step::Ignored) => say(rt, b": ignored\n"),
        Ok(Step::Diverged) => say(rt, b": diverged\n"),
        Ok(Step::Failed) => say(rt, b": failed\n"),
        Err(refusal) => refused(rt, refusal),
    }
}

pub fn lost(rt: &impl Print, r: Result<Lost, Refusal>, out: &[u64]) {
    match r {
        Ok(Lost::Kept) => say(rt, b": kept\n"),
        Ok(Lost::Gone) => say(rt, b": gone\n"),
        Ok(Lost::Rebuild(n)) => put_out(rt, b": rebuild", out, n),
        Err(refusal) => refused(rt, refusal),
    }
}

pub fn ticked(rt: &impl Print, r: Result<Ticked, Refusal>, out: &[u64], reports: &[u64]) {
    match r {
        Ok(ticked) => {
            say(rt, b": done");
            entries(rt, b"report", reports, ticked.reports, 3);
            entries(rt, b"put", out, ticked.records, 7);
            say(rt, b"\n");
        }
        Err(refusal) => refused(rt, refusal),
    }
}

pub fn asked(rt: &impl Print, r: Result<bool, Refusal>) {
    match r {
        Ok(true) => say(rt, b": yes\n"),
        Ok(false) => say(rt, b": no\n"),
        Err(refusal) => refused(rt, refusal),
    }
}

pub fn viewed(rt: &impl Print, r: Result<usize, Refusal>, list: &[u64]) {
    match r {
        Ok(n) => {
            say(rt, b": messages");
            number(rt, n as u64);
            entries(rt, b"message", list, n, 1);
            say(rt, b"\n");
        }
        Err(refusal) => refused(rt, refusal),
    }
}
