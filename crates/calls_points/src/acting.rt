// What a line says, done: a public call, or words set, kept and compared without one.
use crate::answers::{asked, changed, lost, step, ticked, viewed};
use crate::reading::Form;
use crate::session::{Lengths, Session};
use crate::text::say;
use rules::{EventKey, Limits};

// Setup's limits, the first five numbers of its line.
fn limits_of(n: &[u64; 8]) -> Limits {
    Limits {
        L: n[0],
        H: n[1],
        G: n[2],
        C: n[3],
        D: n[4],
    }
}

// Makes the call of a form, of which each list has so many words.
fn call(
    rt: &impl Print,
    s: &mut [u64; 344],
    out: &mut [u64; 287],
    reports: &mut [u64; 6],
    lengths: Lengths,
    form: Form,
    n: &[u64; 8],
) {
    let s = &mut s[..lengths.store.min(344)];
    let out = &mut out[..lengths.out.min(287)];
    let reports = &mut reports[..lengths.reports.min(6)];
    match form {
        Form::Setup => changed(rt, setup::setup(s, limits_of(n), n[5])),
        Form::Subscribe => changed(rt, calls::subscribe(s, n[0], n[1], n[2])),
        Form::Reset => changed(rt, calls::reset(s, n[0])),
        Form::Snapshot => {
            let r = calls::snapshot(s, out, n[0], n[1], n[2], n[3]);
            step(rt, r, out);
        }
        Form::Book => {
            let r = calls::book_event(s, out, n[0], EventKey(n[1], n[2]), n[3], n[4]);
            step(rt, r, out);
        }
        Form::Print => {
            let r = calls::other(s, out, n[0], EventKey(n[1], n[2]), n[3], n[4]);
            step(rt, r, out);
        }
        Form::Drop => {
            let r = calls::drop_conn(s, out, n[0], n[1]);
            lost(rt, r, out);
        }
        Form::Promote => {
            let r = calls::promote(s, out, n[0]);
            lost(rt, r, out);
        }
        Form::Tick(views) => {
            let views = views.min(3);
            let r = calls::tick(s, out, reports, &n[..views], n[views]);
            ticked(rt, r, out, reports);
        }
        Form::InLine => asked(rt, queries::in_line(s, n[0])),
        Form::AnyInLine => asked(rt, queries::any_in_line(s)),
        Form::Servable => asked(rt, queries::servable(s)),
        Form::View => {
            let mut list = [0; 14];
            let r = queries::view(s, n[0], &mut list[..lengths.list.min(14)]);
            viewed(rt, r, &list);
        }
        _ => say(rt, b"\n"),
    }
}

// Sets the words from a place on, as far as the list reaches.
fn set(list: &mut [u64], at: u64, words: &[u64]) {
    for (x, y) in list.iter_mut().skip(at as usize).zip(words) {
        *x = *y;
    }
}

impl Session {
    // Does what a form says.
    pub fn act(&mut self, rt: &impl Print, form: Form, n: &[u64; 8]) {
        match form {
            Form::SetOne => set(&mut self.words.s, n[0], &n[1..2]),
            Form::SetFour => set(&mut self.words.s, n[0], &n[1..5]),
            Form::Keep => self.kept = self.words,
            Form::Again => self.words = self.kept,
            Form::Compare => {
                if self.words == self.kept {
                    return say(rt, b": yes\n");
                }
                return say(rt, b": no\n");
            }
            _ => {
                return call(
                    rt,
                    &mut self.words.s,
                    &mut self.words.out,
                    &mut self.words.reports,
                    self.lengths,
                    form,
                    n,
                );
            }
        }
        say(rt, b"\n");
    }
}
