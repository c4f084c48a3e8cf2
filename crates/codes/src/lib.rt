// An answer as three numbers: a code, a count of records and a count of reports. The count of a refusal is its number, that of a view
// how many messages it wrote.
#![tactic(auto)]

ghost use Rattle.std.specs.Prelude.{◌≡◌};
ghost use Rattle.rules.specs.Answers.{of_step, of_changed, of_lost, of_ticked, of_asked, of_viewed};
ghost use Rattle.codes.specs.Told.{Tells, TellsAsked, TellsViewed};

use rules::{Lost, Refusal, Step, Ticked};

const REFUSED: u64 = 0;

const DONE: u64 = 1;

const APPLY: u64 = 2;

const DUPLICATE: u64 = 3;

const HELD: u64 = 4;

const IGNORED: u64 = 5;

const DIVERGED: u64 = 6;

const FAILED: u64 = 7;

const KEPT: u64 = 8;

const GONE: u64 = 9;

const REBUILD: u64 = 10;
// A query's codes, and a view's.
const YES: u64 = 1;

const NO: u64 = 2;

const MESSAGES: u64 = 1;

#[derive(Clone, Copy, Debug, PartialEq, Eq)]
pub struct Told {
    pub code: u64,
    pub count: u64,
    pub reports: u64,
}

impl Told {
    // The code; the count goes where a host wants it.
    pub fn tell(self, count: &mut u64) -> u64
        ensures { (result ≡ self.code) × (count.new ≡ self.count) }
    {
        *count = self.count;
        self.code
    }
}

// An answer without reports.
fn counted(code: u64, count: u64) -> Told
    ensures { result ≡ record { code = code; count = count; reports = 0 } }
{
    Told {
        code,
        count,
        reports: 0,
    }
}

pub fn of_changed(a: Result<(), Refusal>) -> Told
    ensures { (Tells (of_changed a) result.code result.count 0) × (result.reports ≡ 0) }
{
    match a {
        Ok(()) => counted(DONE, 0),
        Err(refusal) => counted(REFUSED, refusal.number()),
    }
}

pub fn of_step(a: Result<Step, Refusal>) -> Told
    ensures { (Tells (of_step a) result.code result.count 0) × (result.reports ≡ 0) }
{
    match a {
        Ok(Step::Apply(n)) => counted(APPLY, n as u64),
        Ok(Step::Duplicate) => counted(DUPLICATE, 0),
        Ok(Step::Held) => counted(HELD, 0),
        Ok(Step::Ignored) => counted(IGNORED, 0),
        Ok(Step::Diverged) => counted(DIVERGED, 0),
        Ok(Step::Failed) => counted(FAILED, 0),
        Err(refusal) => counted(REFUSED, refusal.number()),
    }
}

pub fn of_lost(a: Result<Lost, Refusal>) -> Told
    ensures { (Tells (of_lost a) result.code result.count 0) × (result.reports ≡ 0) }
{
    match a {
        Ok(Lost::Kept) => counted(KEPT, 0),
        Ok(Lost::Gone) => counted(GONE, 0),
        Ok(Lost::Rebuild(n)) => counted(REBUILD, n as u64),
        Err(refusal) => counted(REFUSED, refusal.number()),
    }
}

pub fn of_ticked(a: Result<Ticked, Refusal>) -> Told
    ensures { Tells (of_ticked a) result.code result.count result.reports }
{
    match a {
        Ok(ticked) => Told {
            code: DONE,
            count: ticked.records as u64,
            reports: ticked.reports as u64,
        },
        Err(refusal) => counted(REFUSED, refusal.number()),
    }
}

pub fn of_asked(a: Result<bool, Refusal>) -> Told
    ensures { TellsAsked (of_asked a) result.code result.count }
{
    match a {
        Ok(true) => counted(YES, 0),
        Ok(false) => counted(NO, 0),
        Err(refusal) => counted(REFUSED, refusal.number()),
    }
}

pub fn of_viewed(a: Result<usize, Refusal>) -> Told
    ensures { TellsViewed (of_viewed a) result.code result.count }
{
    match a {
        Ok(n) => counted(MESSAGES, n as u64),
        Err(refusal) => counted(REFUSED, refusal.number()),
    }
}
