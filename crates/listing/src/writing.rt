// Lines of text, written into a lent buffer.
ghost use Rattle.std.specs.Prelude.{◌≡◌, ◌++◌, ◌+◌, ◌*◌, ◌≤◌, length, take, drop};
ghost use Rattle.listing.specs.Text.{number as Text·number, kind_text, front_text, rest_text, record_text, all_records, refused_text, bad_text, step_text, lost_text, changed_text, report_kind, report_text, all_reports, ticked_text};
ghost use Rattle.listing.specs.Puts.{Puts};

use itoa::Buffer;
use rules::{Lost, Refusal, Step, Ticked};

// A buffer, of which the first `len` bytes are text.
#[derive(Drop)]
pub struct Lines<'a> {
    pub text: &'a mut [u8],
    pub len: usize,
}

// The first entries of a list, of so many words each, or all of it where it has fewer; and what is behind them.
pub fn split(list: &[u64], size: usize, count: usize) -> (&[u64], &[u64])
    ensures front { result.0.now ≡ take (size * count) list.now }
    ensures rest { result.1.now ≡ drop (size * count) list.now }
{
    list.split_at(list.len().min(count.saturating_mul(size)))
}

impl<'a> Lines<'a> {
    // The bytes as they are.
    pub fn put(&mut self, bytes: &[u8])
        requires { self.old.len + length bytes.now ≤ length self.old.text.now }
        ensures { Puts bytes.now self.old self.new }
    {
        let end = self.len + bytes.len();
        self.text[self.len..end].copy_from_slice(bytes);
        self.len = end;
    }

    // A number in decimal, and one byte behind it.
    pub fn put_number(&mut self, x: u64, end: u8)
        requires { self.old.len + 21 ≤ length self.old.text.now }
        ensures written { Puts (Text·number x end) self.old self.new }
        ensures most { self.new.len ≤ self.old.len + 21 }
    {
        let mut digits = Buffer::new();
        self.put(digits.format(x).as_bytes());
        self.put(&[end]);
    }

    // A record's kind, a word of a lent list (docs/LAYOUT.md), as a letter and a space.
    fn put_kind(&mut self, kind: u64)
        requires { self.old.len + 2 ≤ length self.old.text.now }
        ensures written { Puts (kind_text kind) self.old self.new }
        ensures most { self.new.len ≤ self.old.len + 2 }
    {
        self.put(match kind {
            0 => b"s ",
            1 => b"b ",
            _ => b"p ",
        });
    }

    // A record's line up to its number.
    fn put_front(&mut self, conn: u64, kind: u64, number: u64)
        requires { self.old.len + 48 ≤ length self.old.text.now }
        ensures written { Puts (front_text conn kind number) self.old self.new }
        ensures most { self.new.len ≤ self.old.len + 48 }
    {
        self.put(b"put ");
        self.put_number(conn, b' ');
        self.put_kind(kind);
        self.put_number(number, b' ');
    }

    // A record's line from its key on.
    fn put_rest(&mut self, k0: u64, k1: u64, message: u64, times: u64)
        requires { self.old.len + 84 ≤ length self.old.text.now }
        ensures written { Puts (rest_text k0 k1 message times) self.old self.new }
        ensures most { self.new.len ≤ self.old.len + 84 }
    {
        self.put_number(k0, b' ');
        self.put_number(k1, b' ');
        self.put_number(message, b' ');
        self.put_number(times, b'\n');
    }

    // The line of a record of seven words.
    fn put_record(&mut self, row: &[u64])
        requires { (self.old.len + 132 ≤ length self.old.text.now) × (length row.now ≡ 7) }
        ensures written { Puts (record_text row.now) self.old self.new }
        ensures most { self.new.len ≤ self.old.len + 132 }
    {
        self.put_front(row[0], row[1], row[2]);
        self.put_rest(row[3], row[4], row[5], row[6]);
    }

    // The lines of records, seven words each.
    fn put_records(&mut self, rows: &[u64])
        requires { self.old.len + 19 * length rows.now ≤ length self.old.text.now }
        ensures written { Puts (all_records rows.now) self.old self.new }
        ensures most { self.new.len ≤ self.old.len + 19 * length rows.now }
    {
        for row in rows.chunks_exact(7) {
            self.put_record(row);
        }
    }

    // A line, and the lines of so many records.
    fn put_answer(&mut self, line: &[u8], out: &[u64], count: usize)
        requires { self.old.len + length line.now + 19 * length out.now ≤ length self.old.text.now }
        ensures { Puts (line.now ++ all_records (take (7 * count) out.now)) self.old self.new }
    {
        self.put(line);
        let (records, _) = split(out, 7, count);
        self.put_records(records);
    }

    // The line of a refusal, by its number.
    pub fn put_refused(&mut self, number: u64)
        requires { self.old.len + 29 ≤ length self.old.text.now }
        ensures { Puts (refused_text number) self.old self.new }
    {
        self.put(b"refused ");
        self.put_number(number, b'\n');
    }

    // The line of the record of this number, which is none.
    pub fn put_bad(&mut self, number: u64)
        requires { self.old.len + 32 ≤ length self.old.text.now }
        ensures written { Puts (bad_text number) self.old self.new }
        ensures most { self.new.len ≤ self.old.len + 32 }
    {
        self.put(b"bad record ");
        self.put_number(number, b'\n');
    }

    // What a snapshot, a book event or a print answered.
    pub fn put_step(&mut self, step: Result<Step, Refusal>, out: &[u64])
        requires { self.old.len + 29 + 19 * length out.now ≤ length self.old.text.now }
        ensures { Puts (step_text step out.now) self.old self.new }
    {
        match step {
            Ok(Step::Apply(count)) => self.put_answer(b"apply\n", out, count),
            Ok(Step::Duplicate) => self.put(b"duplicate\n"),
            Ok(Step::Held) => self.put(b"held\n"),
            Ok(Step::Ignored) => self.put(b"ignored\n"),
            Ok(Step::Diverged) => self.put(b"diverged\n"),
            Ok(Step::Failed) => self.put(b"failed\n"),
            Err(refusal) => self.put_refused(refusal.number()),
        }
    }

    // What a drop or a promote answered.
    pub fn put_lost(&mut self, lost: Result<Lost, Refusal>, out: &[u64])
        requires { self.old.len + 29 + 19 * length out.now ≤ length self.old.text.now }
        ensures { Puts (lost_text lost out.now) self.old self.new }
    {
        match lost {
            Ok(Lost::Kept) => self.put(b"kept\n"),
            Ok(Lost::Gone) => self.put(b"gone\n"),
            Ok(Lost::Rebuild(count)) => self.put_answer(b"rebuild\n", out, count),
            Err(refusal) => self.put_refused(refusal.number()),
        }
    }

    // What a subscribe or a reset answered.
    pub fn put_changed(&mut self, changed: Result<(), Refusal>)
        requires { self.old.len + 29 ≤ length self.old.text.now }
        ensures { Puts (changed_text changed) self.old self.new }
    {
        match changed {
            Ok(()) => self.put(b"done\n"),
            Err(refusal) => self.put_refused(refusal.number()),
        }
    }

    // A report's kind, a word of a lent list (docs/LAYOUT.md), as text and a space.
    fn put_report_kind(&mut self, kind: u64)
        requires { self.old.len + 8 ≤ length self.old.text.now }
        ensures written { Puts (report_kind kind) self.old self.new }
        ensures most { self.new.len ≤ self.old.len + 8 }
    {
        self.put(match kind {
            0 => b"aligned ",
            1 => b"rebuild ",
            _ => b"failed ",
        });
    }

    // The line of a report of three words, and the lines of its records.
    fn put_report(&mut self, row: &[u64], records: &[u64])
        requires { (self.old.len + 29 + 19 * length records.now ≤ length self.old.text.now) × (length row.now ≡ 3) }
        ensures written { Puts (report_text row.now records.now) self.old self.new }
        ensures most { self.new.len ≤ self.old.len + 29 + 19 * length records.now }
    {
        self.put_report_kind(row[0]);
        self.put_number(row[1], b'\n');
        self.put_records(records);
    }

    // The lines of the reports, each with its records behind it.
    fn put_reports(&mut self, reports: &[u64], out: &[u64])
        requires { self.old.len + 10 * length reports.now + 19 * length out.now ≤ length self.old.text.now }
        ensures { Puts (all_reports reports.now out.now) self.old self.new }
    {
        let mut rest = out;
        for row in reports.chunks_exact(3) {
            let (records, after) = split(rest, 7, row[2] as usize);
            self.put_report(row, records);
            rest = after;
        }
    }

    // What a tick answered.
    pub fn put_ticked(&mut self, ticked: Result<Ticked, Refusal>, reports: &[u64], out: &[u64])
        requires { self.old.len + 29 + 10 * length reports.now + 19 * length out.now ≤ length self.old.text.now }
        ensures { Puts (ticked_text ticked reports.now out.now) self.old self.new }
    {
        match ticked {
            Ok(ticked) => {
                self.put(b"done\n");
                let (rows, _) = split(reports, 3, ticked.reports);
                self.put_reports(rows, out);
            }
            Err(refusal) => self.put_refused(refusal.number()),
        }
    }
}
