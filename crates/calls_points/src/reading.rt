// A line's numbers and its form.

// What a line says.
#[derive(Clone, Copy, Debug, PartialEq, Eq)]
pub enum Form {
    Setup,
    Subscribe,
    Reset,
    Snapshot,
    Book,
    Print,
    Drop,
    Promote,
    // with so many view answers
    Tick(usize),
    InLine,
    AnyInLine,
    Servable,
    View,
    // how many words are lent: of the store, of the output, of the reports, of a view's list
    StoreWords,
    OutputWords,
    ReportWords,
    ListWords,
    // words set, kept and compared without a call
    SetOne,
    SetFour,
    Keep,
    Again,
    Compare,
}

// 0 stands for a number.
const FORMS: [(&[u8], Form); 25] = [
    (b"setup 0 0 0 0 0 start 0 words 0", Form::Setup),
    (b"subscribe 0 limit 0 at 0", Form::Subscribe),
    (b"reset at 0", Form::Reset),
    (b"snapshot 0 token 0 message 0 at 0", Form::Snapshot),
    (b"book 0 key 0 0 message 0 at 0", Form::Book),
    (b"print 0 key 0 0 message 0 at 0", Form::Print),
    (b"drop 0 at 0", Form::Drop),
    (b"promote at 0", Form::Promote),
    (b"tick views at 0", Form::Tick(0)),
    (b"tick views 0 at 0", Form::Tick(1)),
    (b"tick views 0 0 at 0", Form::Tick(2)),
    (b"tick views 0 0 0 at 0", Form::Tick(3)),
    (b"in line 0", Form::InLine),
    (b"any in line", Form::AnyInLine),
    (b"servable", Form::Servable),
    (b"view 0", Form::View),
    (b"store of 0 words", Form::StoreWords),
    (b"output of 0 words", Form::OutputWords),
    (b"reports of 0 words", Form::ReportWords),
    (b"list of 0 words", Form::ListWords),
    (b"word 0 = 0", Form::SetOne),
    (b"words 0 = 0 0 0 0", Form::SetFour),
    (b"keep these words", Form::Keep),
    (b"the same words", Form::Again),
    (b"all words as they were", Form::Compare),
];

// Puts a digit behind the k-th number; none where there is no such number, or it would be too large.
fn push(n: &mut [u64; 8], k: usize, digit: u8) -> Option<()> {
    let x = n.get_mut(k)?;
    *x = x.checked_mul(10)?.checked_add(u64::from(digit))?;
    Some(())
}

// The numbers of a line; none where there are more than eight, or one is too large.
pub fn numbers(line: &[u8]) -> Option<[u64; 8]> {
    let mut n = [0; 8];
    let mut k = 0;
    let mut within = false;
    for c in line {
        if c.is_ascii_digit() {
            push(&mut n, k, *c - b'0')?;
            within = true;
        } else if within {
            k += 1;
            within = false;
        }
    }
    Some(n)
}

// What is behind the byte c, or behind a number for 0, where the line begins with it.
fn behind(line: &[u8], c: u8) -> Option<&[u8]> {
    if c != b'0' {
        return line.strip_prefix(&[c]);
    }
    let digits = line.iter().take_while(|c| c.is_ascii_digit()).count();
    if digits == 0 {
        return None;
    }
    line.get(digits..)
}

// Whether a line has this form.
fn has_form(line: &[u8], form: &[u8]) -> bool {
    let mut rest = line;
    for c in form {
        match behind(rest, *c) {
            Some(more) => rest = more,
            None => return false,
        }
    }
    rest.is_empty()
}

// The form of a line, if it has one.
pub fn form_of(line: &[u8]) -> Option<Form> {
    for (text, form) in FORMS {
        if has_form(line, text) {
            return Some(form);
        }
    }
    None
}
