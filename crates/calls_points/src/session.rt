// The words that the lines speak of.
use crate::reading::Form;

// A store's words, the output's and the reports'.
#[derive(Clone, Copy, PartialEq, Eq)]
pub struct Words {
    pub s: [u64; 344],
    pub out: [u64; 287],
    pub reports: [u64; 6],
}

// How many words of the store, of the output, of the reports and of a view's list are lent.
#[derive(Clone, Copy, Debug, PartialEq, Eq)]
pub struct Lengths {
    pub store: usize,
    pub out: usize,
    pub reports: usize,
    pub list: usize,
}

#[derive(Drop)]
pub struct Session {
    pub words: Words,
    pub kept: Words,
    pub lengths: Lengths,
}

// The length that a line says, where the list has so many words.
fn length(said: u64, most: usize) -> Option<usize> {
    let length = said as usize;
    if length > most {
        return None;
    }
    Some(length)
}

impl Lengths {
    // Takes the length that a form says, if it says one; none where the list has fewer words.
    pub fn resize(&mut self, form: Form, n: &[u64; 8]) -> Option<()> {
        match form {
            Form::Setup => self.store = length(n[6], 344)?,
            Form::StoreWords => self.store = length(n[0], 344)?,
            Form::OutputWords => self.out = length(n[0], 287)?,
            Form::ReportWords => self.reports = length(n[0], 6)?,
            Form::ListWords => self.list = length(n[0], 14)?,
            _ => {}
        }
        Some(())
    }
}
