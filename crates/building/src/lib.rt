// A store built by commands, a record or many at a time, and what is counted and lent of it.
#![tactic(auto)]

pub mod adding;
pub mod words;

use lines::lending::Lens;

// How many terms, cells, characters, reasons and keys are counted, the name counter, how many atoms the list has; and how many words are
// lent of each slice, of the list that is answered and of the marks.
#[derive(Clone, Copy)]
pub struct Counts {
    pub terms: u32,
    pub cells: u32,
    pub chars: u32,
    pub reasons: usize,
    pub keys: usize,
    pub names: u32,
    pub known: usize,
    pub lens: Lens,
    pub list: usize,
    pub marks: usize,
}

// No record counted. The names that V gives have one character each, at the place of the variable's number, so 513 are counted.
pub fn none() -> Counts {
    Counts {
        terms: 0,
        cells: 0,
        chars: 513,
        reasons: 0,
        keys: 0,
        names: 0,
        known: 0,
        lens: Lens::WHOLE,
        list: usize::MAX,
        marks: usize::MAX,
    }
}
