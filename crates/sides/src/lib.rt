// The two sides of a word equation: what the steps ask of them and explain, without making a term.
#![tactic(auto)]

pub mod equal_lists;
pub mod explaining;
pub mod lacking;
pub mod letters;
pub mod occurring;
pub mod spans;
pub mod stripping;

// The answer, with the new counts. A single step that finds nothing says Done, and the next one is tried.
#[derive(Clone, Copy)]
pub enum StepResult {
    Done(records::State),
    Saturated(records::State),
    Conflict(records::State),
    // the variable, its word, the link flag
    Propagate(records::State, u32, u32, bool),
    // how many atoms are listed, the guard negated, how many terms were made
    Split(records::State, usize, i32, u32),
}

// The places of what step 1 leaves: where both parts begin, and where the left and the right one end.
#[derive(Clone, Copy)]
pub struct Rest {
    pub from: usize,
    pub lhs: usize,
    pub rhs: usize,
}

// What step 1 leaves: the counts, these places, and whether a match that it stripped needs a reason.
#[derive(Clone, Copy)]
pub struct Stripped {
    pub counts: records::State,
    pub rest: Rest,
    pub needed: bool,
}
