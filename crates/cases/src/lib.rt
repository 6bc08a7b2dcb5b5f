// The starred label cases: see specs/Cases.antt.
#![tactic(auto)]

#[derive(Clone, Copy)]
pub struct Starred {
    pub cases: u32,
}
