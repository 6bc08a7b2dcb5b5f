// The two forms that are held by reference: the counter of names, and a reader over one chain.
#![tactic(auto)]

pub mod chains;
pub mod taking;
