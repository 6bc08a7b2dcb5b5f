// The lines of the program `labelstep`: a line to a command, and an answer to its printed line.
#![tactic(auto)]

pub mod numbers;
pub mod parse;
pub mod print;
pub mod utf8;

// The longest line that is a command, in bytes.
pub const LINE_LIMIT: usize = 1024;

// A command: a text, parts and a known list are counted, and stand at the start of a list.
#[derive(Clone, Copy)]
pub enum Command {
    Constant(usize),
    Variable(usize),
    Concatenation(usize),
    Equation(u32, u32),
    Merge(u32, u32, u32),
    Known(usize),
    Resolve(u32, i32),
}
