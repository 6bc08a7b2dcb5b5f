// The program `labelstep`: standard input to standard output, a line at a time. A line makes a term, joins two classes, sets the
// known list or runs the step over an equation; what it answers, where it answers, is printed at once.
#![tactic(auto)]

mod act;
mod read;
mod say;
mod session;

use crate::read::{take_bytes, take_last};
use crate::session::{Session, start};
use std::io;
use std::io::Read;

// How many bytes are read at once, at most.
const CHUNK: usize = 4096;

// Until the input ends. It is read at most as often as a u64 counts.
fn run(rt: &(impl Input + Print), s: &mut Session) -> io::Result<()> {
    let mut input = rt.reader();
    let mut text = [0u8; CHUNK];
    for _ in 0..u64::MAX {
        let n = input.read(&mut text)?;
        if n == 0 {
            return take_last(rt, s);
        }
        take_bytes(rt, &text[..n], s)?;
    }
    Ok(())
}

fn main(rt: HostRuntime) -> io::Result<()> {
    let mut s = start();
    run(&rt, &mut s)
}
