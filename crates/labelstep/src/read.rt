// Lines, from the bytes as they come.
use crate::act::act;
use crate::say::say_bad;
use crate::session::Session;
use commands::Command;
use commands::parse::parse;
use lines::lending::front;
use std::io;

fn read_command(s: &mut Session) -> Option<Command> {
    if s.line.over {
        return None;
    }
    let n = s.line.len;
    let bytes = &s.line.bytes;
    parse(front(bytes, n), &mut s.list)
}

// A line that is whole.
fn take_line(rt: &impl Print, s: &mut Session) -> io::Result<()> {
    match read_command(s) {
        Some(p) => act(rt, p, s)?,
        None => say_bad(rt, s.line.number)?,
    }
    s.line.next();
    Ok(())
}

pub(crate) fn take_bytes(rt: &impl Print, text: &[u8], s: &mut Session) -> io::Result<()> {
    for &b in text {
        if b == b'\n' {
            take_line(rt, s)?;
        } else {
            s.line.keep(b);
        }
    }
    Ok(())
}

// A last line without a line end counts.
pub(crate) fn take_last(rt: &impl Print, s: &mut Session) -> io::Result<()> {
    if s.line.len != 0 {
        take_line(rt, s)?;
    }
    Ok(())
}
