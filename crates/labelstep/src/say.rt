// Printing: the pieces of an answer's line are put one after the other, and the line is written as a whole; of a longer one, as much as there is room for.
use crate::session::Session;
use commands::print::{put_guard, put_name, put_number, put_reason};
use equation::Outcome;
use lines::lending::front;
use records::fields::word;
use records::{Refusal, State};
use sides::StepResult;
use std::io;

const ROOM: usize = 1024;

// The answers' words, in the order of their numbers.
#[derive(Clone, Copy)]
enum Name {
    Done,
    Saturated,
    Conflict,
    Propagate,
    Split,
    Unexpanded,
    Refused,
    Bad,
}

// The line, of which the first `len` bytes are not written yet.
#[derive(Drop)]
struct Answer {
    bytes: [u8; ROOM],
    len: usize,
}

impl Answer {
    // An answer begins with its word.
    fn of(rt: &impl Print, k: Name) -> io::Result<Answer> {
        let mut out = Answer {
            bytes: [0; ROOM],
            len: 0,
        };
        let mut piece = [0u8; 24];
        let n = put_name(&mut piece, k as u32);
        out.add(rt, &piece[..n])?;
        Ok(out)
    }

    fn add_byte(&mut self, rt: &impl Print, b: u8) -> io::Result<()> {
        if self.len < ROOM {
            self.bytes[self.len] = b;
            self.len += 1;
        } else {
            rt.write_all(&self.bytes)?;
            self.bytes[0] = b;
            self.len = 1;
        }
        Ok(())
    }

    fn add(&mut self, rt: &impl Print, piece: &[u8]) -> io::Result<()> {
        for &b in piece {
            self.add_byte(rt, b)?;
        }
        Ok(())
    }

    fn number(&mut self, rt: &impl Print, x: u64) -> io::Result<()> {
        let mut piece = [0u8; 24];
        let n = put_number(&mut piece, x);
        self.add(rt, &piece[..n])
    }

    fn reason(&mut self, rt: &impl Print, kind: u32, x: u32) -> io::Result<()> {
        let mut piece = [0u8; 24];
        let n = put_reason(&mut piece, kind, x);
        self.add(rt, &piece[..n])
    }

    fn guard(&mut self, rt: &impl Print, g: i32) -> io::Result<()> {
        let mut piece = [0u8; 24];
        let n = put_guard(&mut piece, g);
        self.add(rt, &piece[..n])
    }

    fn reasons(&mut self, rt: &impl Print, reasons: &[u32], n: usize) -> io::Result<()> {
        self.number(rt, n as u64)?;
        for i in 0..n {
            let at = i.wrapping_mul(2);
            self.reason(rt, word(reasons, at), word(reasons, at.wrapping_add(1)))?;
        }
        Ok(())
    }

    fn atoms(&mut self, rt: &impl Print, list: &[u32]) -> io::Result<()> {
        self.number(rt, list.len() as u64)?;
        for &t in list {
            self.number(rt, u64::from(t))?;
        }
        Ok(())
    }

    // The line's end, and what of the line is not written.
    fn end(&mut self, rt: &impl Print) -> io::Result<()> {
        self.add_byte(rt, b'\n')?;
        let n = self.len;
        let bytes = &self.bytes;
        rt.write_all(front(bytes, n))
    }
}

fn say_one(rt: &impl Print, k: Name, x: u64) -> io::Result<()> {
    let mut out = Answer::of(rt, k)?;
    out.number(rt, x)?;
    out.end(rt)
}

pub(crate) fn say_refused(rt: &impl Print, k: Refusal) -> io::Result<()> {
    say_one(rt, Name::Refused, u64::from(u32::from(k)))
}

pub(crate) fn say_bad(rt: &impl Print, line: u64) -> io::Result<()> {
    say_one(rt, Name::Bad, line)
}

fn say_alone(rt: &impl Print, k: Name) -> io::Result<()> {
    Answer::of(rt, k)?.end(rt)
}

// An answer's word, its count of reasons and its reasons.
fn say_cited(rt: &impl Print, k: Name, reasons: &[u32], count: usize) -> io::Result<()> {
    let mut out = Answer::of(rt, k)?;
    out.reasons(rt, reasons, count)?;
    out.end(rt)
}

fn say_propagate(
    rt: &impl Print,
    v: u32,
    w: u32,
    link: bool,
    reasons: &[u32],
    count: usize,
) -> io::Result<()> {
    let mut out = Answer::of(rt, Name::Propagate)?;
    out.number(rt, u64::from(v))?;
    out.number(rt, u64::from(w))?;
    out.number(rt, u64::from(link))?;
    out.reasons(rt, reasons, count)?;
    out.end(rt)
}

fn say_split(
    rt: &impl Print,
    atoms: &[u32],
    g: i32,
    reasons: &[u32],
    count: usize,
) -> io::Result<()> {
    let mut out = Answer::of(rt, Name::Split)?;
    out.atoms(rt, atoms)?;
    out.guard(rt, g)?;
    out.reasons(rt, reasons, count)?;
    out.end(rt)
}

// Prints wordeq's answer. Answers the counts from here on: the records that were made stay.
fn say_answer(rt: &impl Print, r: StepResult, s: &Session) -> io::Result<State> {
    let reasons = &s.reasons;
    let list = &s.list;
    match r {
        StepResult::Done(c) => {
            say_alone(rt, Name::Done)?;
            Ok(c)
        }
        StepResult::Saturated(c) => {
            say_cited(rt, Name::Saturated, reasons, c.reasons)?;
            Ok(c)
        }
        StepResult::Conflict(c) => {
            say_cited(rt, Name::Conflict, reasons, c.reasons)?;
            Ok(c)
        }
        StepResult::Propagate(c, v, w, link) => {
            say_propagate(rt, v, w, link, reasons, c.reasons)?;
            Ok(c)
        }
        StepResult::Split(c, n, g, _) => {
            say_split(rt, front(list, n), g, reasons, c.reasons)?;
            Ok(c)
        }
    }
}

// The same of the step.
pub(crate) fn say_outcome(rt: &impl Print, o: Outcome, s: &Session) -> io::Result<State> {
    match o {
        Outcome::Answered(r) => say_answer(rt, r, s),
        Outcome::Unexpanded(c) => {
            say_alone(rt, Name::Unexpanded)?;
            Ok(c)
        }
    }
}
