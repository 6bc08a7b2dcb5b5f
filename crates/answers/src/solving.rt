// What is printed of the answers of resolve_equation, the step and empty_parts.
use crate::Store;
use crate::saying::{say_list, say_refused};
use crate::stating::say_store;
use building::Counts;
use empties::Empties;
use equation::Outcome;
use records::Refusal;
use sides::StepResult;
use std::io;

fn say_link(rt: &impl Print, link: bool) -> io::Result<()> {
    if link {
        return rt.write_all(b" link");
    }
    Ok(())
}

fn say_step(rt: &impl Print, r: StepResult, list: &[u32], s: &Store) -> io::Result<Counts> {
    match r {
        StepResult::Done(d) => say_store(rt, ": done", s, d),
        StepResult::Saturated(d) => say_store(rt, ": saturated", s, d),
        StepResult::Conflict(d) => say_store(rt, ": conflict", s, d),
        StepResult::Propagate(d, v, w, link) => {
            print!(rt; ": propagate {v} {w}")?;
            say_link(rt, link)?;
            say_store(rt, "", s, d)
        }
        StepResult::Split(d, n, g, k) => {
            rt.write_all(b": split ")?;
            say_list(rt, list, n)?;
            print!(rt; " {g}")?;
            let e = say_store(rt, "", s, d)?;
            print!(rt; "\n made {k}")?;
            Ok(e)
        }
    }
}

// Answers what is counted after the call, as does say_parts.
pub fn say_outcome(
    rt: &impl Print,
    r: Result<Outcome, Refusal>,
    list: &[u32],
    s: &Store,
) -> io::Result<Counts> {
    match r {
        Ok(Outcome::Answered(o)) => say_step(rt, o, list, s),
        Ok(Outcome::Unexpanded(d)) => say_store(rt, ": unexpanded", s, d),
        Err(k) => {
            say_refused(rt, k)?;
            Ok(s.counts)
        }
    }
}

// The variables listed, the number of "", the link flag, and the store.
pub fn say_parts(
    rt: &impl Print,
    r: Result<Empties, Refusal>,
    list: &[u32],
    s: &Store,
) -> io::Result<Counts> {
    match r {
        Ok(e) => {
            rt.write_all(b": ")?;
            say_list(rt, list, e.listed)?;
            print!(rt; ", {}", e.empty)?;
            say_link(rt, e.link)?;
            say_store(rt, "", s, e.state)
        }
        Err(k) => {
            say_refused(rt, k)?;
            Ok(s.counts)
        }
    }
}
