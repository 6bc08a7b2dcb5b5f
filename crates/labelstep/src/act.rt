// What each command does.
use crate::say::{say_bad, say_outcome, say_refused};
use crate::session::Session;
use classes::merge;
use commands::Command;
use lines::lending::front;
use records::build::{make_concatenation, make_equation};
use records::make::{make_constant, make_variable};
use records::rules::is_list;
use records::{LIST_LIMIT, Refusal, State};
use std::io;

// A line that finds the store full is refused; another that makes no term is bad.
fn after_making(
    rt: &impl Print,
    r: Result<(u32, State), Refusal>,
    s: &mut Session,
) -> io::Result<()> {
    match r {
        Ok((_, c)) => {
            s.counts = c;
            Ok(())
        }
        Err(Refusal::Room) => say_refused(rt, Refusal::Room),
        Err(_) => say_bad(rt, s.line.number),
    }
}

// `C text`, `V name`, `P t u ..` and `E t u`. The other commands make no term.
fn make(p: Command, s: &mut Session) -> Result<(u32, State), Refusal> {
    let c = s.counts;
    let list = &s.list;
    let terms = &mut s.terms;
    let cells = &mut s.cells;
    let chars = &mut s.chars;
    let reasons = &s.reasons;
    let keys = &s.keys;
    match p {
        Command::Constant(n) => {
            make_constant(terms, cells, chars, reasons, keys, c, front(list, n))
        }
        Command::Variable(n) => {
            make_variable(terms, cells, chars, reasons, keys, c, front(list, n))
        }
        Command::Concatenation(n) => {
            make_concatenation(terms, cells, chars, reasons, keys, c, front(list, n))
        }
        Command::Equation(t, u) => make_equation(terms, cells, chars, reasons, keys, c, t, u),
        _ => Err(Refusal::Argument),
    }
}

// `M child parent n`.
fn merge_classes(
    rt: &impl Print,
    child: u32,
    parent: u32,
    n: u32,
    s: &mut Session,
) -> io::Result<()> {
    let c = s.counts;
    let m = s.stamp;
    let r = merge(
        &mut s.terms,
        &s.cells,
        &s.chars,
        &s.reasons,
        &s.keys,
        c,
        child,
        parent,
        n,
        m,
    );
    if r.is_err() {
        return say_bad(rt, s.line.number);
    }
    s.stamp = m.wrapping_add(1);
    Ok(())
}

// `K ..`: a list of string terms.
fn set_known(rt: &impl Print, n: usize, s: &mut Session) -> io::Result<()> {
    let list = &s.list;
    if !is_list(&s.terms, s.counts, front(list, n)) {
        return say_bad(rt, s.line.number);
    }
    s.known = s.list;
    s.known_len = n.min(LIST_LIMIT);
    Ok(())
}

// `R e g`, 'runs the step with no reasons incoming'.
fn resolve(rt: &impl Print, e: u32, g: i32, s: &mut Session) -> io::Result<()> {
    let c = s.counts;
    let n = s.known_len;
    let known = &s.known;
    let r = equation::step(
        &mut s.terms,
        &mut s.cells,
        &mut s.chars,
        &mut s.reasons,
        &mut s.keys,
        c,
        front(known, n),
        e,
        g,
        &mut s.list,
    );
    match r {
        Ok(o) => {
            let d = say_outcome(rt, o, s)?;
            s.counts = d.with_reasons(0);
            Ok(())
        }
        Err(k) => say_refused(rt, k),
    }
}

pub(crate) fn act(rt: &impl Print, p: Command, s: &mut Session) -> io::Result<()> {
    match p {
        Command::Merge(t, u, n) => merge_classes(rt, t, u, n, s),
        Command::Known(n) => set_known(rt, n, s),
        Command::Resolve(e, g) => resolve(rt, e, g, s),
        _ => {
            let r = make(p, s);
            after_making(rt, r, s)
        }
    }
}
