// The commands that ask, and their answers.
use crate::Store;
use crate::calling::{
    deep_form, empty_parts, explain, find, forced_length, go_back, join, nf_equal,
    nf_equal_explain, normal_form, resolve, set_mark, step,
};
use crate::marking::{say_classes, say_marked, say_trail};
use crate::saying::{say_after, say_list, say_reasons, say_refused};
use crate::solving::{say_outcome, say_parts};
use building::adding::reasoned;
use building::words::narrow;
use commands::numbers::guard_of_word;
use equation::Outcome;
use forced::Forced;
use lines::lending::front_mut;
use lines::reading::Command;
use records::{LIST_LIMIT, Refusal, State};
use std::fmt::Display;
use std::io;

// What a command asks. Two sides are the first atoms of the list, so many, and the rest.
#[derive(Clone, Copy)]
pub enum Question {
    Find(u32),
    Explain {
        a: u32,
        b: u32,
        stays: bool,
    },
    NormalForm(u32),
    DeepForm(u32),
    Resolve {
        p: usize,
        guard: i32,
        stays: bool,
    },
    Step {
        e: u32,
        guard: i32,
    },
    EmptyParts(usize),
    ForcedLength(usize),
    NfEqual(usize),
    NfEqualExplain(usize),
    Join {
        a: u32,
        b: u32,
        kind: u32,
        number: u32,
    },
    SetMark,
    GoBack(u32),
    Classes,
    Trail,
}

pub fn question_of(c: Command<'_>) -> Option<Question> {
    let a = c.number(1);
    let b = c.number(2);
    let p = a as usize;
    let guard = guard_of_word(b);
    let q = match c.letter {
        b'f' => Question::Find(a),
        b'e' => Question::Explain { a, b, stays: false },
        b'E' => Question::Explain { a, b, stays: true },
        b'n' => Question::NormalForm(a),
        b'd' => Question::DeepForm(a),
        b'r' => Question::Resolve {
            p,
            guard,
            stays: false,
        },
        b'B' => Question::Resolve {
            p,
            guard,
            stays: true,
        },
        b's' => Question::Step { e: a, guard },
        b'a' => Question::EmptyParts(p),
        b'h' => Question::ForcedLength(p),
        b'q' => Question::NfEqual(p),
        b'Q' => Question::NfEqualExplain(p),
        b'j' => Question::Join {
            a,
            b,
            kind: c.number(3),
            number: c.number(4),
        },
        b'm' => Question::SetMark,
        b'g' => Question::GoBack(a),
        b'p' => Question::Classes,
        b't' => Question::Trail,
        _ => return None,
    };
    Some(q)
}

// A root, or whether two lists are equal.
fn say_value<T: Display + Drop>(rt: &impl Print, r: Result<T, Refusal>) -> io::Result<()> {
    match r {
        Ok(x) => print!(rt; ": {x}"),
        Err(k) => say_refused(rt, k),
    }
}

// k, c and l, then m and r, or the shortage.
fn say_forced(rt: &impl Print, r: Result<Forced, Refusal>) -> io::Result<()> {
    match r {
        Ok(Forced::Spans(k, c, l, m, r)) => print!(rt; ": {k} {c} {l}, {m} {r}"),
        Ok(Forced::Shortage(k, c, l, d)) => print!(rt; ": {k} {c} {l}, short {d}"),
        Err(k) => say_refused(rt, k),
    }
}

fn say_added(rt: &impl Print, r: Result<State, Refusal>, s: &Store) -> io::Result<()> {
    match r {
        Ok(d) => {
            rt.write_all(b": ")?;
            say_reasons(rt, &s.reasons, d.reasons)
        }
        Err(k) => say_refused(rt, k),
    }
}

// The reasons too that are counted and lent, where explain is refused.
fn say_explained(
    rt: &impl Print,
    r: Result<State, Refusal>,
    stays: bool,
    s: &mut Store,
) -> io::Result<()> {
    say_added(rt, r, s)?;
    let count = s.counts.reasons;
    match r {
        Ok(d) => {
            if stays {
                s.counts = reasoned(s.counts, d.reasons);
            }
            Ok(())
        }
        Err(_) => {
            let ((_, _, _, reasons, _), _, _) = s.lent();
            rt.write_all(b", ")?;
            say_reasons(rt, reasons, count)
        }
    }
}

// What a form made is not counted from here on.
fn say_form(
    rt: &impl Print,
    r: Result<(Option<usize>, State), Refusal>,
    list: &[u32],
    s: &mut Store,
) -> io::Result<()> {
    let (form, d) = match r {
        Ok(x) => x,
        Err(k) => return say_refused(rt, k),
    };
    match form {
        Some(n) => {
            rt.write_all(b": ")?;
            say_list(rt, list, n)?;
        }
        None => rt.write_all(b": none")?,
    }
    say_after(rt, s, d)?;
    s.uncount(narrow(d.terms));
    Ok(())
}

pub fn ask(rt: &impl Print, q: Question, s: &mut Store) -> io::Result<()> {
    let mut words: [u32; LIST_LIMIT] = [0; LIST_LIMIT];
    let list = front_mut(&mut words, s.counts.list);
    match q {
        Question::Find(t) => say_value(rt, find(s, t)),
        Question::Explain { a, b, stays } => say_explained(rt, explain(s, a, b), stays, s),
        Question::NormalForm(t) => {
            let r = normal_form(s, t, list).map(|(n, d)| (Some(n), d));
            say_form(rt, r, list, s)
        }
        Question::DeepForm(t) => say_form(rt, deep_form(s, t, list), list, s),
        Question::Resolve { p, guard, stays } => {
            let r = resolve(s, p, guard, list).map(Outcome::Answered);
            let d = say_outcome(rt, r, list, s)?;
            s.settle(d, stays);
            Ok(())
        }
        Question::Step { e, guard } => {
            let d = say_outcome(rt, step(s, e, guard, list), list, s)?;
            s.settle(d, false);
            Ok(())
        }
        Question::EmptyParts(p) => {
            let d = say_parts(rt, empty_parts(s, p, list), list, s)?;
            s.settle(d, true);
            Ok(())
        }
        Question::ForcedLength(p) => say_forced(rt, forced_length(s, p)),
        Question::NfEqual(p) => say_value(rt, nf_equal(s, p)),
        Question::NfEqualExplain(p) => say_added(rt, nf_equal_explain(s, p), s),
        Question::Join { a, b, kind, number } => {
            say_marked(rt, join(s, a, b, kind, number), &mut s.marks)
        }
        Question::SetMark => say_marked(rt, set_mark(s), &mut s.marks),
        Question::GoBack(n) => say_marked(rt, go_back(s, n), &mut s.marks),
        Question::Classes => say_classes(rt, &s.terms, s.counts.terms),
        Question::Trail => say_trail(rt, &s.marks),
    }
}
