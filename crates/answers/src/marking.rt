// The counts of marks and joins, and what is printed of them.
use crate::saying::say_refused;
use building::words::narrow;
use classes::Standing;
use classes::trail::{MARK_LIMIT, MARK_WORDS};
use lines::put;
use records::fields::word;
use records::{Refusal, fields};
use std::io;

// The words lent for marks stand first; after them how many marks stand, and how many joins are recorded.
pub const WORDS: usize = MARK_WORDS + 2;

pub fn count(marks: &mut [u32], standing: u32, joins: u32) {
    put(marks, MARK_WORDS, standing);
    put(marks, MARK_WORDS + 1, joins);
}

pub fn standing(marks: &[u32]) -> Standing {
    Standing {
        marks: word(marks, MARK_WORDS) as usize,
        joins: word(marks, MARK_WORDS + 1) as usize,
    }
}

// Prints the answer, with the counts of marks and of joins after the call, which are counted from here on.
pub fn say_marked(
    rt: &impl Print,
    r: Result<(u32, Standing), Refusal>,
    marks: &mut [u32],
) -> io::Result<()> {
    match r {
        Ok((n, d)) => {
            count(marks, narrow(d.marks), narrow(d.joins));
            print!(rt; ": {n}, {} {}", d.marks, d.joins)
        }
        Err(k) => say_refused(rt, k),
    }
}

// Whether the term has the class words of a term that is alone: the root of its tree and of its class.
fn is_bare(terms: &[u32], t: u32) -> bool {
    fields::class_parent(terms, t) == t
        && fields::forest_parent(terms, t) == t
        && fields::label_kind(terms, t) == 0
        && fields::label_value(terms, t) == 0
        && fields::stamp(terms, t) == 0
}

fn say_class(rt: &impl Print, terms: &[u32], t: u32) -> io::Result<()> {
    if is_bare(terms, t) {
        return Ok(());
    }
    let class = fields::class_parent(terms, t);
    let forest = fields::forest_parent(terms, t);
    let kind = fields::label_kind(terms, t);
    let value = fields::label_value(terms, t);
    let stamp = fields::stamp(terms, t);
    print!(rt; " ({t} {class} {forest} {kind} {value} {stamp})")
}

// The terms up to n.
pub fn say_classes(rt: &impl Print, terms: &[u32], n: u32) -> io::Result<()> {
    rt.write_all(b":")?;
    for t in 1..=n {
        say_class(rt, terms, t)?;
    }
    Ok(())
}

// Join j: three words, after those of the marks.
fn say_join(rt: &impl Print, marks: &[u32], j: usize) -> io::Result<()> {
    let at = MARK_LIMIT.wrapping_add(j.wrapping_mul(3));
    let child = word(marks, at);
    let root = word(marks, at.wrapping_add(1));
    let class = word(marks, at.wrapping_add(2));
    print!(rt; " ({child} {root} {class})")
}

pub fn say_trail(rt: &impl Print, marks: &[u32]) -> io::Result<()> {
    let d = standing(marks);
    rt.write_all(b":")?;
    for i in 0..d.marks {
        print!(rt; " {}", word(marks, i))?;
    }
    rt.write_all(b",")?;
    for j in 0..d.joins {
        say_join(rt, marks, j)?;
    }
    Ok(())
}
