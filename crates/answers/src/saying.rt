// Printing reasons, lists, characters, and what a form made.
use crate::Store;
use building::words::narrow;
use records::fields::word;
use records::{Label, Refusal, State, fields};
use std::io;

pub fn say_refused(rt: &impl Print, k: Refusal) -> io::Result<()> {
    print!(rt; ": refused {}", u32::from(k))
}

// The kind and the number of reason i.
fn reason(reasons: &[u32], i: usize) -> (u32, u32) {
    let at = i.wrapping_mul(2);
    (word(reasons, at), word(reasons, at.wrapping_add(1)))
}

// The reason at i is of the kind of the one before it, its number one more.
fn follows(reasons: &[u32], i: usize) -> bool {
    if i == 0 {
        return false;
    }
    let (kind, number) = reason(reasons, i);
    let (was, before) = reason(reasons, i - 1);
    kind == was && number == before.wrapping_add(1)
}

fn say_reason(rt: &impl Print, reasons: &[u32], i: usize, count: usize) -> io::Result<()> {
    let (kind, number) = reason(reasons, i);
    if !follows(reasons, i) {
        let letter = if kind == u32::from(Label::Asserted) {
            'a'
        } else {
            'i'
        };
        return print!(rt; " {letter}{number}");
    }
    let after = i.wrapping_add(1);
    if after == count || !follows(reasons, after) {
        return print!(rt; "-{number}");
    }
    Ok(())
}

pub fn say_reasons(rt: &impl Print, reasons: &[u32], count: usize) -> io::Result<()> {
    rt.print(count)?;
    for i in 0..count {
        say_reason(rt, reasons, i, count)?;
    }
    Ok(())
}

fn goes_on(list: &[u32], i: usize, count: usize) -> bool {
    let after = i.wrapping_add(1);
    after < count && word(list, after) == word(list, i)
}

// Atom i, `before` times the same just before it: printed where the next is another. Answers how many of the same there are by now.
fn say_atom(rt: &impl Print, list: &[u32], i: usize, count: usize, before: u32) -> io::Result<u32> {
    let same = before.wrapping_add(1);
    if goes_on(list, i, count) {
        return Ok(same);
    }
    let t = word(list, i);
    if 1 < same {
        print!(rt; " {t}*{same}")?;
    } else {
        print!(rt; " {t}")?;
    }
    Ok(0)
}

pub fn say_list(rt: &impl Print, list: &[u32], count: usize) -> io::Result<()> {
    rt.print(count)?;
    let mut same: u32 = 0;
    for i in 0..count {
        same = say_atom(rt, list, i, count, same)?;
    }
    Ok(())
}

fn say_char(rt: &impl Print, x: u32) -> io::Result<()> {
    if x < 127 {
        rt.write_all(&[x as u8])
    } else {
        print!(rt; "<{x}>")
    }
}

pub fn say_text(rt: &impl Print, chars: &[u32], from: u32, n: u32) -> io::Result<()> {
    for i in 0..n {
        say_char(rt, word(chars, from.wrapping_add(i) as usize))?;
    }
    Ok(())
}

pub fn say_constant(rt: &impl Print, s: &Store, t: u32) -> io::Result<()> {
    rt.write_all(b" \"")?;
    say_text(
        rt,
        &s.chars,
        fields::first(&s.terms, t),
        fields::second(&s.terms, t),
    )?;
    rt.write_all(b"\"")
}

// After a form's list: the reasons, the new counts, and the constants that were made.
pub fn say_after(rt: &impl Print, s: &Store, d: State) -> io::Result<()> {
    rt.write_all(b", ")?;
    say_reasons(rt, &s.reasons, d.reasons)?;
    print!(rt; ", {} {}", d.terms, d.chars)?;
    for t in s.counts.terms..narrow(d.terms) {
        say_constant(rt, s, t + 1)?;
    }
    Ok(())
}
