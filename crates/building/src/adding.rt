// The commands that change the store, the list or what is lent.
use crate::Counts;
use crate::words::{
    narrow, put_chain, put_class, put_concatenation, put_edge, put_expansions, put_line,
    put_numbered, put_pairs, put_reason, put_same, put_term, put_tower, put_variables, put_words,
};
use lines::indexing::{put_index, term_place};
use lines::lending::{Lens, Lent};
use lines::put;
use lines::reading::Command;
use records::{CELL_WIDTH, Kind, Label};

pub fn reasoned(c: Counts, reasons: usize) -> Counts {
    Counts { reasons, ..c }
}

fn variables(terms: &mut [u32], chars: &mut [u32], m: u32, k: &mut Counts) {
    put_variables(terms, chars, k.terms, m);
    k.terms = k.terms.wrapping_add(m);
}

fn line(terms: &mut [u32], chars: &mut [u32], m: u32, k: &mut Counts) {
    let first = k.terms.wrapping_add(1);
    variables(terms, chars, m, k);
    put_line(terms, first, m);
}

// A constant or a variable with the characters counted next, m of them.
fn text(terms: &mut [u32], kind: Kind, m: u32, k: &mut Counts) {
    k.terms = k.terms.wrapping_add(1);
    put_term(terms, k.terms, u32::from(kind), k.chars, m);
    k.chars = k.chars.wrapping_add(m);
}

fn spelled(terms: &mut [u32], chars: &mut [u32], kind: Kind, c: Command<'_>, k: &mut Counts) {
    put_words(chars, k.chars as usize, c);
    text(terms, kind, narrow(c.last), k);
}

fn repeated(terms: &mut [u32], chars: &mut [u32], m: u32, x: u32, k: &mut Counts) {
    put_same(chars, k.chars as usize, m, x);
    text(terms, Kind::Constant, m, k);
}

// The cells of a chain, from the first free one on. Answers that one.
fn chain(cells: &mut [u32], c: Command<'_>, from: usize, wide: usize, k: &mut Counts) -> u32 {
    let e = k.cells.wrapping_add(1);
    k.cells = put_chain(cells, e, c, from, wide).wrapping_sub(1);
    e
}

fn concatenation(terms: &mut [u32], cells: &mut [u32], c: Command<'_>, k: &mut Counts) {
    let e = chain(cells, c, 1, 1, k);
    k.terms = k.terms.wrapping_add(1);
    put_concatenation(terms, k.terms, e);
}

fn words(terms: &mut [u32], c: Command<'_>, k: &mut Counts) {
    k.terms = k.terms.wrapping_add(1);
    put_term(terms, k.terms, c.number(1), c.number(2), c.number(3));
}

fn congruence(terms: &mut [u32], cells: &mut [u32], c: Command<'_>, k: &mut Counts) {
    let t = c.number(1);
    let p = c.number(2);
    let e = chain(cells, c, 4, 2, k);
    put_edge(terms, t, p, u32::from(Label::Congruence), e, c.number(3));
    put_class(terms, t, p);
}

fn tower(terms: &mut [u32], cells: &mut [u32], m: u32, d: u32, k: &mut Counts) {
    let t = k.terms.wrapping_add(1);
    let e = k.cells.wrapping_add(1);
    put_tower(terms, cells, t, e, m, d);
    k.terms = k.terms.wrapping_add(m.wrapping_mul(2));
    k.cells = k.cells.wrapping_add(m.wrapping_mul(6));
}

fn expansions(terms: &mut [u32], cells: &mut [u32], chars: &mut [u32], m: u32, k: &mut Counts) {
    let x = k.terms.wrapping_add(1);
    put_variables(terms, chars, k.terms, m.wrapping_add(1));
    put_expansions(terms, cells, x, m, k.cells.wrapping_sub(1));
    let two = m.wrapping_mul(2);
    k.terms = x.wrapping_add(two);
    k.cells = k.cells.wrapping_add(two);
}

// The commands that change records of terms, their parts or their count, after which the index is put anew. Answers whether it was one.
fn change_records(
    c: Command<'_>,
    terms: &mut [u32],
    cells: &mut [u32],
    chars: &mut [u32],
    k: &mut Counts,
) -> bool {
    let a = c.number(1);
    let b = c.number(2);
    let at = b as usize;
    match c.letter {
        b'V' => variables(terms, chars, a, k),
        b'H' => line(terms, chars, a, k),
        b'K' | b'S' => spelled(terms, chars, Kind::Constant, c, k),
        b'I' => spelled(terms, chars, Kind::Variable, c, k),
        b'O' => repeated(terms, chars, a, b, k),
        b'P' => concatenation(terms, cells, c, k),
        b'X' => words(terms, c, k),
        b'U' => tower(terms, cells, a, b, k),
        b'Y' => expansions(terms, cells, chars, a, k),
        b'T' => put(terms, term_place(a, at), c.number(3)),
        b'D' => put(cells, CELL_WIDTH * (a as usize) + at, c.number(3)),
        b'M' => k.terms = a,
        _ => return false,
    }
    true
}

fn edge(terms: &mut [u32], c: Command<'_>) {
    put_edge(
        terms,
        c.number(1),
        c.number(2),
        c.number(3),
        c.number(4),
        c.number(5),
    );
}

// The commands that change edges and classes, or words of the index.
fn change_edges(c: Command<'_>, terms: &mut [u32], cells: &mut [u32], k: &mut Counts) {
    let a = c.number(1);
    let b = c.number(2);
    match c.letter {
        b'A' => {
            put_class(terms, a, b);
            edge(terms, c);
        }
        b'F' => edge(terms, c),
        b'C' => put_class(terms, a, b),
        b'G' => congruence(terms, cells, c, k),
        b'x' => put(terms, a as usize, b),
        _ => {}
    }
}

fn reason(reasons: &mut [u32], kind: u32, value: u32, k: &mut Counts) {
    put_reason(reasons, k.reasons, kind, value);
    k.reasons = k.reasons.wrapping_add(1);
}

// m reasons more of one kind, numbered from `first` on.
fn numbered(reasons: &mut [u32], m: u32, kind: u32, first: u32, k: &mut Counts) {
    put_numbered(reasons, k.reasons, m, kind, first);
    k.reasons = k.reasons.wrapping_add(m as usize);
}

// The key (a, b) m times more.
fn key(keys: &mut [u32], m: u32, a: u32, b: u32, k: &mut Counts) {
    put_pairs(keys, k.keys, m, a, b);
    k.keys = k.keys.wrapping_add(m as usize);
}

fn list(to: &mut [u32], c: Command<'_>, k: &mut Counts) {
    put_words(to, 0, c);
    k.known = c.last;
}

fn same(to: &mut [u32], m: u32, t: u32, k: &mut Counts) {
    put_same(to, k.known, m, t);
    k.known = k.known.wrapping_add(m as usize);
}

// So many words of one slice are lent, and the others whole.
fn lend(slice: u32, words: usize, k: &mut Counts) {
    k.lens = Lens::WHOLE;
    k.list = usize::MAX;
    k.marks = usize::MAX;
    match slice {
        1 => k.lens.terms = words,
        2 => k.lens.cells = words,
        3 => k.lens.chars = words,
        4 => k.lens.reasons = words,
        5 => k.lens.keys = words,
        6 => k.list = words,
        7 => k.marks = words,
        _ => {}
    }
}

// The commands that change what is counted or lent, reasons, keys and the list.
fn set(c: Command<'_>, reasons: &mut [u32], keys: &mut [u32], known: &mut [u32], k: &mut Counts) {
    let a = c.number(1);
    let b = c.number(2);
    match c.letter {
        b'c' => k.cells = a,
        b'i' => k.names = a,
        b'k' => key(keys, a, b, c.number(3), k),
        b'R' => reason(reasons, a, b, k),
        b'l' => numbered(reasons, a, b, c.number(3), k),
        b'W' => lend(a, b as usize, k),
        b'L' => list(known, c, k),
        b'J' => same(known, a, b, k),
        _ => {}
    }
}

// What was made is not counted from here on: the index is put anew where there was something.
pub fn uncount(terms: &mut [u32], cells: &[u32], chars: &[u32], made: u32, c: Counts) -> Counts {
    if made != c.terms {
        put_index(terms, cells, chars, c.terms);
    }
    c
}

// A command that asks nothing.
pub fn apply(
    c: Command<'_>,
    (terms, cells, chars, reasons, keys): Lent<'_>,
    known: &mut [u32],
    k: &mut Counts,
) {
    if change_records(c, terms, cells, chars, k) {
        put_index(terms, cells, chars, k.terms);
    } else {
        change_edges(c, terms, cells, k);
        set(c, reasons, keys, known, k);
    }
}
