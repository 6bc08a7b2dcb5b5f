// The words of a store written for a case: terms, edges, chains of cells, reasons.
use lines::indexing::term_place;
use lines::reading::Command;
use lines::{put, put_all};
use records::{CELL_WIDTH, Kind, Label};

// A count as a word; none here is above 65,535.
pub fn narrow(x: usize) -> u32 {
    if x < 65536 { x as u32 } else { 0 }
}

// Alone in its class.
pub fn put_term(terms: &mut [u32], t: u32, kind: u32, first: u32, second: u32) {
    put_all(
        terms,
        term_place(t, 0),
        &[kind, first, second, t, t, 0, 0, 0],
    );
}

// Of the parts in the chain from cell e on.
pub(crate) fn put_concatenation(terms: &mut [u32], t: u32, e: u32) {
    put_term(terms, t, u32::from(Kind::Concatenation), e, 0);
}

pub fn put_class(terms: &mut [u32], t: u32, p: u32) {
    put(terms, term_place(t, 3), p);
}

pub fn put_edge(terms: &mut [u32], t: u32, p: u32, kind: u32, value: u32, stamp: u32) {
    put_all(terms, term_place(t, 4), &[p, kind, value, stamp]);
}

fn put_cell(cells: &mut [u32], e: u32, value: u32, other: u32, next: u32) {
    put_all(cells, CELL_WIDTH * (e as usize), &[value, other, next]);
}

pub fn put_reason(reasons: &mut [u32], i: usize, kind: u32, value: u32) {
    put_all(reasons, i.wrapping_mul(2), &[kind, value]);
}

fn put_variable(terms: &mut [u32], chars: &mut [u32], t: u32) {
    put_term(terms, t, u32::from(Kind::Variable), t, 1);
    put(chars, t as usize, t.wrapping_add(256));
}

pub fn put_variables(terms: &mut [u32], chars: &mut [u32], above: u32, n: u32) {
    for i in 1..=n {
        put_variable(terms, chars, above.wrapping_add(i));
    }
}

// The edge from t to the next term, and the next one's class parent.
fn put_next(terms: &mut [u32], t: u32, first: u32) {
    let u = t.wrapping_add(1);
    put_edge(terms, t, u, u32::from(Label::Asserted), t, t);
    put_class(terms, u, first);
}

pub fn put_line(terms: &mut [u32], first: u32, n: u32) {
    for i in 1..n {
        put_next(terms, first.wrapping_add(i - 1), first);
    }
}

// Two cells: a chain of its own.
fn put_two(cells: &mut [u32], e: u32, a: u32, b: u32, c: u32, d: u32) {
    let next = e.wrapping_add(1);
    put_cell(cells, e, a, b, next);
    put_cell(cells, next, c, d, 0);
}

fn put_level(terms: &mut [u32], cells: &mut [u32], t: u32, e: u32, d: u32) {
    let u = t.wrapping_add(1);
    let f = e.wrapping_add(2);
    let g = e.wrapping_add(4);
    let a = t.wrapping_sub(d);
    let b = u.wrapping_sub(d);
    let up = 6u32.wrapping_sub(d);
    let x = t.wrapping_sub(up);
    let y = u.wrapping_sub(up);
    put_two(cells, e, a, 0, x, 0);
    put_two(cells, f, b, 0, y, 0);
    put_two(cells, g, a, b, x, y);
    put_concatenation(terms, t, e);
    put_concatenation(terms, u, f);
    put_class(terms, t, u);
    put_edge(terms, t, u, u32::from(Label::Congruence), g, t);
}

// From term t and cell e on.
pub fn put_tower(terms: &mut [u32], cells: &mut [u32], t: u32, e: u32, n: u32, d: u32) {
    for i in 0..n {
        let at = t.wrapping_add(i.wrapping_mul(2));
        let free = e.wrapping_add(i.wrapping_mul(6));
        put_level(terms, cells, at, free, d);
    }
}

// The other value of a pair, and 0 in a chain of parts.
fn other(c: Command<'_>, at: usize, wide: usize) -> u32 {
    if wide == 2 {
        c.number(at.wrapping_add(1))
    } else {
        0
    }
}

// The cell after e, or 0 where the numbers end.
fn next(e: u32, at: usize, wide: usize, last: usize) -> u32 {
    if last < at.wrapping_add(wide) {
        0
    } else {
        e.wrapping_add(1)
    }
}

// A chain from cell e on: the numbers from `from` on, one to a cell, or two. Answers the first cell after it.
pub fn put_chain(cells: &mut [u32], e: u32, c: Command<'_>, from: usize, wide: usize) -> u32 {
    let mut free = e;
    let mut at = from;
    for _ in 0..c.last {
        if c.last < at {
            return free;
        }
        put_cell(
            cells,
            free,
            c.number(at),
            other(c, at, wide),
            next(free, at, wide, c.last),
        );
        free = free.wrapping_add(1);
        at = at.wrapping_add(wide);
    }
    free
}

// The numbers of a command, from place `at` on.
pub fn put_words(to: &mut [u32], at: usize, c: Command<'_>) {
    for i in 1..=c.last {
        put(to, at.wrapping_add(i - 1), c.number(i));
    }
}

// The word x n times, from place `at` on.
pub fn put_same(to: &mut [u32], at: usize, n: u32, x: u32) {
    if let Some(room) = to.get_mut(at..) {
        let e = room.len().min(n as usize);
        room[..e].fill(x);
    }
}

// The pair (a, b) n times, from record i on.
pub fn put_pairs(to: &mut [u32], i: usize, n: u32, a: u32, b: u32) {
    for j in 0..n {
        put_reason(to, i.wrapping_add(j as usize), a, b);
    }
}

// n reasons of one kind, numbered from `first` on, from record i on.
pub fn put_numbered(to: &mut [u32], i: usize, n: u32, kind: u32, first: u32) {
    for j in 0..n {
        put_reason(to, i.wrapping_add(j as usize), kind, first.wrapping_add(j));
    }
}

// The concatenation of xi and xn, in cells e + 2i and the next, equal to the variable before xi by asserted reason i.
fn put_expansion(terms: &mut [u32], cells: &mut [u32], first: u32, n: u32, e: u32, i: u32) {
    let x = first.wrapping_add(i);
    let w = x.wrapping_sub(1);
    let last = first.wrapping_add(n);
    let t = last.wrapping_add(i);
    let at = e.wrapping_add(i.wrapping_mul(2));
    put_two(cells, at, x, 0, last, 0);
    put_concatenation(terms, t, at);
    put_class(terms, w, t);
    put_edge(terms, w, t, u32::from(Label::Asserted), i, i);
}

// x0 is the term `first`.
pub fn put_expansions(terms: &mut [u32], cells: &mut [u32], first: u32, n: u32, e: u32) {
    for i in 1..=n {
        put_expansion(terms, cells, first, n, e, i);
    }
}
