// The index of a store whose records a test program has written by hand: 64 heads, and in each term's ninth word the next term of its bucket.
use crate::{put, put_all};
use records::fields::word;
use records::{BUCKETS, Kind, TERM_WIDTH, fields};

// Where word i of term t stands.
pub fn term_place(t: u32, i: usize) -> usize {
    (BUCKETS + TERM_WIDTH * (t as usize)).wrapping_add(i)
}

// The sum of n characters from place p on; a place past the end has 0. No text is longer than 16,384.
fn text_sum(chars: &[u32], p: u32, n: u32) -> u32 {
    let mut s: u32 = 0;
    for i in 0..n.min(16384) {
        s = s.wrapping_add(word(chars, p.wrapping_add(i) as usize));
    }
    s
}

// The sum of the values of a chain from cell e on. No chain has more than 2,048 cells.
fn chain_sum(cells: &[u32], e: u32) -> u32 {
    let mut s: u32 = 0;
    let mut at = e;
    for _ in 0..2048 {
        if at == 0 {
            return s;
        }
        s = s.wrapping_add(fields::value(cells, at));
        at = fields::next(cells, at);
    }
    s
}

// All characters of a term, or all its parts' numbers; the second word of a length is 0.
fn sum_of(terms: &[u32], cells: &[u32], chars: &[u32], t: u32) -> u32 {
    let x = fields::first(terms, t);
    let y = fields::second(terms, t);
    match Kind::try_from(fields::kind(terms, t)) {
        Ok(Kind::Constant | Kind::Variable) => text_sum(chars, x, y),
        Ok(Kind::Concatenation) => chain_sum(cells, x),
        _ => x.wrapping_add(y),
    }
}

fn bucket(terms: &[u32], cells: &[u32], chars: &[u32], t: u32) -> usize {
    let sum = fields::kind(terms, t).wrapping_add(sum_of(terms, cells, chars, t));
    (sum as usize) % BUCKETS
}

// Where the chain of bucket b ends: at its head, or at the ninth word of the term that `ends` has for it.
fn end_place(ends: &[u32], b: usize) -> usize {
    let last = word(ends, b);
    if last == 0 { b } else { term_place(last, 8) }
}

// Term t comes last in the chain of bucket b.
fn put_last(terms: &mut [u32], ends: &mut [u32], b: usize, t: u32) {
    put(terms, end_place(ends, b), t);
    put(terms, term_place(t, 8), 0);
    put(ends, b, t);
}

// The index of n terms, 512 at most.
pub fn put_index(terms: &mut [u32], cells: &[u32], chars: &[u32], n: u32) {
    let mut ends: [u32; BUCKETS] = [0; BUCKETS];
    put_all(terms, 0, &ends);
    for t in 1..=n.min(512) {
        let b = bucket(terms, cells, chars, t);
        put_last(terms, &mut ends, b, t);
    }
}
