// The commands that change words, counts and lengths.
use crate::Store;
use lines::indexing::term_place;
use lines::lending::Lens;
use lines::reading::Command;
use lines::{put, put_all};
use records::{CELL_WIDTH, State, TERM_WIDTH};

// The good store. Variables x and y, merged by a7.
const GOOD_VARIABLES: [u32; 18] = [2, 0, 1, 1, 1, 0, 0, 0, 0, 2, 1, 1, 1, 1, 1, 7, 1, 0];

// x ++ y and y ++ x, joined by congruence, and of one bucket.
const GOOD_CONCATENATIONS: [u32; 18] = [3, 1, 0, 4, 3, 0, 0, 0, 4, 3, 3, 0, 4, 3, 3, 5, 2, 0];

// The length of x; x = y.
const GOOD_OTHERS: [u32; 18] = [4, 1, 0, 5, 5, 0, 0, 0, 0, 5, 1, 2, 6, 6, 0, 0, 0, 0];

// The parts x, y; the parts y, x.
const GOOD_PARTS: [u32; 12] = [1, 0, 2, 2, 0, 0, 2, 0, 4, 1, 0, 0];

// The pairs (y, x), (x, y).
const GOOD_PAIRS: [u32; 6] = [2, 1, 6, 1, 2, 0];

const GOOD_CHARS: [u32; 2] = [120, 121];

const GOOD_REASONS: [u32; 2] = [1, 5];

const GOOD_KEYS: [u32; 2] = [1, 2];

fn good_terms(terms: &mut [u32]) {
    put_all(terms, term_place(0, 0), &[0; TERM_WIDTH]);
    put_all(terms, term_place(1, 0), &GOOD_VARIABLES);
    put_all(terms, term_place(3, 0), &GOOD_CONCATENATIONS);
    put_all(terms, term_place(5, 0), &GOOD_OTHERS);
}

fn good_cells(cells: &mut [u32]) {
    put_all(cells, 0, &[0; CELL_WIDTH]);
    put_all(cells, CELL_WIDTH, &GOOD_PARTS);
    put_all(cells, 5 * CELL_WIDTH, &GOOD_PAIRS);
}

// With no word to spare.
fn good(s: &mut Store) {
    good_terms(&mut s.terms);
    good_cells(&mut s.cells);
    put_all(&mut s.chars, 0, &GOOD_CHARS);
    put_all(&mut s.reasons, 0, &GOOD_REASONS);
    put_all(&mut s.keys, 0, &GOOD_KEYS);
    s.counts = State::of(6, 6, 2, 1, 1, 0);
    s.lens = Lens {
        terms: 127,
        cells: 21,
        chars: 2,
        reasons: 2,
        keys: 2,
    };
}

// `many` words from `from` on, `apart` places apart, the first x, each `more` above the one before.
fn fill_slice(s: &mut [u32], c: Command<'_>) {
    let apart = c.number(4) as usize;
    let more = c.number(6);
    let mut at = c.number(2) as usize;
    let mut x = c.number(5);
    for _ in 0..c.number(3) {
        put(s, at, x);
        at = at.wrapping_add(apart);
        x = x.wrapping_add(more);
    }
}

fn fill(c: Command<'_>, s: &mut Store) {
    match c.number(1) {
        1 => fill_slice(&mut s.terms, c),
        2 => fill_slice(&mut s.cells, c),
        3 => fill_slice(&mut s.chars, c),
        4 => fill_slice(&mut s.reasons, c),
        5 => fill_slice(&mut s.keys, c),
        6 => fill_slice(&mut s.list, c),
        _ => {}
    }
}

fn counts_of(c: Command<'_>) -> State {
    State::of(
        c.number(1) as usize,
        c.number(2) as usize,
        c.number(3) as usize,
        c.number(4) as usize,
        c.number(5) as usize,
        c.number(6),
    )
}

fn lens_of(c: Command<'_>) -> Lens {
    Lens {
        terms: c.number(1) as usize,
        cells: c.number(2) as usize,
        chars: c.number(3) as usize,
        reasons: c.number(4) as usize,
        keys: c.number(5) as usize,
    }
}

// The commands after which the index is put anew. Answers whether it was one.
pub(crate) fn change_records(c: Command<'_>, s: &mut Store) -> bool {
    let at = c.number(1) as usize;
    let i = c.number(2) as usize;
    match c.letter {
        b'G' => good(s),
        b'O' => {
            s.counts = State::of(0, 0, 0, 0, 0, 0);
            s.lens = Lens::WHOLE;
        }
        b'N' => s.counts = counts_of(c),
        b'T' => put(&mut s.terms, term_place(c.number(1), i), c.number(3)),
        b'E' => put(&mut s.cells, CELL_WIDTH * at + i, c.number(3)),
        b'H' => put(&mut s.chars, at, c.number(2)),
        b'F' => fill(c, s),
        _ => return false,
    }
    true
}

pub(crate) fn change(c: Command<'_>, s: &mut Store) {
    let at = c.number(1) as usize;
    match c.letter {
        b'L' => s.lens = lens_of(c),
        b'I' => put(&mut s.terms, at, c.number(2)),
        b'R' => put(&mut s.reasons, at, c.number(2)),
        b'K' => put(&mut s.keys, at, c.number(2)),
        b'W' => {
            put_all(&mut s.list, 0, c.numbers);
            s.listed = c.last;
        }
        b'Z' => s.listed = at,
        _ => {}
    }
}
