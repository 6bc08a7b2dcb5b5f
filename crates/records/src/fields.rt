// Reading the records. Each reader is total: a word past the end of its slice reads as 0.
ghost use Rattle.std.specs.Prelude.{◌≡◌, ◌≤◌, eqb, length, get_or};
ghost use Rattle.records.specs.Kind.{kind_number};
ghost use Rattle.records.specs.View.{term_at, term_words, cell_at};

use crate::{BUCKETS, CELL_WIDTH, Kind, TERM_WIDTH};

pub fn wide(x: u32) -> usize
    ensures { result ≡ x }
{
    x as usize
}

// The word at i, and 0 past the end.
pub fn word(s: &[u32], i: usize) -> u32
    ensures { result ≡ get_or s.now i 0 }
{
    s.get(i).copied().unwrap_or(0)
}

pub fn kind(terms: &[u32], t: u32) -> u32
    ensures { result ≡ (term_at terms.now t).kind }
{
    word(terms, BUCKETS + TERM_WIDTH * (t as usize) + 0)
}

pub fn first(terms: &[u32], t: u32) -> u32
    ensures { result ≡ (term_at terms.now t).first }
{
    word(terms, BUCKETS + TERM_WIDTH * (t as usize) + 1)
}

pub fn second(terms: &[u32], t: u32) -> u32
    ensures { result ≡ (term_at terms.now t).second }
{
    word(terms, BUCKETS + TERM_WIDTH * (t as usize) + 2)
}

pub fn class_parent(terms: &[u32], t: u32) -> u32
    ensures { result ≡ (term_at terms.now t).class_parent }
{
    word(terms, BUCKETS + TERM_WIDTH * (t as usize) + 3)
}

pub fn forest_parent(terms: &[u32], t: u32) -> u32
    ensures { result ≡ (term_at terms.now t).forest_parent }
{
    word(terms, BUCKETS + TERM_WIDTH * (t as usize) + 4)
}

// The same of a record that the slice has: a climb reads one for each step.
pub fn forest_parent_unchecked(terms: &[u32], t: u32) -> u32
    requires { term_words t ≤ length terms.now }
    ensures { result ≡ (term_at terms.now t).forest_parent }
{
    terms[BUCKETS + TERM_WIDTH * (t as usize) + 4]
}

pub fn label_kind(terms: &[u32], t: u32) -> u32
    ensures { result ≡ (term_at terms.now t).label_kind }
{
    word(terms, BUCKETS + TERM_WIDTH * (t as usize) + 5)
}

pub fn label_value(terms: &[u32], t: u32) -> u32
    ensures { result ≡ (term_at terms.now t).label_value }
{
    word(terms, BUCKETS + TERM_WIDTH * (t as usize) + 6)
}

pub fn stamp(terms: &[u32], t: u32) -> u32
    ensures { result ≡ (term_at terms.now t).stamp }
{
    word(terms, BUCKETS + TERM_WIDTH * (t as usize) + 7)
}

pub fn value(cells: &[u32], c: u32) -> u32
    ensures { result ≡ (cell_at cells.now c).value }
{
    word(cells, CELL_WIDTH * (c as usize) + 0)
}

pub fn other(cells: &[u32], c: u32) -> u32
    ensures { result ≡ (cell_at cells.now c).other }
{
    word(cells, CELL_WIDTH * (c as usize) + 1)
}

pub fn next(cells: &[u32], c: u32) -> u32
    ensures { result ≡ (cell_at cells.now c).next }
{
    word(cells, CELL_WIDTH * (c as usize) + 2)
}

// Whether a term's record says this kind.
pub fn is_a(terms: &[u32], t: u32, of: Kind) -> bool
    ensures { result ≡ eqb (term_at terms.now t).kind (kind_number of) }
{
    kind(terms, t) == u32::from(of)
}
