// Writing records above the counts: terms, cells, reasons and keys; and what joins classes, in a term's record.
ghost use Rattle.std.specs.Prelude.{true, ◌≡◌, ◌+◌, ◌*◌, ◌/◌, ◌<◌, ◌≤◌, min, ltb, leb, length};
ghost use Rattle.records.specs.Lists.{any};
ghost use Rattle.records.specs.View.{buckets, term_limit, cell_limit, term_at, term_words, cell_words, term_room, cell_room, pair_at, pairs_view, store_of, across, changing, lent};
ghost use Rattle.records.specs.Rules.{key_rule};
ghost use Rattle.records.specs.Make.{with_class, with_edge, add_key, ordered, same_pair};
ghost use Rattle.records.specs.Working.Indexing.{Walkable};
ghost use Rattle.records.specs.Working.Puts.{WordsPut, TermPut, TermSet, CellPut, ChainPut, PairPut, Pushed};
ghost use Rattle.records.specs.Calls.{added};
ghost use Rattle.records.specs.Working.Audited.{Ready};
ghost use Rattle.records.specs.Working.Doing.{Does};

use crate::index::link;
use crate::{BUCKETS, CELL_WIDTH, Refusal, State, TERM_WIDTH};

// One term more fits.
pub(crate) fn term_fits(terms: &[u32], n: usize) -> bool
    ensures { result ≡ ltb n (term_room terms.now) }
{
    n < crate::TERM_LIMIT && BUCKETS + TERM_WIDTH * (n + 2) <= terms.len()
}

// Record n + 1, which is its own class, at the end of the chain of bucket b: the words above the count are free, so all nine are written.
pub(crate) fn put_term_unchecked(
    terms: &mut [u32],
    n: usize,
    kind: u32,
    first: u32,
    second: u32,
    b: usize,
)
    requires limited { n < term_limit }
    requires room { term_words (n + 1) ≤ length terms.old }
    requires bucket { b < buckets }
    requires walkable { Walkable terms.old n b }
    ensures { TermPut terms.old terms.new n kind first second b }
{
    link(terms, n, b);
    put_words(terms, n, kind, first, second);
}

// The words of record n + 1; no term comes after it yet.
fn put_words(terms: &mut [u32], n: usize, kind: u32, first: u32, second: u32)
    requires limited { n < term_limit }
    requires room { term_words (n + 1) ≤ length terms.old }
    ensures { WordsPut terms.old terms.new n kind first second }
{
    let at = BUCKETS + TERM_WIDTH * (n + 1);
    let own = (n + 1) as u32;
    terms[at] = kind;
    terms[at + 1] = first;
    terms[at + 2] = second;
    terms[at + 3] = own;
    terms[at + 4] = own;
    terms[at + 5] = 0;
    terms[at + 6] = 0;
    terms[at + 7] = 0;
    terms[at + 8] = 0;
}

// A term's parent in its class.
pub fn put_class_parent_unchecked(terms: &mut [u32], t: u32, parent: u32)
    requires { term_words t ≤ length terms.old }
    ensures { TermSet terms.old terms.new t (with_class (term_at terms.old t) parent) }
{
    terms[BUCKETS + TERM_WIDTH * (t as usize) + 3] = parent;
}

// A term's edge to its parent in the forest, with its label and stamp.
pub fn put_edge_unchecked(terms: &mut [u32], t: u32, parent: u32, kind: u32, value: u32, stamp: u32)
    requires { term_words t ≤ length terms.old }
    ensures { TermSet terms.old terms.new t (with_edge (term_at terms.old t) parent kind value stamp) }
{
    let at = BUCKETS + TERM_WIDTH * (t as usize);
    terms[at + 4] = parent;
    terms[at + 5] = kind;
    terms[at + 6] = value;
    terms[at + 7] = stamp;
}

// k cells more fit.
pub(crate) fn cells_fit(cells: &[u32], n: usize, k: usize) -> bool
    requires limited { n ≤ cell_limit }
    requires room { cell_words n ≤ length cells.now }
    ensures { result ≡ leb (n + k) (cell_room cells.now) }
{
    k <= crate::CELL_LIMIT - n && CELL_WIDTH * (n + k + 1) <= cells.len()
}

fn put_cell(cells: &mut [u32], n: usize, value: u32, next: u32)
    requires limited { n < cell_limit }
    requires room { cell_words (n + 1) ≤ length cells.old }
    ensures { CellPut cells.old cells.new n value next }
{
    let at = CELL_WIDTH * (n + 1);
    cells[at] = value;
    cells[at + 1] = 0;
    cells[at + 2] = next;
}

// A chain of the values of l, from record n + 1 on: each cell names the one after it, and the last names none.
pub(crate) fn put_chain_unchecked(cells: &mut [u32], n: usize, l: &[u32])
    requires limited { n + length l.now ≤ cell_limit }
    requires room { cell_words (n + length l.now) ≤ length cells.old }
    ensures { ChainPut cells.old cells.new n l.now }
{
    if l.is_empty() {
        return;
    }
    let last = l.len() - 1;
    for i in 0..last {
        put_cell(cells, n + i, l[i], (n + i + 2) as u32);
    }
    put_cell(cells, n + last, l[last], 0);
}

// One pair more fits a slice and a limit.
fn pair_fits(pairs: &[u32], limit: usize, n: usize) -> bool
    ensures { result ≡ ltb n (min limit (length pairs.now / 2)) }
{
    n < limit.min(pairs.len() / 2)
}

fn push_pair(pairs: &mut [u32], n: usize, a: u32, b: u32)
    requires { n < length pairs.old / 2 }
    ensures { PairPut pairs.old pairs.new n a b }
{
    pairs[2 * n] = a;
    pairs[2 * n + 1] = b;
}

// A reason at the count n, where one fits: whether it did.
pub fn push_reason_unchecked(reasons: &mut [u32], n: usize, kind: u32, value: u32) -> bool
    ensures { Pushed reasons.old reasons.new n kind value result }
{
    let fits = pair_fits(reasons, crate::REASON_LIMIT, n);
    if fits {
        push_pair(reasons, n, kind, value);
    }
    fits
}

pub fn add_key_unchecked(
    terms: &[u32],
    cells: &[u32],
    chars: &[u32],
    reasons: &[u32],
    keys: &mut [u32],
    c: State,
    a: u32,
    b: u32,
) -> Result<State, Refusal>
    requires ready { Ready (lent terms.now cells.now chars.now reasons.now keys.old) c }
    requires b_value { key_rule (store_of (lent terms.now cells.now chars.now reasons.now keys.old) c) (ordered a b) ≡ true }
    ensures { Does (add_key a b) (across terms cells chars reasons (changing keys)) c (added result) }
{
    if pair_fits(keys, crate::KEY_LIMIT, c.keys) {
        push_pair(keys, c.keys, a.min(b), a.max(b));
        return Ok(c.with_key());
    }
    Err(Refusal::Room)
}

pub fn pair_is_unchecked(pairs: &[u32], i: usize, a: u32, b: u32) -> bool
    requires { 2 * i + 2 ≤ length pairs.now }
    ensures { result ≡ same_pair (a, b) (pair_at pairs.now i) }
{
    b == pairs[2 * i + 1] && a == pairs[2 * i]
}

fn has_pair(pairs: &[u32], n: usize, a: u32, b: u32) -> bool
    requires { 2 * n ≤ length pairs.now }
    ensures { result ≡ any (same_pair (a, b)) (pairs_view pairs.now n) }
{
    for i in 0..n {
        if pair_is_unchecked(pairs, i, a, b) {
            return true;
        }
    }
    false
}

pub fn is_key_unchecked(keys: &[u32], n: usize, a: u32, b: u32) -> bool
    requires { 2 * n ≤ length keys.now }
    ensures { result ≡ any (same_pair (ordered a b)) (pairs_view keys.now n) }
{
    has_pair(keys, n, a.min(b), a.max(b))
}
