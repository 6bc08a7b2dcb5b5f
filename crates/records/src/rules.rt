// The audit of sizes and records (refusals 1 and 2).
ghost use Rattle.std.specs.Prelude.{Bool, ℕ, [], ◌≡◌, eqb, true, ◌&&◌, ◌+◌, ◌*◌, ◌^◌, ◌<◌, ◌≤◌, length, leb};
ghost use Rattle.records.specs.Kind.{kind_number};
ghost use Rattle.records.specs.Lists.{all};
ghost use Rattle.records.specs.Store.{term_in, within, cell, chain};
ghost use Rattle.records.specs.View.{store_of, terms_view, pairs_view, across, termed, read_in, chained, records_in, lent};
ghost use Rattle.records.specs.View.{term_limit, cell_limit, reason_limit, sizes};
ghost use Rattle.records.specs.Rules.{is_char, is_number, is_reason_kind, is_equatable, records_rule, each_term, each_cell, is_list};
ghost use Rattle.records.specs.Rules.{reason_rule, key_rule, cell_rule, text_rule, part_rule, concat_rule, length_rule, equation_rule, term_rule};
ghost use Rattle.records.specs.Working.Hashes.{Tables, Passing};
ghost use Rattle.records.specs.Working.Audited.{Sized};

use crate::unique::variable_ok;
use crate::{
    BUCKETS, CELL_LIMIT, CELL_WIDTH, CHAR_LIMIT, KEY_LIMIT, Kind, LIST_LIMIT, Label, REASON_LIMIT,
    State, TERM_LIMIT, TERM_WIDTH, fields,
};

pub fn is_char(c: u32) -> bool
    ensures { result ≡ is_char c }
{
    c < 0x3_0000
}

pub fn is_number(v: u32) -> bool
    ensures { result ≡ is_number v }
{
    v < 0x8000_0000
}

// The kind of term t of the first n, and 0 where t is none of them.
pub fn kind_of(terms: &[u32], n: usize, t: u32) -> u32
    ensures { result ≡ (term_in (terms_view terms.now n) t).kind }
{
    if is_within(n, t) {
        fields::kind(terms, t)
    } else {
        0
    }
}

// Whether term t of the first n is of a kind.
pub fn is_a(terms: &[u32], n: usize, t: u32, kind: Kind) -> bool
    ensures { result ≡ eqb (term_in (terms_view terms.now n) t).kind (kind_number kind) }
{
    kind_of(terms, n, t) == u32::from(kind)
}

pub fn is_string(terms: &[u32], n: usize, t: u32) -> bool
    ensures { result ≡ within 3 (term_in (terms_view terms.now n) t).kind }
{
    matches!(kind_of(terms, n, t), 1..=3)
}

// A number from 1 to n.
pub fn is_within(n: usize, t: u32) -> bool
    ensures { result ≡ within n t }
{
    t != 0 && fields::wide(t) <= n
}

// SIZES

// At most `limit` records of `width` words each, after the words of none.
fn fits(words: &[u32], n: usize, limit: usize, before: usize, width: usize) -> bool
    requires { before + width * limit < 2 ^ 32 }
    ensures { result ≡ (leb n limit && leb (before + width * n) (length words.now)) }
{
    n <= limit && before + width * n <= words.len()
}

pub(crate) fn sizes(
    terms: &[u32],
    cells: &[u32],
    chars: &[u32],
    reasons: &[u32],
    keys: &[u32],
    c: State,
) -> bool
    ensures { result ≡ sizes (across terms cells chars reasons keys).entry c }
{
    fits(terms, c.terms, TERM_LIMIT, BUCKETS + TERM_WIDTH, TERM_WIDTH)
        && fits(cells, c.cells, CELL_LIMIT, CELL_WIDTH, CELL_WIDTH)
        && fits(chars, c.chars, CHAR_LIMIT, 0, 1)
        && fits(reasons, c.reasons, REASON_LIMIT, 0, 2)
        && fits(keys, c.keys, KEY_LIMIT, 0, 2)
}

// RULES OF A RECORD

// The kinds of reasons that a list has and a caller can give.
pub fn is_reason_kind(k: u32) -> bool
    ensures { result ≡ is_reason_kind k }
{
    k == u32::from(Label::Asserted) || k == u32::from(Label::Interface)
}

fn reason_ok(k: u32, v: u32) -> bool
    ensures { result ≡ reason_rule (k, v) }
{
    is_reason_kind(k) && is_number(v)
}

fn key_ok(terms: &[u32], c: State, a: u32, b: u32) -> bool
    ensures { result ≡ key_rule (termed terms.now c) (a, b) }
{
    a < b && is_string(terms, c.terms, a) && is_string(terms, c.terms, b)
}

fn cell_ok(cells: &[u32], c: State, i: u32) -> bool
    requires { within c.cells i ≡ true }
    ensures { result ≡ cell_rule (chained [] cells.now c) i }
{
    let next = fields::next(cells, i);
    next == 0 || (i < next && fields::wide(next) <= c.cells)
}

pub(crate) fn text_ok(terms: &[u32], c: State, t: u32) -> bool
    requires { within c.terms t ≡ true }
    ensures { result ≡ text_rule (termed terms.now c) t }
{
    let p = fields::first(terms, t);
    let n = fields::second(terms, t);
    fields::wide(p) + fields::wide(n) <= c.chars
}

fn part_ok(terms: &[u32], cells: &[u32], c: State, t: u32, i: u32) -> bool
    requires { within c.cells i ≡ true }
    ensures { let s = chained terms.now cells.now c in result ≡ part_rule s t ((cell s i).value, (cell s i).other) }
{
    let u = fields::value(cells, i);
    fields::other(cells, i) == 0 && u < t && is_string(terms, c.terms, u)
}

fn length_ok(terms: &[u32], c: State, t: u32) -> bool
    requires { within c.terms t ≡ true }
    ensures { result ≡ length_rule (termed terms.now c) t }
{
    let u = fields::first(terms, t);
    fields::second(terms, t) == 0 && u < t && is_string(terms, c.terms, u)
}

pub fn is_equatable(terms: &[u32], c: State, a: u32, b: u32) -> bool
    ensures { result ≡ is_equatable (termed terms.now c) a b }
{
    (is_string(terms, c.terms, a) && is_string(terms, c.terms, b))
        || (is_a(terms, c.terms, a, Kind::Length) && is_a(terms, c.terms, b, Kind::Length))
}

// A list of string terms that is not too long.
pub fn is_list(terms: &[u32], c: State, l: &[u32]) -> bool
    ensures { result ≡ is_list (termed terms.now c) l.now }
{
    l.len() <= LIST_LIMIT && l.iter().all(|&t| is_string(terms, c.terms, t))
}

fn equation_ok(terms: &[u32], c: State, t: u32) -> bool
    requires { within c.terms t ≡ true }
    ensures { result ≡ equation_rule (termed terms.now c) t }
{
    let a = fields::first(terms, t);
    let b = fields::second(terms, t);
    a < t && b < t && is_equatable(terms, c, a, b)
}

// The chain from cell f as the parts of term t. A chain has at most as many cells as there are, so the walk ends.
fn parts_ok(terms: &[u32], cells: &[u32], c: State, t: u32, f: u32) -> bool
    ensures { let s = chained terms.now cells.now c in result ≡ (leb 2 (length (chain s f)) && all (part_rule s t) (chain s f)) }
{
    let mut at = f;
    for i in 0..c.cells {
        if !is_within(c.cells, at) {
            return 2 <= i;
        }
        if !part_ok(terms, cells, c, t, at) {
            return false;
        }
        at = fields::next(cells, at);
    }
    2 <= c.cells
}

fn concat_ok(terms: &[u32], cells: &[u32], c: State, t: u32) -> bool
    requires { within c.terms t ≡ true }
    ensures { result ≡ concat_rule (chained terms.now cells.now c) t }
{
    let f = fields::first(terms, t);
    fields::second(terms, t) == 0 && parts_ok(terms, cells, c, t, f)
}

// The first three words of term t. A variable that passes is put into the tables.
fn term_ok(
    terms: &[u32],
    cells: &[u32],
    chars: &[u32],
    c: State,
    hashes: &mut [u32],
    links: &mut [u32],
    heads: &mut [u32; 64],
    t: u32,
) -> bool
    requires { (within c.terms t ≡ true) × (c.chars ≤ length chars.now) × Tables (read_in terms.now chars.now c) hashes.old links.old heads.old t }
    ensures { let s = records_in terms.now cells.now chars.now c in Passing (read_in terms.now chars.now c) (term_rule s t) hashes.new links.new heads.new t result }
{
    match Kind::try_from(fields::kind(terms, t)) {
        Ok(Kind::Constant) => text_ok(terms, c, t),
        Ok(Kind::Variable) => variable_ok(terms, chars, c, hashes, links, heads, t),
        Ok(Kind::Concatenation) => concat_ok(terms, cells, c, t),
        Ok(Kind::Length) => length_ok(terms, c, t),
        Ok(Kind::Equation) => equation_ok(terms, c, t),
        Err(_) => false,
    }
}

// RULES OF EVERY RECORD

fn cells_ok(cells: &[u32], c: State) -> bool
    requires { c.cells ≤ cell_limit }
    ensures { let s = chained [] cells.now c in result ≡ each_cell s (cell_rule s) }
{
    for i in 1..=c.cells as u32 {
        if !cell_ok(cells, c, i) {
            return false;
        }
    }
    true
}

pub(crate) fn chars_ok(w: &[u32]) -> bool
    ensures { result ≡ all is_char w.now }
{
    w.iter().all(|&c| is_char(c))
}

// Whether each of the first n pairs of a slice passes: reasons, or keys.
fn pairs_pass<F: Fn(u32, u32) -> bool>(pairs: &[u32], n: usize, rule: F) -> bool
    requires limited { n ≤ reason_limit }
    requires callable { F.IsAlwaysCallable rule }
    ensures { (test : ℕ × ℕ → Bool) → ((a b : ℕ) (r : Bool) → F.post rule a b r → r ≡ test (a, b)) → result ≡ all test (pairs_view pairs.now n) }
{
    for i in 0..n {
        if !rule(fields::word(pairs, 2 * i), fields::word(pairs, 2 * i + 1)) {
            return false;
        }
    }
    true
}

// The terms, with tables by number for their names: a place for each term, and for number 0, which names none.
fn terms_pass(
    terms: &[u32],
    cells: &[u32],
    chars: &[u32],
    c: State,
    hashes: &mut [u32],
    links: &mut [u32],
) -> bool
    requires { (c.terms ≤ term_limit) × (c.chars ≤ length chars.now) × (c.terms < length hashes.old) × (c.terms < length links.old) }
    ensures { let s = records_in terms.now cells.now chars.now c in result ≡ each_term s (term_rule s) }
{
    let mut heads: [u32; 64] = [0; 64];
    for t in 1..=c.terms as u32 {
        if !term_ok(terms, cells, chars, c, hashes, links, &mut heads, t) {
            return false;
        }
    }
    true
}

// The tables are cleared at each call, so a store of few terms has small ones.
fn terms_ok(terms: &[u32], cells: &[u32], chars: &[u32], c: State) -> bool
    requires { (c.terms ≤ term_limit) × (c.chars ≤ length chars.now) }
    ensures { let s = records_in terms.now cells.now chars.now c in result ≡ each_term s (term_rule s) }
{
    if c.terms < 32 {
        terms_pass(terms, cells, chars, c, &mut [0; 32], &mut [0; 32])
    } else {
        terms_pass(terms, cells, chars, c, &mut [0; 513], &mut [0; 513])
    }
}

pub(crate) fn records_ok(
    terms: &[u32],
    cells: &[u32],
    chars: &[u32],
    reasons: &[u32],
    keys: &[u32],
    c: State,
) -> bool
    requires { Sized (lent terms.now cells.now chars.now reasons.now keys.now) c }
    ensures { result ≡ records_rule (store_of (across terms cells chars reasons keys).entry c) }
{
    terms_ok(terms, cells, chars, c)
        && cells_ok(cells, c)
        && chars_ok(&chars[..c.chars])
        && pairs_pass(reasons, c.reasons, reason_ok)
        && pairs_pass(keys, c.keys, |a, b| key_ok(terms, c, a, b))
}
