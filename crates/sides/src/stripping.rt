// Step 1: same heads and same tails are stripped, class matches explained. Pairs are read from the fronts of two lists or from their ends.
ghost use Rattle.std.specs.Prelude.{◌≡◌, true, ◌&&◌, [], ◌<◌, length, get_or, eqb};
ghost use Rattle.records.specs.Lists.{all, same_word};
ghost use Rattle.records.specs.Store.{term_in, is_constant, is_string, text, same_class};
ghost use Rattle.records.specs.View.{store_of, terms_view, across, Between, read_in, changing, lent};
ghost use Rattle.records.specs.Working.Audited.{Ready};
ghost use Rattle.records.specs.Calls.{added};
ghost use Rattle.records.specs.Working.Doing.{Does};
ghost use Rattle.sides.specs.Wordeq.{same, same_heads, matches, explain_matches, needs_reason, nf_equal, explain_pair, nf_explain};
ghost use Rattle.sides.specs.Working.Stripping.{Readable, Pair, way, Finds, Strips, Needs, Asked};

use crate::{Rest, Stripped};
use records::{Kind, Refusal, State, classes, fields, rules, text};

pub fn both_constant(terms: &[u32], n: usize, a: u32, b: u32) -> bool
    ensures { result ≡ (eqb (term_in (terms_view terms.now n) a).kind 1 && eqb (term_in (terms_view terms.now n) b).kind 1) }
{
    rules::is_a(terms, n, a, Kind::Constant) && rules::is_a(terms, n, b, Kind::Constant)
}

// Whether two constants have equal characters.
pub(crate) fn same_text(terms: &[u32], chars: &[u32], c: State, a: u32, b: u32) -> bool
    requires readable { Readable terms.now chars.now c }
    requires constants { is_constant (read_in terms.now chars.now c) a && is_constant (read_in terms.now chars.now c) b ≡ true }
    ensures { result ≡ same_word (text (read_in terms.now chars.now c) a) (text (read_in terms.now chars.now c) b) }
{
    let k = fields::second(terms, a);
    if k != fields::second(terms, b) {
        return false;
    }
    let from = fields::first(terms, b) as usize;
    let n = k as usize;
    text::text_is(chars, fields::first(terms, a), &chars[from..from + n])
}

pub fn same_class_unchecked(terms: &[u32], chars: &[u32], c: State, a: u32, b: u32) -> bool
    requires fact_1 { Readable terms.now chars.now c }
    requires fact_2 { Pair (read_in terms.now chars.now c) a b }
    ensures { result ≡ same_class (read_in terms.now chars.now c) a b }
{
    let x = classes::root_unchecked(terms, c.terms, a);
    let y = classes::root_unchecked(terms, c.terms, b);
    x == y
}

// Whether two string terms are the same: one number, or two constants of equal characters, or else one class.
pub fn same_unchecked(terms: &[u32], chars: &[u32], c: State, a: u32, b: u32) -> bool
    requires fact_1 { Readable terms.now chars.now c }
    requires fact_2 { Pair (read_in terms.now chars.now c) a b }
    ensures { result ≡ same (read_in terms.now chars.now c) a b }
{
    a == b
        || if both_constant(terms, c.terms, a, b) {
            same_text(terms, chars, c, a, b)
        } else {
            same_class_unchecked(terms, chars, c, a, b)
        }
}

// Whether they are two constants of equal characters.
fn is_alike(terms: &[u32], chars: &[u32], c: State, a: u32, b: u32) -> bool
    requires { Readable terms.now chars.now c }
    ensures { let s = read_in terms.now chars.now c in result ≡ (is_constant s a && is_constant s b && same_word (text s a) (text s b)) }
{
    both_constant(terms, c.terms, a, b) && same_text(terms, chars, c, a, b)
}

// The atom at place i, from the list's end on where `tail` says so.
pub fn atom_unchecked(l: &[u32], i: usize, tail: bool) -> u32
    requires { i < length l.now }
    ensures { result ≡ get_or (way tail l.now) i 0 }
{
    if tail { l[l.len() - 1 - i] } else { l[i] }
}

// How many heads of two lists are the same, or how many tails, from the ends on.
pub(crate) fn count_same(
    terms: &[u32],
    chars: &[u32],
    c: State,
    lhs: &[u32],
    rhs: &[u32],
    tail: bool,
) -> usize
    requires readable { Readable terms.now chars.now c }
    requires lhs_strings { all (is_string (read_in terms.now chars.now c)) lhs.now ≡ true }
    requires rhs_strings { all (is_string (read_in terms.now chars.now c)) rhs.now ≡ true }
    ensures { result ≡ length (same_heads (read_in terms.now chars.now c) (way tail lhs.now) (way tail rhs.now)) }
{
    let n = lhs.len().min(rhs.len());
    for i in 0..n {
        let x = atom_unchecked(lhs, i, tail);
        let y = atom_unchecked(rhs, i, tail);
        if !same_unchecked(terms, chars, c, x, y) {
            return i;
        }
    }
    n
}

// What is left of two lists of string terms without their same heads and then their same tails. It writes nothing.
pub fn find_rest_unchecked(terms: &[u32], chars: &[u32], c: State, lhs: &[u32], rhs: &[u32]) -> Rest
    requires readable { Readable terms.now chars.now c }
    requires lhs_value { all (is_string (read_in terms.now chars.now c)) lhs.now ≡ true }
    requires rhs_value { all (is_string (read_in terms.now chars.now c)) rhs.now ≡ true }
    ensures { Finds (read_in terms.now chars.now c) lhs.now rhs.now result }
{
    let from = count_same(terms, chars, c, lhs, rhs, false);
    let l = &lhs[from..];
    let r = &rhs[from..];
    let n = count_same(terms, chars, c, l, r, true);
    Rest {
        from,
        lhs: lhs.len() - n,
        rhs: rhs.len() - n,
    }
}

// The reasons why two string terms of one class are equal: none for one number or for constants of equal characters.
fn explain_pair(
    terms: &[u32],
    cells: &[u32],
    chars: &[u32],
    reasons: &mut [u32],
    keys: &[u32],
    c: State,
    a: u32,
    b: u32,
    places: &mut [u32],
) -> Result<State, Refusal>
    requires ready { Ready (lent terms.now cells.now chars.now reasons.old keys.now) c }
    requires pair { Pair (read_in terms.now chars.now c) a b }
    ensures { Does (explain_pair a b) (across terms cells chars (changing reasons) keys) c (added result) }
{
    if a == b || is_alike(terms, chars, c, a, b) || !same_class_unchecked(terms, chars, c, a, b) {
        return Ok(c);
    }
    engine::explain_unchecked(terms, cells, chars, reasons, keys, c, a, b, places)
}

// The reasons why two lists of equal length are equal, pair by pair, from their fronts or from their ends on.
pub(crate) fn explain_pairs(
    terms: &[u32],
    cells: &[u32],
    chars: &[u32],
    reasons: &mut [u32],
    keys: &[u32],
    c: State,
    lhs: &[u32],
    rhs: &[u32],
    tail: bool,
    places: &mut [u32],
) -> Result<State, Refusal>
    requires ready { Ready (lent terms.now cells.now chars.now reasons.old keys.now) c }
    requires lhs_strings { all (is_string (read_in terms.now chars.now c)) lhs.now ≡ true }
    requires rhs_strings { all (is_string (read_in terms.now chars.now c)) rhs.now ≡ true }
    requires one_length { length lhs.now ≡ length rhs.now }
    ensures { Does (nf_explain (way tail lhs.now) (way tail rhs.now)) (across terms cells chars (changing reasons) keys) c (added result) }
{
    let mut d = c;
    for i in 0..lhs.len() {
        let a = atom_unchecked(lhs, i, tail);
        let b = atom_unchecked(rhs, i, tail);
        d = explain_pair(terms, cells, chars, reasons, keys, d, a, b, places)?;
    }
    Ok(d)
}

// The reasons of the matches outside `rest`: heads in order, then tails from the ends on.
fn explain_stripped(
    terms: &[u32],
    cells: &[u32],
    chars: &[u32],
    reasons: &mut [u32],
    keys: &[u32],
    c: State,
    lhs: &[u32],
    rhs: &[u32],
    rest: Rest,
    places: &mut [u32],
) -> Result<State, Refusal>
    requires ready { Ready (lent terms.now cells.now chars.now reasons.old keys.now) c }
    requires lhs_strings { all (is_string (read_in terms.now chars.now c)) lhs.now ≡ true }
    requires rhs_strings { all (is_string (read_in terms.now chars.now c)) rhs.now ≡ true }
    requires finds { Finds (read_in terms.now chars.now c) lhs.now rhs.now rest }
    ensures { let s = read_in terms.now chars.now c in Does (explain_matches (matches s lhs.now rhs.now)) (across terms cells chars (changing reasons) keys) c (added result) }
{
    let from = rest.from;
    let l = &lhs[..from];
    let r = &rhs[..from];
    let d = explain_pairs(terms, cells, chars, reasons, keys, c, l, r, false, places)?;
    let l = &lhs[rest.lhs..];
    let r = &rhs[rest.rhs..];
    explain_pairs(terms, cells, chars, reasons, keys, d, l, r, true, places)
}

// Whether a match needs a reason: one number and two constants need none.
fn needs_reason(
    terms: &[u32],
    cells: &[u32],
    chars: &[u32],
    reasons: &[u32],
    keys: &[u32],
    c: State,
    a: u32,
    b: u32,
    places: &mut [u32],
) -> bool
    requires ready { Ready (lent terms.now cells.now chars.now reasons.now keys.now) c }
    requires pair { Pair (read_in terms.now chars.now c) a b }
    requires alike { same (read_in terms.now chars.now c) a b ≡ true }
    ensures { result ≡ needs_reason (store_of (across terms cells chars reasons keys).entry c) (a, b) }
{
    a != b
        && !both_constant(terms, c.terms, a, b)
        && engine::is_reasoned_unchecked(terms, cells, chars, reasons, keys, c, a, b, places)
}

// Whether a pair of two lists that are atom by atom the same needs a reason, asked from their fronts or from their ends on.
fn pairs_need(
    terms: &[u32],
    cells: &[u32],
    chars: &[u32],
    reasons: &[u32],
    keys: &[u32],
    c: State,
    lhs: &[u32],
    rhs: &[u32],
    tail: bool,
    places: &mut [u32],
) -> bool
    requires ready { Ready (lent terms.now cells.now chars.now reasons.now keys.now) c }
    requires lhs_strings { all (is_string (read_in terms.now chars.now c)) lhs.now ≡ true }
    requires rhs_strings { all (is_string (read_in terms.now chars.now c)) rhs.now ≡ true }
    requires equal { nf_equal (read_in terms.now chars.now c) (way tail lhs.now) (way tail rhs.now) ≡ true }
    ensures { let s = read_in terms.now chars.now c in Needs (across terms cells chars reasons keys).entry c (same_heads s (way tail lhs.now) (way tail rhs.now)) result }
{
    for i in 0..lhs.len() {
        let u = atom_unchecked(lhs, i, tail);
        let v = atom_unchecked(rhs, i, tail);
        if needs_reason(terms, cells, chars, reasons, keys, c, u, v, places) {
            return true;
        }
    }
    false
}

// Whether a match outside `rest` needs a reason. Where nothing is left nobody asks.
fn matches_need(
    terms: &[u32],
    cells: &[u32],
    chars: &[u32],
    reasons: &[u32],
    keys: &[u32],
    c: State,
    lhs: &[u32],
    rhs: &[u32],
    rest: Rest,
    places: &mut [u32],
) -> bool
    requires ready { Ready (lent terms.now cells.now chars.now reasons.now keys.now) c }
    requires lhs_strings { all (is_string (read_in terms.now chars.now c)) lhs.now ≡ true }
    requires rhs_strings { all (is_string (read_in terms.now chars.now c)) rhs.now ≡ true }
    requires finds { Finds (read_in terms.now chars.now c) lhs.now rhs.now rest }
    ensures { Asked (across terms cells chars reasons keys).entry c lhs.now rhs.now rest.from rest.lhs rest.rhs result }
{
    let from = rest.from;
    if rest.lhs == from && rest.rhs == from {
        return false;
    }
    let l = &lhs[..from];
    let r = &rhs[..from];
    if pairs_need(terms, cells, chars, reasons, keys, c, l, r, false, places) {
        return true;
    }
    let l = &lhs[rest.lhs..];
    let r = &rhs[rest.rhs..];
    pairs_need(terms, cells, chars, reasons, keys, c, l, r, true, places)
}

// Each match outside `rest` explained, over one table of places for all of them.
fn strip_by(
    terms: &[u32],
    cells: &[u32],
    chars: &[u32],
    reasons: &mut [u32],
    keys: &[u32],
    c: State,
    lhs: &[u32],
    rhs: &[u32],
    rest: Rest,
    places: &mut [u32],
) -> Result<Stripped, Refusal>
    requires ready { Ready (lent terms.now cells.now chars.now reasons.old keys.now) c }
    requires lhs_strings { all (is_string (read_in terms.now chars.now c)) lhs.now ≡ true }
    requires rhs_strings { all (is_string (read_in terms.now chars.now c)) rhs.now ≡ true }
    requires finds { Finds (read_in terms.now chars.now c) lhs.now rhs.now rest }
    ensures { Between Strips (across terms cells chars (changing reasons) keys) c lhs.now rhs.now result }
{
    let needed = matches_need(
        terms, cells, chars, reasons, keys, c, lhs, rhs, rest, places,
    );
    let counts = explain_stripped(
        terms, cells, chars, reasons, keys, c, lhs, rhs, rest, places,
    )?;
    Ok(Stripped {
        counts,
        rest,
        needed,
    })
}

// Step 1 on two lists of string terms: what is left is found, and then each match is explained. To clear the table of places costs more than
// to do without it where a list is short, and matches are no more than its atoms.
pub fn strip_unchecked(
    terms: &[u32],
    cells: &[u32],
    chars: &[u32],
    reasons: &mut [u32],
    keys: &[u32],
    c: State,
    lhs: &[u32],
    rhs: &[u32],
) -> Result<Stripped, Refusal>
    requires ready { Ready (lent terms.now cells.now chars.now reasons.old keys.now) c }
    requires lhs_value { all (is_string (read_in terms.now chars.now c)) lhs.now ≡ true }
    requires rhs_value { all (is_string (read_in terms.now chars.now c)) rhs.now ≡ true }
    ensures { Between Strips (across terms cells chars (changing reasons) keys) c lhs.now rhs.now result }
{
    let rest = find_rest_unchecked(terms, chars, c, lhs, rhs);
    if lhs.len() < 8 {
        let mut none: [u32; 0] = [];
        return strip_by(
            terms, cells, chars, reasons, keys, c, lhs, rhs, rest, &mut none,
        );
    }
    let mut places: [u32; 513] = [0; 513];
    strip_by(
        terms,
        cells,
        chars,
        reasons,
        keys,
        c,
        lhs,
        rhs,
        rest,
        &mut places,
    )
}
