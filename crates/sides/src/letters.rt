// The constants of a side and their characters: counted, walked and compared. Nothing is written.
ghost use Rattle.std.specs.Prelude.{◌≡◌, true, ◌&&◌, ◌∷◌, ◌+◌, ◌<◌, ◌≤◌, length, take};
ghost use Rattle.records.specs.Lists.{same_word};
ghost use Rattle.records.specs.Store.{is_constant, text};
ghost use Rattle.records.specs.View.{char_limit, span, read_in, termed};
ghost use Rattle.records.specs.Rules.{list_limit};
ghost use Rattle.sides.specs.Wordeq.{fixed, letters_of, letters, is_full, unequal, short, is_plain, filled, differ};
ghost use Rattle.sides.specs.Working.Sides.{Texts, Spelled, of_kind, First, which_fixed, picked, rest, next, There, Settled, heads_agree, fill_count, fill_start, fill_source, Tiling};

use crate::stripping;
use records::text::text_is;
use records::{Kind, State, fields, rules};

// Whether an atom's kind is k; where `is` is false, whether it is another.
fn is_kind(terms: &[u32], c: State, a: u32, k: u32, is: bool) -> bool
    ensures { result ≡ of_kind (termed terms.now c) k is a }
{
    (rules::kind_of(terms, c.terms, a) == k) == is
}

// The place of the first atom whose kind is k, or is another; the list's end where there is none.
pub fn first_of_kind_unchecked(terms: &[u32], c: State, l: &[u32], k: u32, is: bool) -> usize
    ensures { First (of_kind (termed terms.now c) k is) l.now result }
{
    l.iter()
        .position(|&a| is_kind(terms, c, a, k, is))
        .unwrap_or(l.len())
}

// Whether all atoms are constants.
pub fn is_fixed(terms: &[u32], c: State, l: &[u32]) -> bool
    ensures { result ≡ fixed (termed terms.now c) l.now }
{
    first_of_kind_unchecked(terms, c, l, u32::from(Kind::Constant), false) == l.len()
}

// Which of two lists is all constants: 1 for the left one, where both are too, 2 for the right one, 0 for none.
pub(crate) fn which_fixed(terms: &[u32], c: State, l: &[u32], r: &[u32]) -> u32
    ensures { result ≡ which_fixed (termed terms.now c) l.now r.now }
{
    if is_fixed(terms, c, l) {
        1
    } else if is_fixed(terms, c, r) {
        2
    } else {
        0
    }
}

// One of two lists as it was lent: the first for 1, the second for 2, an empty part for any other number.
pub(crate) fn pick<'a>(which: u32, l: &'a [u32], r: &'a [u32]) -> &'a [u32]
    ensures { result.now ≡ picked which l.now r.now }
{
    match which {
        1 => l,
        2 => r,
        _ => &l[..0],
    }
}

// The characters that fill the place of an atom, counted: a constant's own, or m for a variable.
fn fill_count(terms: &[u32], c: State, a: u32, m: usize) -> usize
    requires { Texts terms.now c }
    ensures { result ≡ fill_count (termed terms.now c) a m }
{
    if rules::is_a(terms, c.terms, a, Kind::Constant) {
        fields::wide(fields::second(terms, a))
    } else {
        m
    }
}

// The characters of an atom that is a constant, counted.
fn letter_count(terms: &[u32], c: State, a: u32) -> usize
    requires { Texts terms.now c }
    ensures { result ≡ length (letters_of (termed terms.now c) a) }
{
    fill_count(terms, c, a, 0)
}

// A constant with at least one character.
pub fn is_full_unchecked(terms: &[u32], c: State, a: u32) -> bool
    requires { Texts terms.now c }
    ensures { result ≡ is_full (termed terms.now c) a }
{
    fill_count(terms, c, a, 0) > 0
}

// The constant characters of a side, counted.
pub fn letters_length_unchecked(terms: &[u32], c: State, l: &[u32]) -> usize
    requires { Texts terms.now c × (length l.now ≤ list_limit) }
    ensures { result ≡ length (letters (termed terms.now c) l.now) }
{
    let mut total: usize = 0;
    for &a in l {
        total += letter_count(terms, c, a);
    }
    total
}

// A constant side shorter than the other's constant characters.
pub(crate) fn short(terms: &[u32], c: State, l: &[u32], r: &[u32]) -> bool
    requires { Texts terms.now c × (length l.now ≤ list_limit) × (length r.now ≤ list_limit) }
    ensures { result ≡ short (termed terms.now c) l.now r.now }
{
    is_fixed(terms, c, l)
        && letters_length_unchecked(terms, c, l) < letters_length_unchecked(terms, c, r)
}

// A PLACE IN THE CONSTANT CHARACTERS OF A SIDE

// A character of an atom; past the atom's end, one of the atoms after it.
#[derive(Clone, Copy)]
pub struct Cursor {
    pub atom: usize,
    pub place: usize,
}

// The cursor at the atom that has its character.
fn settle(terms: &[u32], c: State, l: &[u32], k: Cursor) -> Cursor
    requires { Texts terms.now c }
    ensures { Settled terms.now c l.now k result }
{
    let mut j = k.place;
    for i in k.atom..l.len() {
        let n = letter_count(terms, c, l[i]);
        if j < n {
            return Cursor { atom: i, place: j };
        }
        j -= n;
    }
    Cursor {
        atom: l.len(),
        place: j,
    }
}

fn letter(terms: &[u32], chars: &[u32], c: State, l: &[u32], k: Cursor) -> u32
    requires { Spelled terms.now chars.now c × There terms.now c l.now k × (k.atom < length l.now) }
    ensures { let s = read_in terms.now chars.now c in rest s l.now k.atom k.place ≡ result ∷ rest s l.now k.atom (k.place + 1) }
{
    let i = k.atom;
    let p = fields::wide(fields::first(terms, l[i]));
    fields::word(chars, p + k.place)
}

// Whether two sides go on with one character.
fn same_letter(
    terms: &[u32],
    chars: &[u32],
    c: State,
    l: &[u32],
    k: Cursor,
    r: &[u32],
    x: Cursor,
) -> bool
    requires { Spelled terms.now chars.now c × There terms.now c l.now k × There terms.now c r.now x }
    ensures { let s = read_in terms.now chars.now c in result ≡ heads_agree (rest s l.now k.atom k.place) (rest s r.now x.atom x.place) }
{
    k.atom < l.len()
        && x.atom < r.len()
        && letter(terms, chars, c, l, k) == letter(terms, chars, c, r, x)
}

// TWO TEXTS

fn spans_differ(chars: &[u32], p: usize, n: usize, q: usize, m: usize) -> bool
    requires one_inside { p + n ≤ length chars.now }
    requires other_inside { q + m ≤ length chars.now }
    ensures { result ≡ differ (span chars.now p n) (span chars.now q m) }
{
    for j in 0..n.min(m) {
        if chars[p + j] != chars[q + j] {
            return true;
        }
    }
    false
}

// Two constants that differ at a character.
pub fn constants_differ_unchecked(terms: &[u32], chars: &[u32], c: State, a: u32, b: u32) -> bool
    requires { Spelled terms.now chars.now c }
    ensures { let s = read_in terms.now chars.now c in result ≡ (is_constant s a && is_constant s b && differ (text s a) (text s b)) }
{
    if !stripping::both_constant(terms, c.terms, a, b) {
        return false;
    }
    let p = fields::wide(fields::first(terms, a));
    let n = fields::wide(fields::second(terms, a));
    let q = fields::wide(fields::first(terms, b));
    let m = fields::wide(fields::second(terms, b));
    spans_differ(chars, p, n, q, m)
}

// A variable whose name does not begin with `!strk`.
pub fn is_plain_unchecked(terms: &[u32], chars: &[u32], c: State, v: u32) -> bool
    requires { Spelled terms.now chars.now c }
    ensures { result ≡ is_plain (read_in terms.now chars.now c) v }
{
    let strk: [u32; 5] = [33, 115, 116, 114, 107];
    rules::is_a(terms, c.terms, v, Kind::Variable)
        && (fields::second(terms, v) < 5 || !text_is(chars, fields::first(terms, v), &strk))
}

// THE SIDE OVER THE WORD

fn onward(k: Cursor) -> Cursor
    requires { k.place ≤ char_limit }
    ensures { result ≡ next k }
{
    Cursor {
        place: k.place + 1,
        ..k
    }
}

// Where what fills the place of an atom begins: at the atom itself, or at v.
fn fill_start(terms: &[u32], c: State, a: u32, i: usize, v: Cursor) -> Cursor
    ensures { result ≡ fill_start (termed terms.now c) a i v }
{
    if rules::is_a(terms, c.terms, a, Kind::Constant) {
        Cursor { atom: i, place: 0 }
    } else {
        v
    }
}

// The list that it is read from: the side itself, or the word.
fn fill_source<'a>(terms: &[u32], c: State, a: u32, side: &'a [u32], word: &'a [u32]) -> &'a [u32]
    ensures { result.now ≡ fill_source (termed terms.now c) a side.now word.now }
{
    if rules::is_a(terms, c.terms, a, Kind::Constant) {
        side
    } else {
        word
    }
}

// Whether the side, with m characters of the word from v on for each variable, is the word. The walk ends at the first wrong character.
pub(crate) fn is_tiled<'a>(
    terms: &[u32],
    chars: &[u32],
    c: State,
    word: &'a [u32],
    side: &'a [u32],
    v: Cursor,
    m: usize,
) -> bool
    requires { Tiling terms.now chars.now c word.now v m }
    ensures { let s = read_in terms.now chars.now c in result ≡ same_word (filled s (take m (rest s word.now v.atom v.place)) side.now) (letters s word.now) }
{
    let mut k = Cursor { atom: 0, place: 0 };
    for (i, &a) in side.iter().enumerate() {
        let n = fill_count(terms, c, a, m);
        let mut x = fill_start(terms, c, a, i, v);
        let source = fill_source(terms, c, a, side, word);
        for _ in 0..n {
            k = settle(terms, c, word, k);
            x = settle(terms, c, source, x);
            if !same_letter(terms, chars, c, word, k, source, x) {
                return false;
            }
            k = onward(k);
            x = onward(x);
        }
    }
    word.len() <= settle(terms, c, word, k).atom
}

// Both constant with different words.
pub(crate) fn unequal<'a>(
    terms: &[u32],
    chars: &[u32],
    c: State,
    l: &'a [u32],
    r: &'a [u32],
) -> bool
    requires { Spelled terms.now chars.now c }
    ensures { result ≡ unequal (read_in terms.now chars.now c) l.now r.now }
{
    is_fixed(terms, c, l)
        && is_fixed(terms, c, r)
        && !is_tiled(terms, chars, c, l, r, Cursor { atom: 0, place: 0 }, 0)
}
