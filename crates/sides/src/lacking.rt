// Step 3: the constant characters of two sides against each other. A side has up to 1,024 times 16,384 of them, but constants share the
// store's 16,384, so a table says which places there are used: an atom enters each of its places once, and the character of a place is
// looked for once.
ghost use Rattle.std.specs.Prelude.{◌≡◌, ◌+◌, ◌<◌, ◌≤◌, length, get_or};
ghost use Rattle.records.specs.View.{char_limit, span, read_in};
ghost use Rattle.records.specs.Rules.{list_limit};
ghost use Rattle.sides.specs.Wordeq.{letters_of, letters, absent};
ghost use Rattle.sides.specs.Working.Sides.{Texts, Spelled};
ghost use Rattle.sides.specs.Working.Lacking.{used_at, seen, used, Uses, Lacking, conflicts};

use crate::letters;
use records::{Kind, State, fields, rules};

fn used_at(chars: &[u32], table: &[u8; 16384], x: u32, i: usize) -> bool
    requires { (i < length chars.now) × (i < char_limit) }
    ensures { result ≡ used_at chars.now table.now x i }
{
    table[i] != 0 && x == chars[i]
}

// Whether one of the first n places is used and has the character x.
fn is_seen(chars: &[u32], table: &[u8; 16384], n: usize, x: u32) -> bool
    requires { (n ≤ length chars.now) × (n ≤ char_limit) }
    ensures { result ≡ seen chars.now table.now n x }
{
    for i in 0..n {
        if used_at(chars, table, x, i) {
            return true;
        }
    }
    false
}

// The same for the character at a place, which may itself be used.
fn is_known(chars: &[u32], table: &[u8; 16384], n: usize, i: usize) -> bool
    requires { (n ≤ length chars.now) × (n ≤ char_limit) × (i < n) }
    ensures { result ≡ seen chars.now table.now n (get_or chars.now i 0) }
{
    table[i] != 0 || is_seen(chars, table, n, chars[i])
}

// THE PLACES THAT A SIDE USES

fn use_text(table: &mut [u8; 16384], p: usize, n: usize)
    requires { p + n ≤ char_limit }
    ensures { table.new ≡ used table.old p n }
{
    table[p..p + n].fill(1);
}

fn use_atom(terms: &[u32], c: State, a: u32, table: &mut [u8; 16384])
    requires { Texts terms.now c × (length table.old ≡ char_limit) }
    ensures { Uses c.chars (λ h. letters_of (read_in terms.now h c) a) table.old table.new }
{
    if rules::is_a(terms, c.terms, a, Kind::Constant) {
        let p = fields::wide(fields::first(terms, a));
        let n = fields::wide(fields::second(terms, a));
        use_text(table, p, n);
    }
}

fn use_side(terms: &[u32], c: State, l: &[u32], table: &mut [u8; 16384])
    requires { Texts terms.now c × (length table.old ≡ char_limit) }
    ensures { Uses c.chars (λ h. letters (read_in terms.now h c) l.now) table.old table.new }
{
    for &a in l {
        use_atom(terms, c, a, table);
    }
}

// A CHARACTER THAT THE SIDE DOES NOT USE

// A place whose character is used elsewhere is entered too, so that it is looked for once.
fn lacks_text(chars: &[u32], table: &mut [u8; 16384], n: usize, p: usize, k: usize) -> bool
    requires { (n ≤ length chars.now) × (n ≤ char_limit) × (p + k ≤ n) × (length table.old ≡ char_limit) }
    ensures { Lacking chars.now n (span chars.now p k) table.old table.new result }
{
    for j in 0..k {
        if !is_known(chars, table, n, p + j) {
            return true;
        }
        table[p + j] = 1;
    }
    false
}

fn lacks_atom(terms: &[u32], chars: &[u32], c: State, a: u32, table: &mut [u8; 16384]) -> bool
    requires { Spelled terms.now chars.now c × (length table.old ≡ char_limit) }
    ensures { let s = read_in terms.now chars.now c in Lacking chars.now c.chars (letters_of s a) table.old table.new result }
{
    if !rules::is_a(terms, c.terms, a, Kind::Constant) {
        return false;
    }
    let p = fields::wide(fields::first(terms, a));
    let k = fields::wide(fields::second(terms, a));
    lacks_text(chars, table, c.chars, p, k)
}

fn lacks_side(terms: &[u32], chars: &[u32], c: State, l: &[u32], table: &mut [u8; 16384]) -> bool
    requires { Spelled terms.now chars.now c × (length table.old ≡ char_limit) }
    ensures { let s = read_in terms.now chars.now c in Lacking chars.now c.chars (letters s l.now) table.old table.new result }
{
    for &a in l {
        if lacks_atom(terms, chars, c, a, table) {
            return true;
        }
    }
    false
}

// A constant character of r that is absent from the constant side l.
pub(crate) fn absent(terms: &[u32], chars: &[u32], c: State, l: &[u32], r: &[u32]) -> bool
    requires { Spelled terms.now chars.now c × (length r.now ≤ list_limit) }
    ensures { result ≡ absent (read_in terms.now chars.now c) l.now r.now }
{
    if !letters::is_fixed(terms, c, l) {
        return false;
    }
    // A table is costly to clear, so none is made where r has no character to look for.
    if letters::letters_length_unchecked(terms, c, r) == 0 {
        return false;
    }
    let mut table: [u8; 16384] = [0; 16384];
    use_side(terms, c, l, &mut table);
    lacks_side(terms, chars, c, r, &mut table)
}

// Step 3.
pub fn constants_unchecked<'a>(
    terms: &[u32],
    chars: &[u32],
    c: State,
    l: &'a [u32],
    r: &'a [u32],
) -> bool
    requires { Spelled terms.now chars.now c × (length l.now ≤ list_limit) × (length r.now ≤ list_limit) }
    ensures { result ≡ conflicts (read_in terms.now chars.now c) l.now r.now }
{
    letters::unequal(terms, chars, c, l, r)
        || letters::short(terms, c, l, r)
        || letters::short(terms, c, r, l)
        || absent(terms, chars, c, l, r)
        || absent(terms, chars, c, r, l)
}
