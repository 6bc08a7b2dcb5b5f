// Document 02, Note 9: an index over the store. Words 0 to 63 of the terms' slice are the heads of 64 buckets, and the ninth word of a term is the next
// term of its bucket; 0 ends a chain. A chain ascends, so the lowest equal term is met first, and a new term goes to its end.
ghost use Rattle.std.specs.Prelude.{true, ◌≡◌, [], ◌∷◌, ◌+◌, ◌%◌, ◌<◌, ◌≤◌, eqb, length, get_or, set};
ghost use Rattle.records.specs.Lists.{all_below, concat_map, firsts};
ghost use Rattle.records.specs.Store.{within, chain_in};
ghost use Rattle.records.specs.View.{buckets, head_at, next_at, text_at, span, term_words, term_limit, cells_view, records_in};
ghost use Rattle.records.specs.Index.{bucket_of, bucket, index_rule};
ghost use Rattle.records.specs.Chained.{Says, Finds};
ghost use Rattle.records.specs.Working.Audited.{Ascends};
ghost use Rattle.records.specs.Working.Doing.{CutRefused};
ghost use Rattle.records.specs.Working.Puts.{TextsWithin};
ghost use Rattle.records.specs.Working.Indexing.{Walkable, Bucketed, Reached, Tied, cut_at, Cut, word_after, NoneMet, LinksRead};

use crate::rules::is_within;
use crate::{BUCKETS, Kind, Refusal, State, TERM_WIDTH, fields};

// The index that the records determine is the one of which the Note's sentences hold, and the one that passes the test.
pub fn index_says()
    ensures { Says }
{}

// The first equal term of one chain is the lowest equal term of all.
pub fn lookup_finds()
    ensures { Finds }
{}

// THE WORDS OF THE INDEX

pub fn head(terms: &[u32], b: usize) -> u32
    ensures { result ≡ head_at terms.now b }
{
    fields::word(terms, b)
}

pub fn next_term(terms: &[u32], t: u32) -> u32
    ensures { result ≡ next_at terms.now t }
{
    fields::word(terms, BUCKETS + TERM_WIDTH * (t as usize) + 8)
}

// BUCKETS: remainders by 64 as one adds, so that no sum is lost.

// One number more.
fn added(b: usize, x: u32) -> usize
    requires { b < buckets }
    ensures { result ≡ (b + x) % buckets }
{
    (b + fields::wide(x)) % BUCKETS
}

// A kind, and all numbers of a list.
pub(crate) fn bucket_of(k: u32, l: &[u32]) -> usize
    ensures { result ≡ bucket_of k l.now }
{
    let mut b = fields::wide(k) % BUCKETS;
    for &x in l {
        b = added(b, x);
    }
    b
}

// A length or an equation, by its two words; a length's second word is 0.
pub(crate) fn bucket_of_sides(k: u32, x: u32, y: u32) -> usize
    ensures { result ≡ bucket_of k (x ∷ y ∷ []) }
{
    added(added(fields::wide(k) % BUCKETS, x), y)
}

// A constant (kind 1) or variable (kind 2) of n characters from place p on.
fn bucket_of_text(chars: &[u32], k: u32, p: usize, n: usize) -> usize
    requires { p + n ≤ length chars.now }
    ensures { result ≡ bucket_of k (span chars.now p n) }
{
    bucket_of(k, &chars[p..p + n])
}

// The constant of the joined texts of a list of terms.
pub(crate) fn bucket_of_joined(terms: &[u32], chars: &[u32], list: &[u32]) -> usize
    requires { TextsWithin terms.now (length chars.now) list.now }
    ensures { result ≡ bucket_of 1 (concat_map (text_at terms.now chars.now) list.now) }
{
    let mut b: usize = 1;
    for &t in list {
        let p = fields::wide(fields::first(terms, t));
        let n = fields::wide(fields::second(terms, t));
        b = (b + bucket_of_text(chars, 0, p, n)) % BUCKETS;
    }
    b
}

// A concatenation whose parts are the chain from cell f on, of n cells.
fn bucket_of_chain(cells: &[u32], n: usize, f: u32) -> usize
    requires { Ascends (cells_view cells.now n) }
    ensures { result ≡ bucket_of 3 (firsts (chain_in (cells_view cells.now n) f)) }
{
    let mut b: usize = 3;
    let mut at = f;
    while is_within(n, at) {
        b = added(b, fields::value(cells, at));
        at = fields::next(cells, at);
    }
    b
}

// A term of the store.
fn bucket_of_term(terms: &[u32], cells: &[u32], chars: &[u32], c: State, t: u32) -> usize
    requires here { within c.terms t ≡ true }
    requires chars { c.chars ≤ length chars.now }
    requires bucketed { Bucketed (records_in terms.now cells.now chars.now c) }
    ensures { result ≡ bucket (records_in terms.now cells.now chars.now c) t }
{
    let k = fields::kind(terms, t);
    let x = fields::first(terms, t);
    let y = fields::second(terms, t);
    match Kind::try_from(k) {
        Ok(Kind::Constant) => bucket_of_text(chars, k, fields::wide(x), fields::wide(y)),
        Ok(Kind::Variable) => bucket_of_text(chars, k, fields::wide(x), fields::wide(y)),
        Ok(Kind::Concatenation) => bucket_of_chain(cells, c.cells, x),
        Ok(Kind::Length) => bucket_of_sides(k, x, 0),
        Ok(Kind::Equation) => bucket_of_sides(k, x, y),
        Err(_) => bucket_of_sides(k, x, y),
    }
}

// A NEW TERM

// The place of the word that ends the chain of bucket b: its head's, or the ninth word of its last term.
fn end_of(terms: &[u32], n: usize, b: usize) -> usize
    requires limited { n ≤ term_limit }
    requires bucket { b < buckets }
    requires walkable { Walkable terms.now n b }
    ensures { Reached terms.now n b result }
{
    let mut place = b;
    let mut t = head(terms, b);
    while t != 0 {
        place = BUCKETS + TERM_WIDTH * (t as usize) + 8;
        t = next_term(terms, t);
    }
    place
}

// Term n + 1 at the end of the chain of bucket b.
pub(crate) fn link(terms: &mut [u32], n: usize, b: usize)
    requires limited { n < term_limit }
    requires room { term_words (n + 1) ≤ length terms.old }
    requires bucket { b < buckets }
    requires walkable { Walkable terms.old n b }
    ensures { Tied terms.old terms.new n b }
{
    let place = end_of(terms, n, b);
    terms[place] = (n + 1) as u32;
}

// A REFUSED CALL

// A word that names a term above n becomes 0.
fn cut_word(terms: &mut [u32], i: usize, n: usize)
    requires { i < length terms.old }
    ensures { terms.new ≡ set terms.old i (cut_at n (get_or terms.old i 0)) }
{
    if n < fields::wide(terms[i]) {
        terms[i] = 0;
    }
}

// Heads and ninth words of n terms that name a later one become 0: those of terms which a refused call made.
pub fn cut_unchecked(terms: &mut [u32], n: usize)
    requires fact_1 { n ≤ term_limit }
    requires fact_2 { term_words n ≤ length terms.old }
    ensures { Cut terms.old terms.new n }
{
    for b in 0..BUCKETS {
        cut_word(terms, b, n);
    }
    for t in 1..=n {
        cut_word(terms, BUCKETS + TERM_WIDTH * t + 8, n);
    }
}

// After a refusal the index names no term that was made on the way.
pub fn cut_refused_unchecked<T>(
    terms: &mut [u32],
    n: usize,
    r: Result<T, Refusal>,
) -> Result<T, Refusal>
    requires n_le_term_limit { n ≤ term_limit }
    requires terms_in_bounds { term_words n ≤ length terms.old }
    ensures { CutRefused terms.old terms.new n r result }
{
    if r.is_err() {
        cut_unchecked(terms, n);
    }
    r
}

// THE AUDIT: the word that a bucket has come to must hold the next term of it.

// The word after t in the chain of bucket b; that after none is its head.
fn word_after(terms: &[u32], b: usize, t: u32) -> u32
    ensures { result ≡ word_after terms.now b t }
{
    if t == 0 {
        head(terms, b)
    } else {
        next_term(terms, t)
    }
}

// Each term stands where its bucket has come to. `ends` has the last term of each bucket that was met, 0 where none was.
fn terms_linked(terms: &[u32], cells: &[u32], chars: &[u32], c: State, ends: &mut [u32; 64]) -> bool
    requires limited { c.terms ≤ term_limit }
    requires chars { c.chars ≤ length chars.now }
    requires bucketed { Bucketed (records_in terms.now cells.now chars.now c) }
    requires none_met { NoneMet ends.old }
    ensures { LinksRead terms.now (bucket (records_in terms.now cells.now chars.now c)) c.terms ends.new result }
{
    for t in 1..=c.terms as u32 {
        let b = bucket_of_term(terms, cells, chars, c, t);
        if word_after(terms, b, ends[b]) != t {
            return false;
        }
        ends[b] = t;
    }
    true
}

// Each chain ends there.
fn chains_end(terms: &[u32], ends: &[u32; 64]) -> bool
    ensures { result ≡ all_below (λ b. eqb (word_after terms.now b (get_or ends.now b 0)) 0) buckets }
{
    for b in 0..BUCKETS {
        if word_after(terms, b, ends[b]) != 0 {
            return false;
        }
    }
    true
}

// Heads and ninth words are those of the records (refusal 12).
pub(crate) fn index_ok(terms: &[u32], cells: &[u32], chars: &[u32], c: State) -> bool
    requires limited { c.terms ≤ term_limit }
    requires chars { c.chars ≤ length chars.now }
    requires bucketed { Bucketed (records_in terms.now cells.now chars.now c) }
    ensures { result ≡ index_rule terms.now (records_in terms.now cells.now chars.now c) }
{
    let mut ends: [u32; 64] = [0; 64];
    terms_linked(terms, cells, chars, c, &mut ends) && chains_end(terms, &ends)
}
