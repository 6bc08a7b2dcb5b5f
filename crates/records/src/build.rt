// Making concatenations, lengths and equations: the lowest-numbered equal record, else one appended.
ghost use Rattle.std.specs.Prelude.{true, ◌≡◌, ◌⊎◌, suc};
ghost use Rattle.records.specs.Lists.{same_word, firsts, first_below};
ghost use Rattle.records.specs.Store.{chain_in};
ghost use Rattle.records.specs.View.{cells_view, store_of, across, changing, lent};
ghost use Rattle.records.specs.Index.{bucket_of};
ghost use Rattle.records.specs.Kind.{kind_number};
ghost use Rattle.records.specs.Make.{number_of, make_concat, make_length, make_equation, concat_arguments, length_arguments, equation_arguments};
ghost use Rattle.records.specs.Working.Indexing.{Searchable};
ghost use Rattle.records.specs.Working.Leaves.{append_parts, has_parts, has_sides, make_sides};
ghost use Rattle.records.specs.Working.Audited.{Ready, Ascends};
ghost use Rattle.records.specs.Calls.{made, Answers};
ghost use Rattle.records.specs.Working.Doing.{Does, Builds};

use crate::fields::{first, is_a, next, second, value};
use crate::index::{bucket_of, bucket_of_sides, cut_refused_unchecked};
use crate::make::first_in;
use crate::put::{cells_fit, put_chain_unchecked, put_term_unchecked, term_fits};
use crate::rules::{is_equatable, is_list, is_string, is_within};
use crate::{Kind, Refusal, State};

// Whether the values of the chain from cell c on are l: a chain that goes on past l's end has more of them.
fn chain_is(cells: &[u32], n: usize, c: u32, l: &[u32]) -> bool
    requires { Ascends (cells_view cells.now n) }
    ensures { result ≡ same_word (firsts (chain_in (cells_view cells.now n) c)) l.now }
{
    let mut at = c;
    for &x in l {
        if !is_within(n, at) || value(cells, at) != x {
            return false;
        }
        at = next(cells, at);
    }
    !is_within(n, at)
}

// Whether term t is a concatenation of l.
fn has_parts(terms: &[u32], cells: &[u32], n: usize, t: u32, l: &[u32]) -> bool
    requires { Ascends (cells_view cells.now n) }
    ensures { result ≡ has_parts terms.now (cells_view cells.now n) l.now t }
{
    is_a(terms, t, Kind::Concatenation) && chain_is(cells, n, first(terms, t), l)
}

// The lowest-numbered of n terms that is a concatenation of l, of k cells; 0 where there is none.
fn find_parts(terms: &[u32], cells: &[u32], n: usize, k: usize, l: &[u32]) -> u32
    requires ascends { Ascends (cells_view cells.now k) }
    requires searchable { Searchable terms.now n (bucket_of 3 l.now) (has_parts terms.now (cells_view cells.now k) l.now) }
    ensures { result ≡ number_of (first_below (λ i. has_parts terms.now (cells_view cells.now k) l.now (suc i)) n) }
{
    let b = bucket_of(Kind::Concatenation.into(), l);
    first_in(terms, n, b, |t| has_parts(terms, cells, k, t, l))
}

// A new concatenation of l. Both rooms are tested before a word is written.
fn append_parts(
    terms: &mut [u32],
    cells: &mut [u32],
    chars: &[u32],
    reasons: &[u32],
    keys: &[u32],
    c: State,
    l: &[u32],
) -> Result<(u32, State), Refusal>
    requires { Ready (lent terms.old cells.old chars.now reasons.now keys.now) c }
    ensures { Builds (append_parts l.now) (across (changing terms) (changing cells) chars reasons keys) c (made result) }
{
    let n = c.terms;
    let k = c.cells;
    if !cells_fit(cells, k, l.len()) {
        return Err(Refusal::Room);
    }
    if !term_fits(terms, n) {
        return Err(Refusal::Room);
    }
    put_chain_unchecked(cells, k, l);
    put_term_unchecked(
        terms,
        n,
        Kind::Concatenation.into(),
        (k + 1) as u32,
        0,
        bucket_of(Kind::Concatenation.into(), l),
    );
    Ok(((n + 1) as u32, c.with_cells(l.len()).with_term()))
}

pub fn make_concatenation_unchecked(
    terms: &mut [u32],
    cells: &mut [u32],
    chars: &[u32],
    reasons: &[u32],
    keys: &[u32],
    c: State,
    l: &[u32],
) -> Result<(u32, State), Refusal>
    requires ready { Ready (lent terms.old cells.old chars.now reasons.now keys.now) c }
    requires c_value { concat_arguments l.now (store_of (lent terms.old cells.old chars.now reasons.now keys.now) c) ≡ true }
    ensures { Does (make_concat l.now) (across (changing terms) (changing cells) chars reasons keys) c (made result) }
{
    let t = find_parts(terms, cells, c.terms, c.cells, l);
    if t != 0 {
        return Ok((t, c));
    }
    append_parts(terms, cells, chars, reasons, keys, c, l)
}

// Whether term t is of kind k and has these two words.
fn has_sides(terms: &[u32], t: u32, k: Kind, a: u32, b: u32) -> bool
    ensures { result ≡ has_sides terms.now (kind_number k) a b t }
{
    is_a(terms, t, k) && first(terms, t) == a && second(terms, t) == b
}

// The lowest-numbered of n terms that is of kind k and has these two words, which lies in bucket at; 0 where there is none.
fn find_sides(terms: &[u32], n: usize, at: usize, k: Kind, a: u32, b: u32) -> u32
    requires { Searchable terms.now n at (has_sides terms.now (kind_number k) a b) }
    ensures { result ≡ number_of (first_below (λ i. has_sides terms.now (kind_number k) a b (suc i)) n) }
{
    first_in(terms, n, at, |t| has_sides(terms, t, k, a, b))
}

// The length (kind 4) of a, its second word 0, or the equation (kind 5) of a and b.
fn make_sides(
    terms: &mut [u32],
    cells: &[u32],
    chars: &[u32],
    reasons: &[u32],
    keys: &[u32],
    c: State,
    k: Kind,
    a: u32,
    b: u32,
) -> Result<(u32, State), Refusal>
    requires fact_1 { Ready (lent terms.old cells.now chars.now reasons.now keys.now) c }
    requires fact_2 { ((k ≡ Kind.Length) × (b ≡ 0)) ⊎ (k ≡ Kind.Equation) }
    ensures { Builds (make_sides (kind_number k) a b) (across (changing terms) cells chars reasons keys) c (made result) }
{
    let at = bucket_of_sides(k.into(), a, b);
    let t = find_sides(terms, c.terms, at, k, a, b);
    if t != 0 {
        return Ok((t, c));
    }
    let n = c.terms;
    if term_fits(terms, n) {
        put_term_unchecked(terms, n, k.into(), a, b, at);
        return Ok(((n + 1) as u32, c.with_term()));
    }
    Err(Refusal::Room)
}

pub fn make_length_unchecked(
    terms: &mut [u32],
    cells: &[u32],
    chars: &[u32],
    reasons: &[u32],
    keys: &[u32],
    c: State,
    t: u32,
) -> Result<(u32, State), Refusal>
    requires ready { Ready (lent terms.old cells.now chars.now reasons.now keys.now) c }
    requires c_value { length_arguments t (store_of (lent terms.old cells.now chars.now reasons.now keys.now) c) ≡ true }
    ensures { Does (make_length t) (across (changing terms) cells chars reasons keys) c (made result) }
{
    make_sides(terms, cells, chars, reasons, keys, c, Kind::Length, t, 0)
}

pub fn make_equation_unchecked(
    terms: &mut [u32],
    cells: &[u32],
    chars: &[u32],
    reasons: &[u32],
    keys: &[u32],
    c: State,
    a: u32,
    b: u32,
) -> Result<(u32, State), Refusal>
    requires ready { Ready (lent terms.old cells.now chars.now reasons.now keys.now) c }
    requires c_value { equation_arguments a b (store_of (lent terms.old cells.now chars.now reasons.now keys.now) c) ≡ true }
    ensures { Does (make_equation a b) (across (changing terms) cells chars reasons keys) c (made result) }
{
    make_sides(terms, cells, chars, reasons, keys, c, Kind::Equation, a, b)
}

// The public calls: the audit, the arguments, then the work.

pub fn make_concatenation(
    terms: &mut [u32],
    cells: &mut [u32],
    chars: &[u32],
    reasons: &[u32],
    keys: &[u32],
    c: State,
    l: &[u32],
) -> Result<(u32, State), Refusal>
    ensures { Answers (concat_arguments l.now) (make_concat l.now) (across (changing terms) (changing cells) chars reasons keys) c (made result) }
{
    crate::audit(terms, cells, chars, reasons, keys, c)?;
    if l.len() < 2 {
        return Err(Refusal::Argument);
    }
    if is_list(terms, c, l) {
        let r = make_concatenation_unchecked(terms, cells, chars, reasons, keys, c, l);
        return cut_refused_unchecked(terms, c.terms, r);
    }
    Err(Refusal::Argument)
}

pub fn make_length(
    terms: &mut [u32],
    cells: &[u32],
    chars: &[u32],
    reasons: &[u32],
    keys: &[u32],
    c: State,
    t: u32,
) -> Result<(u32, State), Refusal>
    ensures { Answers (length_arguments t) (make_length t) (across (changing terms) cells chars reasons keys) c (made result) }
{
    crate::audit(terms, cells, chars, reasons, keys, c)?;
    if is_string(terms, c.terms, t) {
        let r = make_length_unchecked(terms, cells, chars, reasons, keys, c, t);
        return cut_refused_unchecked(terms, c.terms, r);
    }
    Err(Refusal::Argument)
}

pub fn make_equation(
    terms: &mut [u32],
    cells: &[u32],
    chars: &[u32],
    reasons: &[u32],
    keys: &[u32],
    c: State,
    a: u32,
    b: u32,
) -> Result<(u32, State), Refusal>
    ensures { Answers (equation_arguments a b) (make_equation a b) (across (changing terms) cells chars reasons keys) c (made result) }
{
    crate::audit(terms, cells, chars, reasons, keys, c)?;
    if is_equatable(terms, c, a, b) {
        let r = make_equation_unchecked(terms, cells, chars, reasons, keys, c, a, b);
        return cut_refused_unchecked(terms, c.terms, r);
    }
    Err(Refusal::Argument)
}
