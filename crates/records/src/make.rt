// Making terms: the lowest-numbered equal record, else one appended.
ghost use Rattle.std.specs.Prelude.{ℕ, Bool, true, ◌≡◌, suc, ◌+◌, ◌≤◌, leb, length};
ghost use Rattle.std.proofs.Math.Option.{none};
ghost use Rattle.records.specs.Lists.{all, concat_map, first_below};
ghost use Rattle.records.specs.Store.{within, is_constant, text};
ghost use Rattle.records.specs.View.{char_limit, char_room, store_of, text_at, lengths, across, changing, lent};
ghost use Rattle.records.specs.Index.{bucket_of};
ghost use Rattle.records.specs.Kind.{kind_number};
ghost use Rattle.records.specs.Rules.{list_limit, named};
ghost use Rattle.records.specs.Make.{number_of, lookup, make_constant, make_variable, constant_arguments, variable_arguments};
ghost use Rattle.records.specs.Working.Indexing.{Walkable, Searchable, Tests, FirstIn};
ghost use Rattle.records.specs.Working.Leaves.{has_text, append_text, make_text};
ghost use Rattle.records.specs.Working.Puts.{TextsWithin};
ghost use Rattle.records.specs.Working.Audited.{Ready};
ghost use Rattle.records.specs.Calls.{made, Answers};
ghost use Rattle.records.specs.Working.Doing.{Does, Builds};

use crate::fields::{first, is_a, second};
use crate::index::{bucket_of, bucket_of_joined, cut_refused_unchecked, head, next_term};
use crate::put::{put_term_unchecked, term_fits};
use crate::rules::chars_ok;
use crate::text::{
    joined_is_unchecked, joined_length_unchecked, put_joined_unchecked, put_text_unchecked, text_is,
};
use crate::{Kind, Refusal, State};

// The first term of the chain of bucket b, of n terms, that passes: the lowest-numbered that lies there. 0 where none passes.
pub(crate) fn first_in<F: Fn(u32) -> bool>(terms: &[u32], n: usize, b: usize, passes: F) -> u32
    requires callable { F.IsAlwaysCallable passes }
    requires walkable { Walkable terms.now n b }
    ensures { (p : ℕ → Bool) → Tests (F.post passes) p → FirstIn terms.now b p result }
{
    let mut t = head(terms, b);
    while t != 0 {
        if passes(t) {
            return t;
        }
        t = next_term(terms, t);
    }
    0
}

// Whether term t is of kind k and its text is w. Only texts of one length are compared.
pub(crate) fn has_text(terms: &[u32], chars: &[u32], t: u32, k: Kind, w: &[u32]) -> bool
    ensures { result ≡ has_text terms.now chars.now (kind_number k) w.now t }
{
    is_a(terms, t, k) && second(terms, t) as usize == w.len() && text_is(chars, first(terms, t), w)
}

// The lowest-numbered of n terms that is of kind k and whose text is w; 0 where there is none.
pub(crate) fn find_text_unchecked(terms: &[u32], chars: &[u32], n: usize, k: Kind, w: &[u32]) -> u32
    requires { Searchable terms.now n (bucket_of (kind_number k) w.now) (has_text terms.now chars.now (kind_number k) w.now) }
    ensures { result ≡ number_of (first_below (λ i. has_text terms.now chars.now (kind_number k) w.now (suc i)) n) }
{
    let b = bucket_of(k.into(), w);
    first_in(terms, n, b, |t| has_text(terms, chars, t, k, w))
}

// k characters more fit.
fn text_fits(chars: &[u32], n: usize, k: usize) -> bool
    requires { n ≤ char_limit }
    ensures { result ≡ leb (n + k) (char_room chars.now) }
{
    if crate::CHAR_LIMIT - n < k {
        return false;
    }
    n + k <= chars.len()
}

// A new constant (kind 1) or variable (kind 2) whose text is w. Both rooms are tested before a word is written.
fn append_text(
    terms: &mut [u32],
    cells: &[u32],
    chars: &mut [u32],
    reasons: &[u32],
    keys: &[u32],
    c: State,
    k: Kind,
    w: &[u32],
) -> Result<(u32, State), Refusal>
    requires fact_1 { Ready (lent terms.old cells.now chars.old reasons.now keys.now) c }
    requires fact_2 { within 2 (kind_number k) ≡ true }
    ensures { Builds (append_text (kind_number k) w.now) (across (changing terms) cells (changing chars) reasons keys) c (made result) }
{
    if !text_fits(chars, c.chars, w.len()) {
        return Err(Refusal::Room);
    }
    if !term_fits(terms, c.terms) {
        return Err(Refusal::Room);
    }
    let n = c.terms;
    put_text_unchecked(chars, c.chars, w);
    put_term_unchecked(
        terms,
        n,
        k.into(),
        c.chars as u32,
        w.len() as u32,
        bucket_of(k.into(), w),
    );
    let d = c.with_chars(w.len());
    Ok(((n + 1) as u32, d.with_term()))
}

// The constant (kind 1) or variable (kind 2) whose text is w.
fn make_text(
    terms: &mut [u32],
    cells: &[u32],
    chars: &mut [u32],
    reasons: &[u32],
    keys: &[u32],
    c: State,
    k: Kind,
    w: &[u32],
) -> Result<(u32, State), Refusal>
    requires fact_1 { Ready (lent terms.old cells.now chars.old reasons.now keys.now) c }
    requires fact_2 { within 2 (kind_number k) ≡ true }
    ensures { Builds (make_text (kind_number k) w.now) (across (changing terms) cells (changing chars) reasons keys) c (made result) }
{
    let t = find_text_unchecked(terms, chars, c.terms, k, w);
    if t != 0 {
        return Ok((t, c));
    }
    append_text(terms, cells, chars, reasons, keys, c, k, w)
}

pub fn make_constant_unchecked(
    terms: &mut [u32],
    cells: &[u32],
    chars: &mut [u32],
    reasons: &[u32],
    keys: &[u32],
    c: State,
    w: &[u32],
) -> Result<(u32, State), Refusal>
    requires ready { Ready (lent terms.old cells.now chars.old reasons.now keys.now) c }
    requires c_value { constant_arguments w.now (store_of (lent terms.old cells.now chars.old reasons.now keys.now) c) ≡ true }
    ensures { Does (make_constant w.now) (across (changing terms) cells (changing chars) reasons keys) c (made result) }
{
    make_text(terms, cells, chars, reasons, keys, c, Kind::Constant, w)
}

pub(crate) fn make_variable_unchecked(
    terms: &mut [u32],
    cells: &[u32],
    chars: &mut [u32],
    reasons: &[u32],
    keys: &[u32],
    c: State,
    w: &[u32],
) -> Result<(u32, State), Refusal>
    requires ready { Ready (lent terms.old cells.now chars.old reasons.now keys.now) c }
    requires c_value { variable_arguments w.now (store_of (lent terms.old cells.now chars.old reasons.now keys.now) c) ≡ true }
    ensures { Does (make_variable w.now) (across (changing terms) cells (changing chars) reasons keys) c (made result) }
{
    make_text(terms, cells, chars, reasons, keys, c, Kind::Variable, w)
}

// The variable of a name that no variable has: it is not looked for.
pub fn make_new_variable_unchecked(
    terms: &mut [u32],
    cells: &[u32],
    chars: &mut [u32],
    reasons: &[u32],
    keys: &[u32],
    c: State,
    w: &[u32],
) -> Result<(u32, State), Refusal>
    requires ready { Ready (lent terms.old cells.now chars.old reasons.now keys.now) c }
    requires c_value { variable_arguments w.now (store_of (lent terms.old cells.now chars.old reasons.now keys.now) c) ≡ true }
    requires c_value_2 { lookup (named w.now) (store_of (lent terms.old cells.now chars.old reasons.now keys.now) c) ≡ none }
    ensures { Does (make_variable w.now) (across (changing terms) cells (changing chars) reasons keys) c (made result) }
{
    append_text(terms, cells, chars, reasons, keys, c, Kind::Variable, w)
}

// Whether term t is the constant of the joined texts of a list, of `total` characters. Only texts of one length are compared.
fn has_joined(terms: &[u32], chars: &[u32], t: u32, list: &[u32], total: usize) -> bool
    requires list_len_bound { length list.now ≤ list_limit }
    requires texts_within { TextsWithin terms.now (length chars.now) list.now }
    requires total_value { total ≡ lengths terms.now list.now }
    ensures { result ≡ has_text terms.now chars.now 1 (concat_map (text_at terms.now chars.now) list.now) t }
{
    is_a(terms, t, Kind::Constant)
        && second(terms, t) as usize == total
        && joined_is_unchecked(terms, chars, first(terms, t), list)
}

// The lowest-numbered of n terms that is the constant of the joined texts of a list, which lies in bucket b; 0 where there is none.
fn find_joined(terms: &[u32], chars: &[u32], n: usize, b: usize, list: &[u32], total: usize) -> u32
    requires searchable { Searchable terms.now n b (has_text terms.now chars.now 1 (concat_map (text_at terms.now chars.now) list.now)) }
    requires list_len_bound { length list.now ≤ list_limit }
    requires texts_within { TextsWithin terms.now (length chars.now) list.now }
    requires total_value { total ≡ lengths terms.now list.now }
    ensures { let w = concat_map (text_at terms.now chars.now) list.now in result ≡ number_of (first_below (λ i. has_text terms.now chars.now 1 w (suc i)) n) }
{
    first_in(terms, n, b, |t| has_joined(terms, chars, t, list, total))
}

// The constant of the joined texts of a list of constants. It is looked for first; a joined word that does not fit is never built. It is built in the
// standard's order, from the left, two words at a time, with no term on the way (`text::add_part_unchecked`).
pub fn join_constants_unchecked(
    terms: &mut [u32],
    cells: &[u32],
    chars: &mut [u32],
    reasons: &[u32],
    keys: &[u32],
    c: State,
    list: &[u32],
) -> Result<(u32, State), Refusal>
    requires ready { Ready (lent terms.old cells.now chars.old reasons.now keys.now) c }
    requires list_len_bound { length list.now ≤ list_limit }
    requires list_value { all (is_constant (store_of (lent terms.old cells.now chars.old reasons.now keys.now) c)) list.now ≡ true }
    ensures { Does (λ s. make_constant (concat_map (text s) list.now) s) (across (changing terms) cells (changing chars) reasons keys) c (made result) }
{
    let total = joined_length_unchecked(terms, list);
    let b = bucket_of_joined(terms, chars, list);
    let t = find_joined(terms, chars, c.terms, b, list, total);
    if t != 0 {
        return Ok((t, c));
    }
    if !text_fits(chars, c.chars, total) {
        return Err(Refusal::Room);
    }
    if !term_fits(terms, c.terms) {
        return Err(Refusal::Room);
    }
    let n = c.terms;
    put_joined_unchecked(terms, chars, list, c.chars);
    put_term_unchecked(
        terms,
        n,
        Kind::Constant.into(),
        c.chars as u32,
        total as u32,
        b,
    );
    let d = c.with_chars(total);
    Ok(((n + 1) as u32, d.with_term()))
}

// The constant of a word.
pub fn make_constant(
    terms: &mut [u32],
    cells: &[u32],
    chars: &mut [u32],
    reasons: &[u32],
    keys: &[u32],
    c: State,
    w: &[u32],
) -> Result<(u32, State), Refusal>
    ensures { Answers (constant_arguments w.now) (make_constant w.now) (across (changing terms) cells (changing chars) reasons keys) c (made result) }
{
    crate::audit(terms, cells, chars, reasons, keys, c)?;
    if !chars_ok(w) {
        return Err(Refusal::Argument);
    }
    let r = make_constant_unchecked(terms, cells, chars, reasons, keys, c, w);
    cut_refused_unchecked(terms, c.terms, r)
}

// The variable of a name.
pub fn make_variable(
    terms: &mut [u32],
    cells: &[u32],
    chars: &mut [u32],
    reasons: &[u32],
    keys: &[u32],
    c: State,
    w: &[u32],
) -> Result<(u32, State), Refusal>
    ensures { Answers (variable_arguments w.now) (make_variable w.now) (across (changing terms) cells (changing chars) reasons keys) c (made result) }
{
    crate::audit(terms, cells, chars, reasons, keys, c)?;
    if w.len() == 0 {
        return Err(Refusal::Argument);
    }
    if !chars_ok(w) {
        return Err(Refusal::Argument);
    }
    let r = make_variable_unchecked(terms, cells, chars, reasons, keys, c, w);
    cut_refused_unchecked(terms, c.terms, r)
}
