// The length that a side of constants forces on the one variable class of the other side.
#![tactic(auto)]

ghost use Rattle.std.specs.Prelude.{◌≡◌, true};
ghost use Rattle.records.specs.View.{store_of, across, read_in, lent};
ghost use Rattle.records.specs.Rules.{is_list};
ghost use Rattle.records.specs.Calls.{Promises};
ghost use Rattle.records.specs.Working.Doing.{Does};
ghost use Rattle.records.specs.Working.Audited.{Ready};
ghost use Rattle.sides.specs.Wordeq.{variables};
ghost use Rattle.sides.specs.Working.Results.{BothLists};
ghost use Rattle.sides.specs.Working.Stripping.{Readable};
ghost use Rattle.forced.specs.Forced.{one_class, is_forced, side_fit, sides_fit, residual_fit, forced_length};
ghost use Rattle.forced.specs.Calls.{measured, fitted, PublicForced};

use records::{LIST_LIMIT, Refusal, State};
use sides::{letters, spans, stripping};
use wordeq::resolving;

// k variables and c constant characters on one side, l characters on the other.
#[derive(Clone, Copy)]
pub enum Forced {
    // k, c, l, and m and r with l = c + k × m + r and r below k
    Spans(usize, usize, usize, usize, usize),
    // k, c, l, and what l lacks of c
    Shortage(usize, usize, usize, usize),
}

// Whether a side has a variable, and all its variables are one class.
fn has_one_class(terms: &[u32], chars: &[u32], c: State, side: &[u32]) -> bool
    requires readable { Readable terms.now chars.now c }
    requires side_is_list { is_list (read_in terms.now chars.now c) side.now ≡ true }
    ensures { let s = read_in terms.now chars.now c in result ≡ one_class s (variables s side.now) }
{
    let i = spans::first_variable_unchecked(terms, c, side);
    i < side.len() && spans::all_agree_unchecked(terms, chars, c, &side[i + 1..], side[i])
}

// Whether one side is constants only and the other has one variable class.
fn is_forced(terms: &[u32], chars: &[u32], c: State, word: &[u32], side: &[u32]) -> bool
    requires readable { Readable terms.now chars.now c }
    requires side_is_list { is_list (read_in terms.now chars.now c) side.now ≡ true }
    ensures { result ≡ is_forced (read_in terms.now chars.now c) word.now side.now }
{
    letters::is_fixed(terms, c, word) && has_one_class(terms, chars, c, side)
}

// What the word's length leaves to each variable of the side.
fn side_fit(terms: &[u32], chars: &[u32], c: State, word: &[u32], side: &[u32]) -> Forced
    requires readable { Readable terms.now chars.now c }
    requires both_lists { BothLists (read_in terms.now chars.now c) word.now side.now }
    requires is_forced { is_forced (read_in terms.now chars.now c) word.now side.now ≡ true }
    ensures { let s = read_in terms.now chars.now c in measured result ≡ side_fit s word.now side.now }
{
    let k = spans::variables_length(terms, c, side);
    let n = letters::letters_length_unchecked(terms, c, side);
    let l = letters::letters_length_unchecked(terms, c, word);
    if l < n {
        Forced::Shortage(k, n, l, n - l)
    } else {
        Forced::Spans(k, n, l, (l - n) / k, (l - n) % k)
    }
}

// The two residual lists, whichever of them is constant.
fn sides_fit(
    terms: &[u32],
    cells: &[u32],
    chars: &[u32],
    reasons: &[u32],
    keys: &[u32],
    c: State,
    lhs: &[u32],
    rhs: &[u32],
) -> Result<Forced, Refusal>
    requires ready { Ready (lent terms.now cells.now chars.now reasons.now keys.now) c }
    requires both_lists { BothLists (store_of (lent terms.now cells.now chars.now reasons.now keys.now) c) lhs.now rhs.now }
    ensures { Does (sides_fit lhs.now rhs.now) (across terms cells chars reasons keys) c (λ m. fitted result (store_of m c)) }
{
    if is_forced(terms, chars, c, lhs, rhs) {
        Ok(side_fit(terms, chars, c, lhs, rhs))
    } else if is_forced(terms, chars, c, rhs, lhs) {
        Ok(side_fit(terms, chars, c, rhs, lhs))
    } else {
        Err(Refusal::Form)
    }
}

// Same heads and then same tails are stripped, and no match is explained.
fn residual_fit(
    terms: &[u32],
    cells: &[u32],
    chars: &[u32],
    reasons: &[u32],
    keys: &[u32],
    c: State,
    lhs: &[u32],
    rhs: &[u32],
) -> Result<Forced, Refusal>
    requires ready { Ready (lent terms.now cells.now chars.now reasons.now keys.now) c }
    requires both_lists { BothLists (store_of (lent terms.now cells.now chars.now reasons.now keys.now) c) lhs.now rhs.now }
    ensures { Does (residual_fit lhs.now rhs.now) (across terms cells chars reasons keys) c (λ m. fitted result (store_of m c)) }
{
    let rest = stripping::find_rest_unchecked(terms, chars, c, lhs, rhs);
    let left = &lhs[rest.from..rest.lhs];
    let right = &rhs[rest.from..rest.rhs];
    sides_fit(terms, cells, chars, reasons, keys, c, left, right)
}

// Both lists flattened, left first.
pub fn forced_unchecked(
    terms: &[u32],
    cells: &[u32],
    chars: &[u32],
    reasons: &[u32],
    keys: &[u32],
    c: State,
    lhs: &[u32],
    rhs: &[u32],
) -> Result<Forced, Refusal>
    requires ready { Ready (lent terms.now cells.now chars.now reasons.now keys.now) c }
    requires both_lists { BothLists (store_of (lent terms.now cells.now chars.now reasons.now keys.now) c) lhs.now rhs.now }
    ensures { Does (forced_length lhs.now rhs.now) (across terms cells chars reasons keys) c (λ m. fitted result (store_of m c)) }
{
    let mut left: [u32; 1024] = [0; 1024];
    let n = resolving::flatten_list_unchecked(terms, cells, c, lhs, &mut left);
    if LIST_LIMIT < n {
        return Err(Refusal::List);
    }
    let mut right: [u32; 1024] = [0; 1024];
    let k = resolving::flatten_list_unchecked(terms, cells, c, rhs, &mut right);
    if LIST_LIMIT < k {
        return Err(Refusal::List);
    }
    residual_fit(
        terms,
        cells,
        chars,
        reasons,
        keys,
        c,
        &left[..n],
        &right[..k],
    )
}

// The length that a repeated field must have, and what is left over or lacking. It writes nothing.
pub fn forced_length(
    terms: &[u32],
    cells: &[u32],
    chars: &[u32],
    reasons: &[u32],
    keys: &[u32],
    c: State,
    lhs: &[u32],
    rhs: &[u32],
) -> Result<Forced, Refusal>
    ensures { Promises (PublicForced lhs.now rhs.now) (across terms cells chars reasons keys) c (λ m. fitted result (store_of m c)) }
{
    records::audit(terms, cells, chars, reasons, keys, c)?;
    if !wordeq::are_lists(terms, c, lhs, rhs) {
        return Err(Refusal::Argument);
    }
    forced_unchecked(terms, cells, chars, reasons, keys, c, lhs, rhs)
}
