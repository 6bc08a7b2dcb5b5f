// Word equations, steps 1 to 8: the public calls.
#![tactic(auto)]

ghost use Rattle.std.specs.Prelude.{◌≡◌};
ghost use Rattle.records.specs.View.{across, termed, changing};
ghost use Rattle.records.specs.Calls.{added, Answers, Promises, Writes};
ghost use Rattle.sides.specs.Wordeq.{is_guard, resolve_arguments, nf_arguments};
ghost use Rattle.wordeq.specs.Calls.{equal_arguments, equal_lists, compared, PublicEqualExplain, PublicResolve, resolved};

use records::index::cut_refused_unchecked;
use records::{LIST_LIMIT, Refusal, State, rules};
use sides::{StepResult, equal_lists};

mod heads;
pub mod propagate;
pub mod resolving;
pub mod splits;
mod stepping;

// Two lists of string terms, at most 1,024 each.
pub fn are_lists(terms: &[u32], c: State, lhs: &[u32], rhs: &[u32]) -> bool
    ensures { result ≡ equal_arguments lhs.now rhs.now (termed terms.now c) }
{
    rules::is_list(terms, c, lhs) && rules::is_list(terms, c, rhs)
}

// Two such lists of equal length.
fn can_pair(terms: &[u32], c: State, lhs: &[u32], rhs: &[u32]) -> bool
    ensures { result ≡ nf_arguments lhs.now rhs.now (termed terms.now c) }
{
    are_lists(terms, c, lhs, rhs) && lhs.len() == rhs.len()
}

// Whether two lists are atom by atom the same.
pub fn nf_equal(
    terms: &[u32],
    cells: &[u32],
    chars: &[u32],
    reasons: &[u32],
    keys: &[u32],
    c: State,
    lhs: &[u32],
    rhs: &[u32],
) -> Result<bool, Refusal>
    ensures { let l = lhs.now in let r = rhs.now in Answers (equal_arguments l r) (equal_lists l r) (across terms cells chars reasons keys) c (λ m. compared result m c) }
{
    records::audit(terms, cells, chars, reasons, keys, c)?;
    if !are_lists(terms, c, lhs, rhs) {
        return Err(Refusal::Argument);
    }
    Ok(equal_lists::nf_equal_unchecked(terms, chars, c, lhs, rhs))
}

// The reasons why the pairs of one class in two lists of equal length are equal, after those that are there.
pub fn nf_equal_explain(
    terms: &[u32],
    cells: &[u32],
    chars: &[u32],
    reasons: &mut [u32],
    keys: &[u32],
    c: State,
    lhs: &[u32],
    rhs: &[u32],
) -> Result<State, Refusal>
    ensures { Promises (PublicEqualExplain lhs.now rhs.now) (across terms cells chars (changing reasons) keys) c (added result) }
{
    records::audit(terms, cells, chars, reasons, keys, c)?;
    if !can_pair(terms, c, lhs, rhs) {
        return Err(Refusal::Argument);
    }
    equal_lists::nf_equal_explain_unchecked(terms, cells, chars, reasons, keys, c, lhs, rhs)
}

// A guard can be negated and is no 0.
pub fn is_guard(g: i32) -> bool
    ensures { result ≡ is_guard g }
{
    g != 0 && g != i32::MIN
}

// Two lists of string terms, and a guard.
fn can_resolve(terms: &[u32], c: State, lhs: &[u32], rhs: &[u32], guard: i32) -> bool
    ensures { result ≡ resolve_arguments lhs.now rhs.now guard (termed terms.now c) }
{
    are_lists(terms, c, lhs, rhs) && is_guard(guard)
}

// The word equation between two lists; a Split's atoms are the first words of `list`.
pub fn resolve_equation<'a>(
    terms: &mut [u32],
    cells: &mut [u32],
    chars: &mut [u32],
    reasons: &mut [u32],
    keys: &mut [u32],
    c: State,
    lhs: &'a [u32],
    rhs: &'a [u32],
    guard: i32,
    list: &mut [u32],
) -> Result<StepResult, Refusal>
    ensures { Writes (PublicResolve lhs.now rhs.now guard) (across (changing terms) (changing cells) (changing chars) (changing reasons) (changing keys)) (changing list) c (resolved result) }
{
    if list.len() < LIST_LIMIT {
        return Err(Refusal::Sizes);
    }
    records::audit(terms, cells, chars, reasons, keys, c)?;
    if !can_resolve(terms, c, lhs, rhs, guard) {
        return Err(Refusal::Argument);
    }
    let o = resolving::resolve_unchecked(
        terms, cells, chars, reasons, keys, c, lhs, rhs, guard, list,
    );
    cut_refused_unchecked(terms, c.terms, o)
}
