// Step 4: the words that a variable is propagated to.
ghost use Rattle.std.specs.Prelude.{◌≡◌, true, not, ◌&&◌, [], ◌∷◌, ◌≤◌, length};
ghost use Rattle.records.specs.Lists.{all, first_of, Every};
ghost use Rattle.records.specs.Store.{is_variable};
ghost use Rattle.records.specs.View.{store_of, across, Between, read_in, termed, changing, lent};
ghost use Rattle.records.specs.Rules.{list_limit};
ghost use Rattle.records.specs.Make.{make_constant};
ghost use Rattle.records.specs.Working.Audited.{Ready};
ghost use Rattle.records.specs.Calls.{made};
ghost use Rattle.records.specs.Working.Doing.{Does};
ghost use Rattle.sides.specs.Wordeq.{same, fixed, letters, alias, empties, assigns, ◌or_else◌};
ghost use Rattle.sides.specs.Working.Results.{BothLists, Tries};
ghost use Rattle.sides.specs.Working.Sides.{Spelled};
ghost use Rattle.sides.specs.Working.Stripping.{Readable, Pair};
ghost use Rattle.wordeq.specs.Working.Propagates.{aliased, emptied, assigned, linked};

use records::{Kind, Refusal, State, make, rules};
use sides::{StepResult, letters, stripping};

// The constant of a constant side, "" for none.
pub(crate) fn side_word_unchecked(
    terms: &mut [u32],
    cells: &[u32],
    chars: &mut [u32],
    reasons: &[u32],
    keys: &[u32],
    c: State,
    side: &[u32],
) -> Result<(u32, State), Refusal>
    requires ready { Ready (lent terms.old cells.now chars.old reasons.now keys.now) c }
    requires side_len_bound { length side.now ≤ list_limit }
    requires side_value { fixed (store_of (lent terms.old cells.now chars.old reasons.now keys.now) c) side.now ≡ true }
    ensures { Does (λ s. make_constant (letters s side.now) s) (across (changing terms) cells (changing chars) reasons keys) c (made result) }
{
    make::join_constants_unchecked(terms, cells, chars, reasons, keys, c, side)
}

// Two lone variables, neither name beginning with `!strk`.
fn is_alias(terms: &[u32], chars: &[u32], c: State, l: &[u32], r: &[u32]) -> bool
    requires { Spelled terms.now chars.now c }
    ensures { result ≡ aliased (read_in terms.now chars.now c) l.now r.now }
{
    l.len() == 1
        && r.len() == 1
        && letters::is_plain_unchecked(terms, chars, c, l[0])
        && letters::is_plain_unchecked(terms, chars, c, r[0])
}

// Whether all atoms are variables.
fn are_variables(terms: &[u32], c: State, l: &[u32]) -> bool
    ensures { result ≡ all (is_variable (termed terms.now c)) l.now }
{
    l.iter()
        .all(|&a| rules::is_a(terms, c.terms, a, Kind::Variable))
}

// An empty side against two or more variables.
pub fn is_emptied_unchecked(terms: &[u32], c: State, l: &[u32], r: &[u32]) -> bool
    ensures { result ≡ emptied (termed terms.now c) l.now r.now }
{
    l.is_empty() && r.len() >= 2 && are_variables(terms, c, r)
}

// A lone variable against constants.
fn is_assigned(terms: &[u32], c: State, l: &[u32], r: &[u32]) -> bool
    ensures { result ≡ assigned (termed terms.now c) l.now r.now }
{
    l.len() == 1
        && rules::is_a(terms, c.terms, l[0], Kind::Variable)
        && letters::is_fixed(terms, c, r)
}

// The first variable that is not the same as the word is propagated to it.
fn link_first(terms: &[u32], chars: &[u32], c: State, side: &[u32], word: u32) -> StepResult
    requires readable { Readable terms.now chars.now c }
    requires every { Every (λ v. Pair (read_in terms.now chars.now c) v word) side.now }
    ensures { result ≡ linked c word (first_of (λ v. not (same (read_in terms.now chars.now c) v word)) side.now) }
{
    for &v in side {
        if !stripping::same_unchecked(terms, chars, c, v, word) {
            return StepResult::Propagate(c, v, word, true);
        }
    }
    StepResult::Done(c)
}

// Two or more variables against an empty side: "" is made, and stays made where each of them is the same as it.
fn empties_unchecked(
    terms: &mut [u32],
    cells: &[u32],
    chars: &mut [u32],
    reasons: &[u32],
    keys: &[u32],
    c: State,
    side: &[u32],
) -> Result<StepResult, Refusal>
    requires ready { Ready (lent terms.old cells.now chars.old reasons.now keys.now) c }
    requires side_value { emptied (termed terms.old c) [] side.now ≡ true }
    ensures { Between (Tries (empties [] side.now)) (across (changing terms) cells (changing chars) reasons keys) c result }
{
    let (t, d) = make::make_constant_unchecked(terms, cells, chars, reasons, keys, c, &[])?;
    Ok(link_first(terms, chars, d, side, t))
}

// A lone variable against constants: it is propagated to their joined word.
fn assigns_unchecked(
    terms: &mut [u32],
    cells: &[u32],
    chars: &mut [u32],
    reasons: &[u32],
    keys: &[u32],
    c: State,
    v: u32,
    side: &[u32],
) -> Result<StepResult, Refusal>
    requires ready { Ready (lent terms.old cells.now chars.old reasons.now keys.now) c }
    requires side_len_bound { length side.now ≤ list_limit }
    requires side_value { (is_variable (termed terms.old c) v && fixed (termed terms.old c) side.now) ≡ true }
    ensures { Between (Tries (assigns (v ∷ []) side.now)) (across (changing terms) cells (changing chars) reasons keys) c result }
{
    let (t, d) = side_word_unchecked(terms, cells, chars, reasons, keys, c, side)?;
    Ok(StepResult::Propagate(d, v, t, false))
}

// Step 4. Where "" is made and no variable is left to propagate, no later way applies: so each is tested on the store as it came.
pub(crate) fn propagate_unchecked(
    terms: &mut [u32],
    cells: &[u32],
    chars: &mut [u32],
    reasons: &[u32],
    keys: &[u32],
    c: State,
    lhs: &[u32],
    rhs: &[u32],
) -> Result<StepResult, Refusal>
    requires ready { Ready (lent terms.old cells.now chars.old reasons.now keys.now) c }
    requires both_lists { BothLists (store_of (lent terms.old cells.now chars.old reasons.now keys.now) c) lhs.now rhs.now }
    ensures { let l = lhs.now in let r = rhs.now in Between (Tries (alias l r or_else empties l r or_else empties r l or_else assigns l r or_else assigns r l)) (across (changing terms) cells (changing chars) reasons keys) c result }
{
    if is_alias(terms, chars, c, lhs, rhs) {
        Ok(StepResult::Propagate(c, lhs[0], rhs[0], false))
    } else if is_emptied_unchecked(terms, c, lhs, rhs) {
        empties_unchecked(terms, cells, chars, reasons, keys, c, rhs)
    } else if is_emptied_unchecked(terms, c, rhs, lhs) {
        empties_unchecked(terms, cells, chars, reasons, keys, c, lhs)
    } else if is_assigned(terms, c, lhs, rhs) {
        assigns_unchecked(terms, cells, chars, reasons, keys, c, lhs[0], rhs)
    } else if is_assigned(terms, c, rhs, lhs) {
        assigns_unchecked(terms, cells, chars, reasons, keys, c, rhs[0], lhs)
    } else {
        Ok(StepResult::Done(c))
    }
}
