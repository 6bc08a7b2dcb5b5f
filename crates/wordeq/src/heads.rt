// Steps 6 and 7: the heads of the two lists.
ghost use Rattle.std.specs.Prelude.{◌≡◌, true, ◌∷◌, ◌≤◌, length, drop, neg_ℤ};
ghost use Rattle.records.specs.Store.{text};
ghost use Rattle.records.specs.View.{store_of, across, read_in, termed, changing, lent};
ghost use Rattle.records.specs.Rules.{list_limit};
ghost use Rattle.records.specs.Working.Audited.{Ready};
ghost use Rattle.records.specs.Calls.{◌into◌};
ghost use Rattle.records.specs.Working.Doing.{Does};
ghost use Rattle.sides.specs.Wordeq.{◌or_else◌, is_full, clashes, splits, is_guard};
ghost use Rattle.sides.specs.Working.Results.{BothLists, tried};
ghost use Rattle.sides.specs.Working.Sides.{Spelled};
ghost use Rattle.wordeq.specs.Working.Splits.{listed};
ghost use Rattle.wordeq.specs.Working.Heads.{HeadsApart, HeadPair, atoms_of, split_new};

use crate::splits;
use records::{Refusal, State, fields, put};
use sides::{StepResult, letters, stripping};

// The guard negated: the lowest i32, which has no opposite, is no guard.
fn negated(guard: i32) -> i32
    requires { is_guard guard ≡ true }
    ensures { result ≡ neg_ℤ guard }
{
    -guard
}

fn first_letter(terms: &[u32], chars: &[u32], c: State, a: u32) -> u32
    requires { Spelled terms.now chars.now c × (is_full (termed terms.now c) a ≡ true) }
    ensures { let s = read_in terms.now chars.now c in text s a ≡ result ∷ drop 1 (text s a) }
{
    let p = fields::wide(fields::first(terms, a));
    fields::word(chars, p)
}

// The atoms for two heads, of which one at most is a constant.
fn put_atoms(
    terms: &mut [u32],
    cells: &mut [u32],
    chars: &mut [u32],
    reasons: &[u32],
    keys: &[u32],
    c: State,
    a: u32,
    b: u32,
    list: &mut [u32],
) -> Result<(usize, State), Refusal>
    requires ready { Ready (lent terms.old cells.old chars.old reasons.now keys.now) c }
    requires head_pair { HeadPair (store_of (lent terms.old cells.old chars.old reasons.now keys.now) c) a b }
    requires in_bounds { 3 ≤ length list.old }
    ensures { Does (atoms_of a b) (across (changing terms) (changing cells) (changing chars) reasons keys) c (listed result into changing list) }
{
    if letters::is_full_unchecked(terms, c, b) {
        let x = first_letter(terms, chars, c, b);
        splits::split_character_unchecked(terms, cells, chars, reasons, keys, c, a, x, list)
    } else if letters::is_full_unchecked(terms, c, a) {
        let y = first_letter(terms, chars, c, a);
        splits::split_character_unchecked(terms, cells, chars, reasons, keys, c, b, y, list)
    } else {
        splits::split_heads_unchecked(terms, cells, chars, reasons, keys, c, a, b, list)
    }
}

// Two heads whose pair is no key: the key, then the atoms and how many terms they took.
fn split_new(
    terms: &mut [u32],
    cells: &mut [u32],
    chars: &mut [u32],
    reasons: &[u32],
    keys: &mut [u32],
    c: State,
    a: u32,
    b: u32,
    guard: i32,
    list: &mut [u32],
) -> Result<StepResult, Refusal>
    requires ready { Ready (lent terms.old cells.old chars.old reasons.now keys.old) c }
    requires head_pair { HeadPair (store_of (lent terms.old cells.old chars.old reasons.now keys.old) c) a b }
    requires guard_value { is_guard guard ≡ true }
    requires in_bounds { 3 ≤ length list.old }
    ensures { Does (split_new guard a b) (across (changing terms) (changing cells) (changing chars) reasons (changing keys)) c (tried result into changing list) }
{
    let opposite = negated(guard);
    let d = put::add_key_unchecked(terms, cells, chars, reasons, keys, c, a, b)?;
    let (n, e) = put_atoms(terms, cells, chars, reasons, keys, d, a, b, list)?;
    let more = (e.terms - d.terms) as u32;
    Ok(StepResult::Split(e, n, opposite, more))
}

// Two constant heads that differ at a character: Conflict. A variable head: Saturated where a stripped match needs a reason or the head pair is a
// key, else Split.
pub(crate) fn split_unchecked(
    terms: &mut [u32],
    cells: &mut [u32],
    chars: &mut [u32],
    reasons: &[u32],
    keys: &mut [u32],
    c: State,
    lhs: &[u32],
    rhs: &[u32],
    guard: i32,
    needed: bool,
    list: &mut [u32],
) -> Result<StepResult, Refusal>
    requires ready { Ready (lent terms.old cells.old chars.old reasons.now keys.old) c }
    requires both_lists { BothLists (store_of (lent terms.old cells.old chars.old reasons.now keys.old) c) lhs.now rhs.now }
    requires heads_apart { HeadsApart lhs.now rhs.now }
    requires guard_value { is_guard guard ≡ true }
    requires list_limit_in_bounds { list_limit ≤ length list.old }
    ensures { let l = lhs.now in let r = rhs.now in Does (clashes l r or_else splits guard needed l r) (across (changing terms) (changing cells) (changing chars) reasons (changing keys)) c (tried result into changing list) }
{
    if lhs.is_empty() || rhs.is_empty() {
        return Ok(StepResult::Done(c));
    }
    let a = lhs[0];
    let b = rhs[0];
    if letters::constants_differ_unchecked(terms, chars, c, a, b) {
        return Ok(StepResult::Conflict(c));
    }
    if stripping::both_constant(terms, c.terms, a, b) {
        return Ok(StepResult::Done(c));
    }
    if needed || put::is_key_unchecked(keys, c.keys, a, b) {
        return Ok(StepResult::Saturated(c));
    }
    split_new(terms, cells, chars, reasons, keys, c, a, b, guard, list)
}
