// Step 2 with departure A: a lone non-constant against a list with an atom of its class and, at another place, a non-empty constant.
ghost use Rattle.std.specs.Prelude.{◌≡◌, true, ◌&&◌, [], ◌≤◌, length, eqb, ltb};
ghost use Rattle.records.specs.Lists.{all, keep};
ghost use Rattle.records.specs.Rules.{list_limit};
ghost use Rattle.records.specs.Store.{within, root_in, class_up};
ghost use Rattle.records.specs.View.{terms_view, store_of, across, Between, termed, changing, lent};
ghost use Rattle.records.specs.Working.Audited.{Ready, Closed};
ghost use Rattle.sides.specs.Wordeq.{is_full, occurrence, occurs, ◌or_else◌};
ghost use Rattle.sides.specs.Working.Sides.{Texts};
ghost use Rattle.sides.specs.Working.Results.{BothLists, Tries};
ghost use Rattle.sides.specs.Working.Occurring.{at_place, own_count};

use crate::{StepResult, letters};
use records::classes::root_unchecked;
use records::{Kind, Refusal, State, rules};

// 1 for a non-empty constant, 0 for any other atom.
fn own_count(terms: &[u32], c: State, a: u32) -> usize
    requires { Texts terms.now c }
    ensures { result ≡ own_count (termed terms.now c) a }
{
    usize::from(letters::is_full_unchecked(terms, c, a))
}

// The non-empty constants of a list, counted.
fn count_full(terms: &[u32], c: State, l: &[u32]) -> usize
    requires { Texts terms.now c × (length l.now ≤ list_limit) }
    ensures { result ≡ length (keep (is_full (termed terms.now c)) l.now) }
{
    l.iter()
        .filter(|&&a| letters::is_full_unchecked(terms, c, a))
        .count()
}

// Whether an atom is of the class of root x, and of the list's n non-empty constants one is at another place.
fn occurs_here(terms: &[u32], c: State, a: u32, x: u32, n: usize) -> bool
    requires texts { Texts terms.now c }
    requires closed { Closed (class_up (terms_view terms.now c.terms)) c.terms }
    requires a_value { within c.terms a ≡ true }
    ensures { result ≡ (eqb (root_in (terms_view terms.now c.terms) a) x && ltb (own_count (termed terms.now c) a) n) }
{
    root_unchecked(terms, c.terms, a) == x && own_count(terms, c, a) < n
}

// The place of the first occurrence; the list's length where there is none.
fn find(terms: &[u32], c: State, l: &[u32], x: u32) -> usize
    requires texts { Texts terms.now c × (length l.now ≤ list_limit) }
    requires closed { Closed (class_up (terms_view terms.now c.terms)) c.terms }
    requires x_value { within c.terms x ≡ true }
    requires l_value { all (within c.terms) l.now ≡ true }
    ensures { occurrence (termed terms.now c) x [] l.now ≡ at_place l.now result }
{
    let n = count_full(terms, c, l);
    let root = root_unchecked(terms, c.terms, x);
    for (i, &a) in l.iter().enumerate() {
        if occurs_here(terms, c, a, root, n) {
            return i;
        }
    }
    l.len()
}

// One side's lone atom in the other side.
fn occurs_in(
    terms: &[u32],
    cells: &[u32],
    chars: &[u32],
    reasons: &mut [u32],
    keys: &[u32],
    c: State,
    lone: &[u32],
    side: &[u32],
) -> Result<StepResult, Refusal>
    requires ready { Ready (lent terms.now cells.now chars.now reasons.old keys.now) c }
    requires both_lists { BothLists (store_of (lent terms.now cells.now chars.now reasons.old keys.now) c) lone.now side.now }
    ensures { Between (Tries (occurs lone.now side.now)) (across terms cells chars (changing reasons) keys) c result }
{
    let &[x] = lone else {
        return Ok(StepResult::Done(c));
    };
    if rules::is_a(terms, c.terms, x, Kind::Constant) {
        return Ok(StepResult::Done(c));
    }
    let i = find(terms, c, side, x);
    if side.len() <= i {
        return Ok(StepResult::Done(c));
    }
    let mut places: [u32; 0] = [];
    let d = engine::explain_unchecked(
        terms,
        cells,
        chars,
        reasons,
        keys,
        c,
        side[i],
        x,
        &mut places,
    )?;
    Ok(StepResult::Conflict(d))
}

// Step 2, left single first.
pub fn occurs_unchecked(
    terms: &[u32],
    cells: &[u32],
    chars: &[u32],
    reasons: &mut [u32],
    keys: &[u32],
    c: State,
    lhs: &[u32],
    rhs: &[u32],
) -> Result<StepResult, Refusal>
    requires ready { Ready (lent terms.now cells.now chars.now reasons.old keys.now) c }
    requires both_lists { BothLists (store_of (lent terms.now cells.now chars.now reasons.old keys.now) c) lhs.now rhs.now }
    ensures { Between (Tries (occurs lhs.now rhs.now or_else occurs rhs.now lhs.now)) (across terms cells chars (changing reasons) keys) c result }
{
    let o = occurs_in(terms, cells, chars, reasons, keys, c, lhs, rhs)?;
    let StepResult::Done(d) = o else {
        return Ok(o);
    };
    occurs_in(terms, cells, chars, reasons, keys, d, rhs, lhs)
}
