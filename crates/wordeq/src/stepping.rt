// The steps in sequence: where one finds nothing the next is tried.
ghost use Rattle.std.specs.Prelude.{◌≡◌, true, ◌≤◌, length};
ghost use Rattle.records.specs.View.{store_of, across, Between, changing, lent};
ghost use Rattle.records.specs.Rules.{list_limit};
ghost use Rattle.records.specs.Working.Audited.{Ready};
ghost use Rattle.records.specs.Calls.{◌into◌};
ghost use Rattle.records.specs.Working.Doing.{Does};
ghost use Rattle.sides.specs.Wordeq.{◌or_else◌, occurs, constants, after, is_bare, steps, is_guard};
ghost use Rattle.sides.specs.Working.Results.{BothLists, tried, Tries};
ghost use Rattle.wordeq.specs.Calls.{resolved};
ghost use Rattle.wordeq.specs.Working.Heads.{HeadsApart};

use crate::{heads, propagate};
use records::{Refusal, State};
use sides::{StepResult, lacking, occurring, spans, stripping};

// Steps 2 and 3, which can find a conflict and nothing else.
fn conflicts_unchecked<'a>(
    terms: &[u32],
    cells: &[u32],
    chars: &[u32],
    reasons: &mut [u32],
    keys: &[u32],
    c: State,
    lhs: &'a [u32],
    rhs: &'a [u32],
) -> Result<StepResult, Refusal>
    requires ready { Ready (lent terms.now cells.now chars.now reasons.old keys.now) c }
    requires both_lists { BothLists (store_of (lent terms.now cells.now chars.now reasons.old keys.now) c) lhs.now rhs.now }
    ensures { let l = lhs.now in let r = rhs.now in Between (Tries (occurs l r or_else occurs r l or_else constants l r)) (across terms cells chars (changing reasons) keys) c result }
{
    let o = occurring::occurs_unchecked(terms, cells, chars, reasons, keys, c, lhs, rhs)?;
    let StepResult::Done(d) = o else {
        return Ok(o);
    };
    if lacking::constants_unchecked(terms, chars, d, lhs, rhs) {
        Ok(StepResult::Conflict(d))
    } else {
        Ok(StepResult::Done(d))
    }
}

// Steps 2 to 7 on what step 1 left; needed: a match that it stripped needs a reason.
pub(crate) fn after_unchecked<'a>(
    terms: &mut [u32],
    cells: &mut [u32],
    chars: &mut [u32],
    reasons: &mut [u32],
    keys: &mut [u32],
    c: State,
    lhs: &'a [u32],
    rhs: &'a [u32],
    guard: i32,
    needed: bool,
    list: &mut [u32],
) -> Result<StepResult, Refusal>
    requires ready { Ready (lent terms.old cells.old chars.old reasons.old keys.old) c }
    requires both_lists { BothLists (store_of (lent terms.old cells.old chars.old reasons.old keys.old) c) lhs.now rhs.now }
    requires heads_apart { HeadsApart lhs.now rhs.now }
    requires guard_value { is_guard guard ≡ true }
    requires list_limit_in_bounds { list_limit ≤ length list.old }
    ensures { Does (after guard needed lhs.now rhs.now) (across (changing terms) (changing cells) (changing chars) (changing reasons) (changing keys)) c (tried result into changing list) }
{
    let early = conflicts_unchecked(terms, cells, chars, reasons, keys, c, lhs, rhs)?;
    let StepResult::Done(d) = early else {
        return Ok(early);
    };
    let known = propagate::propagate_unchecked(terms, cells, chars, reasons, keys, d, lhs, rhs)?;
    let StepResult::Done(e) = known else {
        return Ok(known);
    };
    let tiled = spans::tile_unchecked(terms, cells, chars, reasons, keys, e, lhs, rhs)?;
    let StepResult::Done(f) = tiled else {
        return Ok(tiled);
    };
    heads::split_unchecked(
        terms, cells, chars, reasons, keys, f, lhs, rhs, guard, needed, list,
    )
}

fn is_bare(l: &[u32], r: &[u32]) -> bool
    ensures { result ≡ is_bare l.now r.now }
{
    l.is_empty() && r.is_empty()
}

// Steps 1 to 8: Done where step 1 leaves nothing, or where no step answers.
pub(crate) fn steps_unchecked<'a>(
    terms: &mut [u32],
    cells: &mut [u32],
    chars: &mut [u32],
    reasons: &mut [u32],
    keys: &mut [u32],
    c: State,
    lhs: &'a [u32],
    rhs: &'a [u32],
    guard: i32,
    list: &mut [u32],
) -> Result<StepResult, Refusal>
    requires ready { Ready (lent terms.old cells.old chars.old reasons.old keys.old) c }
    requires both_lists { BothLists (store_of (lent terms.old cells.old chars.old reasons.old keys.old) c) lhs.now rhs.now }
    requires guard_value { is_guard guard ≡ true }
    requires list_limit_in_bounds { list_limit ≤ length list.old }
    ensures { Does (steps guard lhs.now rhs.now) (across (changing terms) (changing cells) (changing chars) (changing reasons) (changing keys)) c (resolved result into changing list) }
{
    let parts = stripping::strip_unchecked(terms, cells, chars, reasons, keys, c, lhs, rhs)?;
    let rest = parts.rest;
    let left = &lhs[rest.from..rest.lhs];
    let right = &rhs[rest.from..rest.rhs];
    if is_bare(left, right) {
        return Ok(StepResult::Done(parts.counts));
    }
    after_unchecked(
        terms,
        cells,
        chars,
        reasons,
        keys,
        parts.counts,
        left,
        right,
        guard,
        parts.needed,
        list,
    )
}
