// The whole of wordeq: concatenations flattened, the steps, and the reasons that an answer ends with.
ghost use Rattle.std.specs.Prelude.{◌≡◌, true, ◌++◌, ◌≤◌, length};
ghost use Rattle.records.specs.Lists.{any, concat_map};
ghost use Rattle.records.specs.Store.{is_concat};
ghost use Rattle.records.specs.View.{store_of, across, termed, changing, lent};
ghost use Rattle.records.specs.Working.Audited.{Ready};
ghost use Rattle.records.specs.Calls.{◌into◌};
ghost use Rattle.records.specs.Working.Doing.{Does};
ghost use Rattle.records.specs.Rules.{list_limit};
ghost use Rattle.normalize.specs.Normalize.{atoms};
ghost use Rattle.normalize.specs.Working.Flat.{bare, Nested, Appended};
ghost use Rattle.sides.specs.Wordeq.{resolve, is_guard};
ghost use Rattle.sides.specs.Working.Results.{BothLists};
ghost use Rattle.wordeq.specs.Calls.{resolved};
ghost use Rattle.wordeq.specs.Working.Resolving.{soft, closing, flat_steps, ran};

use crate::stepping;
use normalize::flat;
use records::{Kind, LIST_LIMIT, Refusal, State, rules};
use sides::StepResult;

// Whether some atom is a concatenation.
fn has_concat(terms: &[u32], c: State, l: &[u32]) -> bool
    ensures { result ≡ any (is_concat (termed terms.now c)) l.now }
{
    l.iter()
        .any(|&a| rules::is_a(terms, c.terms, a, Kind::Concatenation))
}

fn either_concat(terms: &[u32], c: State, lhs: &[u32], rhs: &[u32]) -> bool
    ensures { result ≡ any (is_concat (termed terms.now c)) (lhs.now ++ rhs.now) }
{
    has_concat(terms, c, lhs) || has_concat(terms, c, rhs)
}

// The atoms of each term of a list, from the start of `out`. Nothing is walked past the first atom that does not fit.
pub fn flatten_list_unchecked(
    terms: &[u32],
    cells: &[u32],
    c: State,
    l: &[u32],
    out: &mut [u32],
) -> usize
    requires fact_1 { Nested (bare terms.now c.terms cells.now c.cells) }
    requires fact_2 { list_limit ≤ length out.old }
    ensures { Appended out.old out.new 0 (concat_map (atoms (bare terms.now c.terms cells.now c.cells)) l.now) result }
{
    let mut n: usize = 0;
    for &t in l {
        n = flat::flatten_unchecked(terms, c.terms, cells, c.cells, t, out, n);
        if LIST_LIMIT < n {
            return n;
        }
    }
    n
}

// A Conflict of flattened lists is no more than Saturated.
fn soften(o: StepResult) -> StepResult
    ensures { result ≡ soft o }
{
    match o {
        StepResult::Conflict(d) => StepResult::Saturated(d),
        _ => o,
    }
}

// The steps on both lists flattened, left first.
fn flat_steps(
    terms: &mut [u32],
    cells: &mut [u32],
    chars: &mut [u32],
    reasons: &mut [u32],
    keys: &mut [u32],
    c: State,
    lhs: &[u32],
    rhs: &[u32],
    guard: i32,
    list: &mut [u32],
) -> Result<StepResult, Refusal>
    requires ready { Ready (lent terms.old cells.old chars.old reasons.old keys.old) c }
    requires both_lists { BothLists (store_of (lent terms.old cells.old chars.old reasons.old keys.old) c) lhs.now rhs.now }
    requires guard_value { is_guard guard ≡ true }
    requires list_limit_in_bounds { list_limit ≤ length list.old }
    ensures { Does (flat_steps lhs.now rhs.now guard) (across (changing terms) (changing cells) (changing chars) (changing reasons) (changing keys)) c (resolved result into changing list) }
{
    let mut left: [u32; 1024] = [0; 1024];
    let n = flatten_list_unchecked(terms, cells, c, lhs, &mut left);
    if LIST_LIMIT < n {
        return Err(Refusal::List);
    }
    let mut right: [u32; 1024] = [0; 1024];
    let k = flatten_list_unchecked(terms, cells, c, rhs, &mut right);
    if LIST_LIMIT < k {
        return Err(Refusal::List);
    }
    let o = stepping::steps_unchecked(
        terms,
        cells,
        chars,
        reasons,
        keys,
        c,
        &left[..n],
        &right[..k],
        guard,
        list,
    )?;
    Ok(soften(o))
}

// The steps, on flattened lists where some atom is a concatenation.
fn run<'a>(
    terms: &mut [u32],
    cells: &mut [u32],
    chars: &mut [u32],
    reasons: &mut [u32],
    keys: &mut [u32],
    c: State,
    lhs: &'a [u32],
    rhs: &'a [u32],
    guard: i32,
    list: &mut [u32],
) -> Result<StepResult, Refusal>
    requires ready { Ready (lent terms.old cells.old chars.old reasons.old keys.old) c }
    requires both_lists { BothLists (store_of (lent terms.old cells.old chars.old reasons.old keys.old) c) lhs.now rhs.now }
    requires guard_value { is_guard guard ≡ true }
    requires list_limit_in_bounds { list_limit ≤ length list.old }
    ensures { Does (ran lhs.now rhs.now guard) (across (changing terms) (changing cells) (changing chars) (changing reasons) (changing keys)) c (resolved result into changing list) }
{
    if either_concat(terms, c, lhs, rhs) {
        flat_steps(terms, cells, chars, reasons, keys, c, lhs, rhs, guard, list)
    } else {
        stepping::steps_unchecked(terms, cells, chars, reasons, keys, c, lhs, rhs, guard, list)
    }
}

// Conflict and Propagate end with the reasons added too; other answers return the incoming count.
fn close(n: usize, o: StepResult) -> StepResult
    ensures { result ≡ closing n o }
{
    match o {
        StepResult::Done(d) => StepResult::Done(d.with_reasons(n)),
        StepResult::Saturated(d) => StepResult::Saturated(d.with_reasons(n)),
        StepResult::Split(d, k, g, j) => StepResult::Split(d.with_reasons(n), k, g, j),
        _ => o,
    }
}

// Two lists of string terms resolved; a Split's atoms are the first words of `list`.
pub fn resolve_unchecked<'a>(
    terms: &mut [u32],
    cells: &mut [u32],
    chars: &mut [u32],
    reasons: &mut [u32],
    keys: &mut [u32],
    c: State,
    lhs: &'a [u32],
    rhs: &'a [u32],
    guard: i32,
    list: &mut [u32],
) -> Result<StepResult, Refusal>
    requires ready { Ready (lent terms.old cells.old chars.old reasons.old keys.old) c }
    requires both_lists { BothLists (store_of (lent terms.old cells.old chars.old reasons.old keys.old) c) lhs.now rhs.now }
    requires guard_value { is_guard guard ≡ true }
    requires list_limit_in_bounds { list_limit ≤ length list.old }
    ensures { Does (resolve lhs.now rhs.now guard) (across (changing terms) (changing cells) (changing chars) (changing reasons) (changing keys)) c (resolved result into changing list) }
{
    let o = run(terms, cells, chars, reasons, keys, c, lhs, rhs, guard, list)?;
    Ok(close(c.reasons, o))
}
