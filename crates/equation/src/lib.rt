// The step over one equation: the deep forms of its two sides, then wordeq over them.
#![tactic(auto)]

ghost use Rattle.std.specs.Prelude.{◌≡◌, true, ◌≤◌, length};
ghost use Rattle.records.specs.View.{store_of, across, termed, changing, lent};
ghost use Rattle.records.specs.Rules.{list_limit, is_list};
ghost use Rattle.records.specs.Working.Audited.{Ready};
ghost use Rattle.records.specs.Calls.{Writes, ◌into◌};
ghost use Rattle.records.specs.Working.Doing.{Does};
ghost use Rattle.normalize.specs.Normalize.{form_arguments};
ghost use Rattle.normalize.specs.Working.Pushes.{Candidates};
ghost use Rattle.sides.specs.Wordeq.{is_guard};
ghost use Rattle.sides.specs.Working.Results.{BothLists};
ghost use Rattle.equation.specs.Equation.{step, step_arguments};
ghost use Rattle.equation.specs.Calls.{stepped, PublicStep};
ghost use Rattle.equation.specs.Working.Forms.{incoming_of, resolve_forms, right_form, carried};

use normalize::deeper::{deep_form_by_unchecked, known_table_unchecked};
use records::index::cut_refused_unchecked;
use records::{Kind, LIST_LIMIT, Refusal, State, fields, rules};
use sides::StepResult;
use wordeq::resolving::resolve_unchecked;

// wordeq's answer; or Unexpanded, with the new counts.
#[derive(Clone, Copy)]
pub enum Outcome {
    Answered(StepResult),
    Unexpanded(State),
}

// Done returns the incoming count of reasons, the other cases carry those of the forms.
fn carried(o: StepResult, incoming: usize) -> StepResult
    ensures { result ≡ carried incoming o }
{
    match o {
        StepResult::Done(c) => StepResult::Done(c.with_reasons(incoming)),
        _ => o,
    }
}

// wordeq over the two forms, with their reasons incoming.
fn resolve_forms<'a>(
    terms: &mut [u32],
    cells: &mut [u32],
    chars: &mut [u32],
    reasons: &mut [u32],
    keys: &mut [u32],
    c: State,
    lhs: &'a [u32],
    rhs: &'a [u32],
    guard: i32,
    list: &mut [u32],
    incoming: usize,
) -> Result<Outcome, Refusal>
    requires ready { Ready (lent terms.old cells.old chars.old reasons.old keys.old) c }
    requires both_lists { BothLists (store_of (lent terms.old cells.old chars.old reasons.old keys.old) c) lhs.now rhs.now }
    requires guard_value { is_guard guard ≡ true }
    requires list_limit_in_bounds { (list_limit ≤ length list.old) × (incoming ≤ c.reasons) }
    ensures { Does (resolve_forms lhs.now rhs.now guard (incoming_of (changing reasons) incoming)) (across (changing terms) (changing cells) (changing chars) (changing reasons) (changing keys)) c (stepped result into changing list) }
{
    let o = resolve_unchecked(terms, cells, chars, reasons, keys, c, lhs, rhs, guard, list)?;
    Ok(Outcome::Answered(carried(o, incoming)))
}

// From the deep form of the right side on.
fn right_form(
    terms: &mut [u32],
    cells: &mut [u32],
    chars: &mut [u32],
    reasons: &mut [u32],
    keys: &mut [u32],
    c: State,
    known: &[u32],
    table: &[u32; 513],
    t: u32,
    lhs: &[u32],
    guard: i32,
    list: &mut [u32],
    incoming: usize,
) -> Result<Outcome, Refusal>
    requires ready { (Ready (lent terms.old cells.old chars.old reasons.old keys.old) c) × (Candidates (store_of (lent terms.old cells.old chars.old reasons.old keys.old) c) known.now table.now) }
    requires arguments { form_arguments known.now t (store_of (lent terms.old cells.old chars.old reasons.old keys.old) c) ≡ true }
    requires lhs_value { is_list (store_of (lent terms.old cells.old chars.old reasons.old keys.old) c) lhs.now ≡ true }
    requires guard_value { is_guard guard ≡ true }
    requires list_limit_in_bounds { (list_limit ≤ length list.old) × (incoming ≤ c.reasons) }
    ensures { Does (right_form known.now t guard lhs.now (incoming_of (changing reasons) incoming)) (across (changing terms) (changing cells) (changing chars) (changing reasons) (changing keys)) c (stepped result into changing list) }
{
    let mut right: [u32; 1024] = [0; 1024];
    let (form, both) = deep_form_by_unchecked(
        terms, cells, chars, reasons, keys, c, known, table, t, &mut right,
    )?;
    match form {
        Some(n) => resolve_forms(
            terms,
            cells,
            chars,
            reasons,
            keys,
            both,
            lhs,
            &right[..n],
            guard,
            list,
            incoming,
        ),
        None => Ok(Outcome::Unexpanded(both.with_reasons(incoming))),
    }
}

// The step over the equation e.
pub fn step_unchecked(
    terms: &mut [u32],
    cells: &mut [u32],
    chars: &mut [u32],
    reasons: &mut [u32],
    keys: &mut [u32],
    c: State,
    known: &[u32],
    e: u32,
    guard: i32,
    list: &mut [u32],
) -> Result<Outcome, Refusal>
    requires ready { Ready (lent terms.old cells.old chars.old reasons.old keys.old) c }
    requires c_value { step_arguments known.now e guard (store_of (lent terms.old cells.old chars.old reasons.old keys.old) c) ≡ true }
    requires list_limit_in_bounds { list_limit ≤ length list.old }
    ensures { Does (step known.now e guard) (across (changing terms) (changing cells) (changing chars) (changing reasons) (changing keys)) c (stepped result into changing list) }
{
    let mut left: [u32; 1024] = [0; 1024];
    let a = fields::first(terms, e);
    let b = fields::second(terms, e);
    let table = known_table_unchecked(terms, cells, chars, reasons, keys, c, known);
    let (form, d) = deep_form_by_unchecked(
        terms, cells, chars, reasons, keys, c, known, &table, a, &mut left,
    )?;
    match form {
        Some(n) => right_form(
            terms,
            cells,
            chars,
            reasons,
            keys,
            d,
            known,
            &table,
            b,
            &left[..n],
            guard,
            list,
            c.reasons,
        ),
        None => Ok(Outcome::Unexpanded(d.with_reasons(c.reasons))),
    }
}

// A list of string terms, an equation of two string terms, a guard that can be negated.
fn can_step(terms: &[u32], c: State, known: &[u32], e: u32, guard: i32) -> bool
    ensures { result ≡ step_arguments known.now e guard (termed terms.now c) }
{
    rules::is_list(terms, c, known)
        && rules::is_a(terms, c.terms, e, Kind::Equation)
        && rules::is_string(terms, c.terms, fields::first(terms, e))
        && wordeq::is_guard(guard)
}

// One step over the equation e, with the known list: the deep forms of both sides, then wordeq, its atoms in the first words of `list`.
pub fn step(
    terms: &mut [u32],
    cells: &mut [u32],
    chars: &mut [u32],
    reasons: &mut [u32],
    keys: &mut [u32],
    c: State,
    known: &[u32],
    e: u32,
    guard: i32,
    list: &mut [u32],
) -> Result<Outcome, Refusal>
    ensures { Writes (PublicStep known.now e guard) (across (changing terms) (changing cells) (changing chars) (changing reasons) (changing keys)) (changing list) c (stepped result) }
{
    if list.len() < LIST_LIMIT {
        return Err(Refusal::Sizes);
    }
    records::audit(terms, cells, chars, reasons, keys, c)?;
    if !can_step(terms, c, known, e, guard) {
        return Err(Refusal::Argument);
    }
    let o = step_unchecked(terms, cells, chars, reasons, keys, c, known, e, guard, list);
    cut_refused_unchecked(terms, c.terms, o)
}
