// The classes of a store changed: two of them joined under a reason, a mark set, and going back to a mark; and `merge`, which puts a class
// under a term of another as `labelstep` does for its command `M child parent n`.
#![tactic(auto)]

ghost use Rattle.std.specs.Prelude.{◌≡◌, true, ◌≤◌, ◌<◌, length};
ghost use Rattle.records.specs.Store.{within};
ghost use Rattle.records.specs.View.{store_of, term_at, terms_view, term_words, termed, across, Between, changing, lent};
ghost use Rattle.records.specs.Working.Puts.{TermSet};
ghost use Rattle.records.specs.Working.Audited.{Ready};
ghost use Rattle.classes.specs.Marks.{mark_limit};
ghost use Rattle.classes.specs.Calls.{join_arguments, set_mark, go_back, Marked, Tracks, PublicJoin};
ghost use Rattle.classes.specs.Working.Doing.{ReadyMarks, WorkingMarks, WorkingJoin};
ghost use Rattle.classes.specs.Merge.{is_root_in, can_merge, under, PublicMerge};

use crate::links::link_unchecked;
use crate::trail::{
    MARK_LIMIT, audit, record_join_unchecked, record_mark_unchecked, undo_to_unchecked,
};
use records::classes::{root_unchecked, top_unchecked};
use records::fields::{class_parent, forest_parent, wide, word};
use records::put::{put_class_parent_unchecked, put_edge_unchecked};
use records::rules::{is_number, is_reason_kind, is_string, is_within};
use records::{Label, Refusal, State};

mod links;
pub mod trail;

// Whether a term of the first n is its own parent, in its class and in the forest.
fn is_root(terms: &[u32], n: usize, t: u32) -> bool
    requires { within n t ≡ true }
    ensures { result ≡ is_root_in (terms_view terms.now n) t }
{
    class_parent(terms, t) == t && forest_parent(terms, t) == t
}

// Whether two classes can be merged so.
fn can_merge_unchecked(
    terms: &[u32],
    cells: &[u32],
    chars: &[u32],
    reasons: &[u32],
    keys: &[u32],
    c: State,
    child: u32,
    parent: u32,
    n: u32,
) -> bool
    requires { Ready (lent terms.now cells.now chars.now reasons.now keys.now) c }
    ensures { result ≡ can_merge child parent n (store_of (across terms cells chars reasons keys).entry c) }
{
    is_string(terms, c.terms, child)
        && is_string(terms, c.terms, parent)
        && is_number(n)
        && is_root(terms, c.terms, child)
        && root_unchecked(terms, c.terms, child) != root_unchecked(terms, c.terms, parent)
}

// The child's record, under the parent.
fn put_under_unchecked(terms: &mut [u32], child: u32, parent: u32, n: u32, stamp: u32)
    requires { term_words child ≤ length terms.old }
    ensures { TermSet terms.old terms.new child (under (term_at terms.old child) parent n stamp) }
{
    put_class_parent_unchecked(terms, child, parent);
    put_edge_unchecked(terms, child, parent, Label::Asserted.into(), n, stamp);
}

// Puts the child's class under the parent. The caller's stamps count up.
pub fn merge(
    terms: &mut [u32],
    cells: &[u32],
    chars: &[u32],
    reasons: &[u32],
    keys: &[u32],
    c: State,
    child: u32,
    parent: u32,
    n: u32,
    stamp: u32,
) -> Result<(), Refusal>
    ensures { Between PublicMerge (across (changing terms) cells chars reasons keys) c child parent n stamp result }
{
    records::audit(terms, cells, chars, reasons, keys, c)?;
    if !can_merge_unchecked(terms, cells, chars, reasons, keys, c, child, parent, n) {
        return Err(Refusal::Argument);
    }
    put_under_unchecked(terms, child, parent, n, stamp);
    Ok(())
}

// How many marks stand, and how many joins were recorded since the first of them.
#[derive(Clone, Copy)]
pub struct Standing {
    pub marks: usize,
    pub joins: usize,
}

// JOINING, MARKS, GOING BACK

// Whether two terms can be joined under a reason: string terms, and a reason that a caller can give.
fn can_join(terms: &[u32], c: State, a: u32, b: u32, kind: u32, number: u32) -> bool
    ensures { result ≡ join_arguments a b kind number (termed terms.now c) }
{
    is_string(terms, c.terms, a)
        && is_string(terms, c.terms, b)
        && is_reason_kind(kind)
        && is_number(number)
}

// What joining answers over store and marks that pass: 1 where it joined, 0 where the terms are in one class already; and the counts after it.
#[derive(Clone, Copy)]
pub struct Joining {
    pub answer: u32,
    pub standing: Standing,
}

// THE WORKING FORMS: over store and marks that pass, with arguments that fit. They leave store and marks that pass, and none of them refuses.

// Joins two terms.
pub fn join_unchecked(
    terms: &mut [u32],
    cells: &[u32],
    chars: &[u32],
    reasons: &[u32],
    keys: &[u32],
    c: State,
    marks: &mut [u32],
    d: Standing,
    a: u32,
    b: u32,
    kind: u32,
    number: u32,
) -> Joining
    requires ready_marks { ReadyMarks (lent terms.old cells.now chars.now reasons.now keys.now) marks.old c d }
    requires c_value { join_arguments a b kind number (store_of (lent terms.old cells.now chars.now reasons.now keys.now) c) ≡ true }
    ensures { Marked (WorkingJoin a b kind number) (across (changing terms) cells chars reasons keys) (changing marks) c d result.answer result.standing }
{
    let under = root_unchecked(terms, c.terms, a);
    let over = root_unchecked(terms, c.terms, b);
    if under == over {
        return Joining {
            answer: 0,
            standing: d,
        };
    }
    let old = top_unchecked(terms, c.terms, a);
    let e = record_join_unchecked(marks, d, a, old, under);
    link_unchecked(terms, c.terms, a, b, under, over, kind, number);
    Joining {
        answer: 1,
        standing: e,
    }
}

// Sets a mark, which is the last that stands: its number is the count of marks.
pub fn set_mark_unchecked(
    terms: &[u32],
    cells: &[u32],
    chars: &[u32],
    reasons: &[u32],
    keys: &[u32],
    c: State,
    marks: &mut [u32],
    d: Standing,
) -> Standing
    requires ready_marks { ReadyMarks (lent terms.now cells.now chars.now reasons.now keys.now) marks.old c d }
    requires marks_lt_mark_limit { d.marks < mark_limit }
    ensures { Marked (WorkingMarks set_mark) (across terms cells chars reasons keys) (changing marks) c d result.marks result }
{
    record_mark_unchecked(marks, d)
}

// Goes back to a mark that stands. Marks that pass lead to a table, so the answer whether there is one is not looked at.
pub fn go_back_unchecked(
    terms: &mut [u32],
    cells: &[u32],
    chars: &[u32],
    reasons: &[u32],
    keys: &[u32],
    c: State,
    marks: &[u32],
    d: Standing,
    mark: u32,
) -> Standing
    requires ready_marks { ReadyMarks (lent terms.old cells.now chars.now reasons.now keys.now) marks.now c d }
    requires mark_value { within d.marks mark ≡ true }
    ensures { Marked (WorkingMarks (go_back mark)) (across (changing terms) cells chars reasons keys) marks c d mark result }
{
    let left = wide(mark) - 1;
    let joins = wide(word(marks, left));
    undo_to_unchecked(terms, c.terms, marks, d.joins, joins);
    Standing { marks: left, joins }
}

// THE CALLS

// Each answers a number, with the counts after the call.

// Joins two string terms under a reason: kind 1 asserted or 2 interface, and its number.
pub fn join(
    terms: &mut [u32],
    cells: &[u32],
    chars: &[u32],
    reasons: &[u32],
    keys: &[u32],
    c: State,
    marks: &mut [u32],
    d: Standing,
    a: u32,
    b: u32,
    kind: u32,
    number: u32,
) -> Result<(u32, Standing), Refusal>
    ensures { Marked (PublicJoin a b kind number) (across (changing terms) cells chars reasons keys) (changing marks) c d result }
{
    audit(terms, cells, chars, reasons, keys, c, marks, d)?;
    if !can_join(terms, c, a, b, kind, number) {
        return Err(Refusal::Argument);
    }
    let r = join_unchecked(
        terms, cells, chars, reasons, keys, c, marks, d, a, b, kind, number,
    );
    Ok((r.answer, r.standing))
}

// Sets a mark and answers its number.
pub fn set_mark(
    terms: &[u32],
    cells: &[u32],
    chars: &[u32],
    reasons: &[u32],
    keys: &[u32],
    c: State,
    marks: &mut [u32],
    d: Standing,
) -> Result<(u32, Standing), Refusal>
    ensures { Marked (Tracks set_mark) (across terms cells chars reasons keys) (changing marks) c d result }
{
    audit(terms, cells, chars, reasons, keys, c, marks, d)?;
    if d.marks >= MARK_LIMIT {
        return Err(Refusal::Mark);
    }
    let e = set_mark_unchecked(terms, cells, chars, reasons, keys, c, marks, d);
    Ok((e.marks as u32, e))
}

// Goes back to a mark, which uses up that mark and later ones.
pub fn go_back(
    terms: &mut [u32],
    cells: &[u32],
    chars: &[u32],
    reasons: &[u32],
    keys: &[u32],
    c: State,
    marks: &[u32],
    d: Standing,
    mark: u32,
) -> Result<(u32, Standing), Refusal>
    ensures { Marked (Tracks (go_back mark)) (across (changing terms) cells chars reasons keys) marks c d result }
{
    audit(terms, cells, chars, reasons, keys, c, marks, d)?;
    if !is_within(d.marks, mark) {
        return Err(Refusal::Mark);
    }
    let e = go_back_unchecked(terms, cells, chars, reasons, keys, c, marks, d, mark);
    Ok((mark, e))
}
