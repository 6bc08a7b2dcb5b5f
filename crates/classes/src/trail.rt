// The words lent for marks: their audit, a join or a mark recorded, and joins undone.
ghost use Rattle.std.specs.Prelude.{◌≡◌, true, ◌&&◌, ◌+◌, ◌<◌, ◌≤◌, length, get_or, drop};
ghost use Rattle.records.specs.Lists.{all, one_more, table};
ghost use Rattle.records.specs.View.{term_limit, term_words, terms_view, chained, across, changing, lent};
ghost use Rattle.records.specs.Refusal.{verdict};
ghost use Rattle.records.specs.Store.{within};
ghost use Rattle.records.specs.Rules.{classes_rule, congruences_rule};
ghost use Rattle.classes.specs.Joins.{trace, undo_in};
ghost use Rattle.classes.specs.Marks.{join_limit, mark_limit, trace_place, trace_at, trail_of, trail_sizes, undo_all, table_at, counts_rule, passes, marks_rule, audit_marks};
ghost use Rattle.classes.specs.Calls.{recorded};
ghost use Rattle.classes.specs.Working.Carries.{Tabled, Undoes, Markable, Copied, TrailSized, Trailed};

use crate::Standing;
use crate::links::undo_unchecked;
use records::classes::{classes_ok_unchecked, congruences_ok_unchecked};
use records::fields::{wide, word};
use records::rules::is_within;
use records::{BUCKETS, Refusal, State, TERM_SLICE, TERM_WIDTH};

pub const MARK_LIMIT: usize = 64;

pub const JOIN_LIMIT: usize = 511;

// The marks, and three words for each join.
pub const MARK_WORDS: usize = 1597;

// READING AND RECORDING

// Word k of join j.
fn trace_word(marks: &[u32], j: usize, k: usize) -> u32
    requires { (j ≤ join_limit) × (k ≤ 2) }
    ensures { result ≡ get_or marks.now (trace_place j k) 0 }
{
    word(marks, MARK_LIMIT + 3 * j + k)
}

// Whether refusal 1 is not due.
fn trail_sizes(marks: &[u32], d: Standing) -> bool
    ensures { result ≡ trail_sizes marks.now d }
{
    d.marks <= MARK_LIMIT && d.joins <= JOIN_LIMIT && MARK_WORDS <= marks.len()
}

// Records a join where a mark stands.
pub(crate) fn record_join_unchecked(
    marks: &mut [u32],
    d: Standing,
    child: u32,
    old: u32,
    under: u32,
) -> Standing
    requires sized { TrailSized marks.old d }
    requires room { d.joins < join_limit }
    ensures { Trailed marks.old marks.new (recorded (trace child old under) (trail_of marks.old d)) result }
{
    if d.marks == 0 {
        return d;
    }
    let at = MARK_LIMIT + 3 * d.joins;
    marks[at] = child;
    marks[at + 1] = old;
    marks[at + 2] = under;
    Standing {
        joins: d.joins + 1,
        ..d
    }
}

// Records a mark.
pub(crate) fn record_mark_unchecked(marks: &mut [u32], d: Standing) -> Standing
    requires sized { TrailSized marks.old d }
    requires room { d.marks < mark_limit }
    ensures { let x = trail_of marks.entry.now d in Trailed marks.entry.now marks.exit.now (record { marks = one_more x.marks (length x.joins); joins = x.joins }) result }
{
    marks[d.marks] = d.joins as u32;
    Standing {
        marks: d.marks + 1,
        ..d
    }
}

// UNDOING

// Undoes join j.
fn undo_join_unchecked(terms: &mut [u32], n: usize, marks: &[u32], j: usize) -> bool
    requires tabled { Tabled terms.old n }
    requires below { j ≤ join_limit }
    ensures { Undoes terms.old terms.new n (undo_in (terms_view terms.old n) (trace_at marks.now j)) result }
{
    let child = trace_word(marks, j, 0);
    let old = trace_word(marks, j, 1);
    let under = trace_word(marks, j, 2);
    undo_unchecked(terms, n, child, old, under)
}

// Undoes the joins after the first of them, the last first; false where a record is no trace of a join. Then the terms are a table that no
// caller uses: the audit works on a copy, and going back is over marks that pass, where false does not come.
pub(crate) fn undo_to_unchecked(
    terms: &mut [u32],
    n: usize,
    marks: &[u32],
    joins: usize,
    first: usize,
) -> bool
    requires tabled { Tabled terms.old n }
    requires order { first ≤ joins }
    requires below { joins ≤ join_limit }
    ensures { Undoes terms.old terms.new n (undo_all (drop first (table (trace_at marks.now) joins)) (terms_view terms.old n)) result }
{
    for j in (first..joins).rev() {
        if !undo_join_unchecked(terms, n, marks, j) {
            return false;
        }
    }
    true
}

// THE AUDIT OF MARKS

// Whether the counts of joins start at 0, do not fall and are at most the joins recorded; and none are recorded where no mark stands.
fn counts_ok(marks: &[u32], d: Standing) -> bool
    requires { TrailSized marks.now d }
    ensures { result ≡ counts_rule (trail_of marks.now d).marks d.joins }
{
    if d.marks == 0 {
        return d.joins == 0;
    }
    if word(marks, 0) != 0 {
        return false;
    }
    let mut last: u32 = 0;
    for &n in &marks[..d.marks] {
        if n < last {
            return false;
        }
        last = n;
    }
    wide(last) <= d.joins
}

// The words of n terms, record 0 too.
fn copy_terms_unchecked(terms: &[u32], n: usize, table: &mut [u32; TERM_SLICE])
    requires few { n ≤ term_limit }
    requires room { term_words n ≤ length terms.now }
    requires whole { length table.old ≡ term_words term_limit }
    ensures { Copied terms.now table.old table.new n }
{
    let words = BUCKETS + TERM_WIDTH * (n + 1);
    table[..words].copy_from_slice(&terms[..words]);
}

// Whether refusals 3 and 4 let a table pass.
fn table_ok_unchecked(table: &[u32], cells: &[u32], c: State) -> bool
    requires { Markable table.now cells.now c }
    ensures { let s = chained table.now cells.now c in result ≡ (classes_rule s && congruences_rule s) }
{
    classes_ok_unchecked(table, c) && congruences_ok_unchecked(table, cells, c)
}

// Whether the table of every mark passes, from the last mark to the first.
fn tables_ok_unchecked(
    table: &mut [u32],
    cells: &[u32],
    c: State,
    marks: &[u32],
    d: Standing,
) -> bool
    requires markable { Markable table.old cells.now c }
    requires sized { TrailSized marks.now d }
    requires counts { counts_rule (trail_of marks.now d).marks d.joins ≡ true }
    ensures { let s = chained table.old cells.now c in let x = trail_of marks.now d in result ≡ all (λ n. passes s (table_at n x s.terms)) x.marks }
{
    let mut joins = d.joins;
    for i in (0..d.marks).rev() {
        let first = wide(word(marks, i));
        if !undo_to_unchecked(table, c.terms, marks, joins, first) {
            return false;
        }
        if !table_ok_unchecked(table, cells, c) {
            return false;
        }
        joins = first;
    }
    true
}

// Whether going back to each mark gives a table that passes. It is worked out on a copy.
fn marks_ok_unchecked(terms: &[u32], cells: &[u32], c: State, marks: &[u32], d: Standing) -> bool
    requires markable { Markable terms.now cells.now c }
    requires sized { TrailSized marks.now d }
    ensures { result ≡ marks_rule (chained terms.now cells.now c) (trail_of marks.now d) }
{
    if !counts_ok(marks, d) {
        return false;
    }
    if d.marks == 0 {
        return true;
    }
    let mut table = [0; TERM_SLICE];
    copy_terms_unchecked(terms, c.terms, &mut table);
    tables_ok_unchecked(&mut table, cells, c, marks, d)
}

// Whether what the audit of the store found comes before what is wrong with the marks: 1, 2 or 3.
fn comes_first(due: Result<(), Refusal>) -> bool
    ensures { result ≡ within 3 (verdict due) }
{
    matches!(
        due,
        Err(Refusal::Sizes | Refusal::Records | Refusal::Classes)
    )
}

// The audit of store and marks: the first refusal of 1 to 4 and 12 that is due, where 3 is the table's or the marks', before 4. Nothing is
// asked of the slices or of the counts.
pub fn audit(
    terms: &[u32],
    cells: &[u32],
    chars: &[u32],
    reasons: &[u32],
    keys: &[u32],
    c: State,
    marks: &[u32],
    d: Standing,
) -> Result<(), Refusal>
    ensures { verdict result ≡ audit_marks (across terms cells chars reasons keys).entry marks.now c d }
{
    if !trail_sizes(marks, d) {
        return Err(Refusal::Sizes);
    }
    let due = records::audit(terms, cells, chars, reasons, keys, c);
    if comes_first(due) {
        return due;
    }
    if !marks_ok_unchecked(terms, cells, c, marks, d) {
        return Err(Refusal::Classes);
    }
    due
}
