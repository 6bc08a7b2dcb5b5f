// The audit of classes by roots that are kept. Terms of one class share their way up to its root, and it can be as long as there are terms: so
// the roots that were climbed to are kept by number, and a climb stops at a term whose root is kept.
ghost use Rattle.std.specs.Prelude.{ℕ, ◌≡◌, true, ◌≤◌, ◌<◌, set};
ghost use Rattle.records.specs.Store.{within, climb, class_up, forest_up, root_in, top_in};
ghost use Rattle.records.specs.View.{term_limit, terms_view, termed};
ghost use Rattle.records.specs.Rules.{each_term, parents_rule};
ghost use Rattle.records.specs.Working.Leaves.{class_test};
ghost use Rattle.records.specs.Working.Audited.{Closed, Steps};
ghost use Rattle.records.specs.Working.ClimbEnds.{Ends, Kept, Tested};

use crate::{State, classes, fields};

// Where following parents ends, as climb_unchecked has it.
fn kept_end_unchecked<F: Fn(u32) -> u32>(n: usize, t: u32, ends: &[u32; 513], parent: F) -> u32
    requires callable { F.IsAlwaysCallable parent }
    requires limited { n ≤ term_limit }
    requires here { within n t ≡ true }
    requires steps { (up : ℕ → ℕ) × Steps (F.post parent) up n }
    ensures { (up : ℕ → ℕ) → Steps (F.post parent) up n → Ends up n ends.now → result ≡ climb up n t }
{
    let mut x = t;
    for _ in 0..n {
        let r = ends[x as usize];
        if r != 0 {
            return r;
        }
        let y = parent(x);
        if y == x {
            return x;
        }
        x = y;
    }
    x
}

// The root of t's class, as root_unchecked has it.
pub fn kept_root_unchecked(terms: &[u32], n: usize, t: u32, roots: &[u32; 513]) -> u32
    requires n_le_term_limit { n ≤ term_limit }
    requires t_value { within n t ≡ true }
    requires closed { Closed (class_up (terms_view terms.now n)) n }
    requires ends { Ends (class_up (terms_view terms.now n)) n roots.now }
    ensures { result ≡ root_in (terms_view terms.now n) t }
{
    kept_end_unchecked(n, t, roots, |x| fields::class_parent(terms, x))
}

// The root of t's tree in the forest, likewise.
fn kept_top_unchecked(terms: &[u32], n: usize, t: u32, tops: &[u32; 513]) -> u32
    requires limited { n ≤ term_limit }
    requires here { within n t ≡ true }
    requires closed { Closed (forest_up (terms_view terms.now n)) n }
    requires ends { Ends (forest_up (terms_view terms.now n)) n tops.now }
    ensures { result ≡ top_in (terms_view terms.now n) t }
{
    kept_end_unchecked(n, t, tops, |x| fields::forest_parent(terms, x))
}

// One end for two terms.
fn keep_end(t: u32, x: u32, end: u32, table: &mut [u32; 513])
    requires { (t < 513) × (x < 513) }
    ensures { table.new ≡ set (set table.old t end) x end }
{
    table[t as usize] = end;
    table[x as usize] = end;
}

// Roots are kept once they are known to be their own parents: where a climb does not end, the term that it stops at depends on where it began.
fn class_kept_ok(
    terms: &[u32],
    c: State,
    t: u32,
    roots: &mut [u32; 513],
    tops: &mut [u32; 513],
) -> bool
    requires limited { c.terms ≤ term_limit }
    requires here { within c.terms t ≡ true }
    requires parents { let s = termed terms.now c in each_term s (parents_rule s) ≡ true }
    requires kept { let s = termed terms.now c in Kept s c.terms roots.old tops.old }
    ensures { Tested (termed terms.now c) c.terms t result roots.new tops.new }
{
    let r = kept_root_unchecked(terms, c.terms, t, roots);
    let q = kept_top_unchecked(terms, c.terms, t, tops);
    let p = kept_root_unchecked(terms, c.terms, q, roots);
    let u = kept_top_unchecked(terms, c.terms, r, tops);
    if !classes::rooted_ok(terms, c, t, r, q, p, u) {
        return false;
    }
    keep_end(t, q, r, roots);
    keep_end(t, r, q, tops);
    true
}

pub(crate) fn classes_many(terms: &[u32], c: State) -> bool
    requires { let s = termed terms.now c in (c.terms ≤ term_limit) × (each_term s (parents_rule s) ≡ true) }
    ensures { let s = termed terms.now c in result ≡ each_term s (class_test s) }
{
    let mut roots: [u32; 513] = [0; 513];
    let mut tops: [u32; 513] = [0; 513];
    for t in 1..=c.terms as u32 {
        if !class_kept_ok(terms, c, t, &mut roots, &mut tops) {
            return false;
        }
    }
    true
}
