// Class roots and forest paths, and the audit of classes and congruence edges (refusals 3 and 4).
ghost use Rattle.std.specs.Prelude.{ℕ, ◌≡◌, true, not, ◌&&◌, ◌||◌, ◌≤◌, eqb};
ghost use Rattle.records.specs.Lists.{all, Every};
ghost use Rattle.records.specs.Working.Leaves.{levels, Lifted};
ghost use Rattle.records.specs.Store.{within, chain_in, class_up, forest_up, root_in, top_in, root, top, nearest_in, climb};
ghost use Rattle.records.specs.View.{term_limit, terms_view, cells_view, termed, chained};
ghost use Rattle.records.specs.Rules.{each_term, parents_rule, ends_rule, edge_label, label_rule, classes_rule, falls_rule, congruence_rule, edge_rule, congruences_rule};
ghost use Rattle.records.specs.Working.Leaves.{alone_at, class_test, pair_words, pair_meets};
ghost use Rattle.records.specs.Working.Audited.{Closed, Steps, Rooted, Pathed, TermPair, Congruable};
ghost use Rattle.records.specs.Working.Heights.{Heights, Told};

use crate::{Kind, Label, State, fields, heights, roots, rules};

// Where following parents ends, in the forest or in the class. A climb that does not end, in a store that fails the audit, stops after n
// steps.
fn climb_unchecked<F: Fn(u32) -> u32>(n: usize, t: u32, parent: F) -> u32
    requires callable { F.IsAlwaysCallable parent }
    requires here { within n t ≡ true }
    ensures { (up : ℕ → ℕ) → Steps (F.post parent) up n → result ≡ climb up n t }
{
    let mut x = t;
    for _ in 0..n {
        let y = parent(x);
        if y == x {
            return x;
        }
        x = y;
    }
    x
}

// The root of a term's class.
pub fn root_unchecked(terms: &[u32], n: usize, t: u32) -> u32
    requires { (within n t ≡ true) × Closed (class_up (terms_view terms.now n)) n }
    ensures { result ≡ root_in (terms_view terms.now n) t }
{
    climb_unchecked(n, t, |x| fields::class_parent(terms, x))
}

// The root of a term's tree in the forest.
pub fn top_unchecked(terms: &[u32], n: usize, t: u32) -> u32
    requires { (within n t ≡ true) × Closed (forest_up (terms_view terms.now n)) n }
    ensures { result ≡ top_in (terms_view terms.now n) t }
{
    climb_unchecked(n, t, |x| fields::forest_parent(terms, x))
}

// Goes up from t as many steps as y is below the root of its tree.
fn lift(terms: &[u32], n: usize, t: u32, y: u32) -> u32
    requires { Pathed terms.now n × (within n t ≡ true) × (within n y ≡ true) × (levels (terms_view terms.now n) y ≤ levels (terms_view terms.now n) t) }
    ensures { Lifted terms.now n t y result }
{
    let mut z = t;
    let mut w = y;
    loop {
        let q = fields::forest_parent_unchecked(terms, w);
        if q == w {
            return z;
        }
        w = q;
        z = fields::forest_parent_unchecked(terms, z);
    }
}

// The nearest shared forest ancestor of two terms with equally many above them, or 0.
fn meet(terms: &[u32], n: usize, a: u32, b: u32) -> u32
    requires { Pathed terms.now n × (within n a ≡ true) × (within n b ≡ true) × (levels (terms_view terms.now n) a ≡ levels (terms_view terms.now n) b) }
    ensures { result ≡ nearest_in (terms_view terms.now n) a b }
{
    let mut x = a;
    let mut y = b;
    while x != y {
        let p = fields::forest_parent_unchecked(terms, x);
        if p == x {
            return 0;
        }
        x = p;
        y = fields::forest_parent_unchecked(terms, y);
    }
    x
}

// The nearest shared forest ancestor of a and b, or 0 where they are in two trees. Both are climbed from at once; what the one has more
// above it than the other it is lifted by, and then the two go up until they meet. No table is needed, which a walk within a walk would
// keep on the stack.
pub fn nearest_unchecked(terms: &[u32], n: usize, a: u32, b: u32) -> u32
    requires { Pathed terms.now n × (within n a ≡ true) × (within n b ≡ true) }
    ensures { result ≡ nearest_in (terms_view terms.now n) a b }
{
    let mut x = a;
    let mut y = b;
    loop {
        let p = fields::forest_parent_unchecked(terms, x);
        if p == x {
            let z = lift(terms, n, b, y);
            return meet(terms, n, a, z);
        }
        let q = fields::forest_parent_unchecked(terms, y);
        if q == y {
            let z = lift(terms, n, a, x);
            return meet(terms, n, z, b);
        }
        x = p;
        y = q;
    }
}

// THE AUDIT OF CLASSES

fn parents_ok(terms: &[u32], c: State, t: u32) -> bool
    requires { within c.terms t ≡ true }
    ensures { result ≡ parents_rule (termed terms.now c) t }
{
    rules::is_within(c.terms, fields::class_parent(terms, t))
        && rules::is_within(c.terms, fields::forest_parent(terms, t))
}

fn parents_hold(terms: &[u32], c: State) -> bool
    requires { c.terms ≤ term_limit }
    ensures { let s = termed terms.now c in result ≡ each_term s (parents_rule s) }
{
    for t in 1..=c.terms as u32 {
        if !parents_ok(terms, c, t) {
            return false;
        }
    }
    true
}

// r is the root of t's class and q the root of its tree: each is its own parent.
fn ends_ok(terms: &[u32], c: State, t: u32, r: u32, q: u32) -> bool
    requires { Rooted (termed terms.now c) c.terms t r q }
    ensures { result ≡ ends_rule (termed terms.now c) t }
{
    fields::class_parent(terms, r) == r && fields::forest_parent(terms, q) == q
}

// p is the class root of q and u the forest root of r.
fn alike_ok(r: u32, q: u32, p: u32, u: u32) -> bool
    ensures { result ≡ (eqb p r && eqb u q) }
{
    p == r && u == q
}

fn edge_label_ok(k: u32, v: u32) -> bool
    ensures { result ≡ edge_label k v }
{
    (rules::is_reason_kind(k) && rules::is_number(v))
        || k == u32::from(Label::Congruence)
        || (k == u32::from(Label::Definitional) && v == 0)
}

fn label_ok(terms: &[u32], c: State, t: u32) -> bool
    requires { within c.terms t ≡ true }
    ensures { result ≡ label_rule (termed terms.now c) t }
{
    let k = fields::label_kind(terms, t);
    let v = fields::label_value(terms, t);
    if fields::forest_parent(terms, t) == t {
        k == 0 && v == 0 && fields::stamp(terms, t) == 0
    } else {
        edge_label_ok(k, v)
    }
}

fn alone_ok(terms: &[u32], c: State, t: u32) -> bool
    requires { within c.terms t ≡ true }
    ensures { result ≡ alone_at (termed terms.now c) t }
{
    let p = fields::class_parent(terms, t);
    p == t || (rules::is_string(terms, c.terms, t) && rules::is_string(terms, c.terms, p))
}

// One term's tests, with the roots that were climbed to at hand.
pub(crate) fn rooted_ok(terms: &[u32], c: State, t: u32, r: u32, q: u32, p: u32, u: u32) -> bool
    requires rooted { let s = termed terms.now c in Rooted s c.terms t r q }
    requires root_is { let s = termed terms.now c in p ≡ root s q }
    requires top_is { let s = termed terms.now c in u ≡ top s r }
    ensures { result ≡ class_test (termed terms.now c) t }
{
    ends_ok(terms, c, t, r, q)
        && alike_ok(r, q, p, u)
        && label_ok(terms, c, t)
        && alone_ok(terms, c, t)
}

fn class_ok(terms: &[u32], c: State, t: u32) -> bool
    requires { let s = termed terms.now c in (within c.terms t ≡ true) × (each_term s (parents_rule s) ≡ true) }
    ensures { result ≡ class_test (termed terms.now c) t }
{
    let r = root_unchecked(terms, c.terms, t);
    let q = top_unchecked(terms, c.terms, t);
    let p = root_unchecked(terms, c.terms, q);
    let u = top_unchecked(terms, c.terms, r);
    rooted_ok(terms, c, t, r, q, p, u)
}

fn classes_few(terms: &[u32], c: State) -> bool
    requires { let s = termed terms.now c in (c.terms ≤ term_limit) × (each_term s (parents_rule s) ≡ true) }
    ensures { let s = termed terms.now c in result ≡ each_term s (class_test s) }
{
    for t in 1..=c.terms as u32 {
        if !class_ok(terms, c, t) {
            return false;
        }
    }
    true
}

// Tables of roots have to be cleared at each call, so few terms go without.
fn classes_hold(terms: &[u32], c: State) -> bool
    requires { let s = termed terms.now c in (c.terms ≤ term_limit) × (each_term s (parents_rule s) ≡ true) }
    ensures { let s = termed terms.now c in result ≡ each_term s (class_test s) }
{
    if c.terms < 32 {
        classes_few(terms, c)
    } else {
        roots::classes_many(terms, c)
    }
}

// Refusal 3 is not due.
pub fn classes_ok_unchecked(terms: &[u32], c: State) -> bool
    requires { c.terms ≤ term_limit }
    ensures { result ≡ classes_rule (termed terms.now c) }
{
    parents_hold(terms, c) && classes_hold(terms, c)
}

// THE AUDIT OF CONGRUENCE EDGES

fn both_ended(n: usize, y: u32, z: u32) -> bool
    ensures { result ≡ (not (within n y) && not (within n z)) }
{
    !rules::is_within(n, y) && !rules::is_within(n, z)
}

fn pair_meets(cells: &[u32], n: usize, x: u32, y: u32, z: u32) -> bool
    requires { within n x ≡ true }
    ensures { result ≡ pair_meets (cells_view cells.now n) x y z }
{
    rules::is_within(n, y)
        && rules::is_within(n, z)
        && fields::value(cells, x) == fields::value(cells, y)
        && fields::other(cells, x) == fields::value(cells, z)
}

// The pair chain from p against the chains from a and b. A chain has at most as many cells as there are, so the walk ends.
fn pairs_ok(cells: &[u32], n: usize, p: u32, a: u32, b: u32) -> bool
    ensures { let cs = cells_view cells.now n in result ≡ pair_words (chain_in cs p) (chain_in cs a) (chain_in cs b) }
{
    let mut x = p;
    let mut y = a;
    let mut z = b;
    for _ in 0..n {
        if !rules::is_within(n, x) {
            return both_ended(n, y, z);
        }
        if !pair_meets(cells, n, x, y, z) {
            return false;
        }
        x = fields::next(cells, x);
        y = fields::next(cells, y);
        z = fields::next(cells, z);
    }
    true
}

// Every pair of the chain from p has a path whose stamps are below m.
fn falls_hold(terms: &[u32], cells: &[u32], c: State, m: u32, p: u32, heights: &mut [usize]) -> bool
    requires pathed { Pathed terms.now c.terms }
    requires every { Every (TermPair c.terms) (chain_in (cells_view cells.now c.cells) p) }
    requires heights { Heights (termed terms.now c) cells.now heights.old }
    ensures { let s = termed terms.now c in Told s cells.now heights.new result (all (falls_rule s m) (chain_in (cells_view cells.now c.cells) p)) }
{
    let mut x = p;
    for _ in 0..c.cells {
        if !rules::is_within(c.cells, x) {
            return true;
        }
        if (m as usize) < heights::kept_height(terms, cells, c, x, heights) {
            return false;
        }
        x = fields::next(cells, x);
    }
    true
}

fn pairs_either_ok(cells: &[u32], n: usize, p: u32, a: u32, b: u32) -> bool
    ensures { let cs = cells_view cells.now n in result ≡ (pair_words (chain_in cs p) (chain_in cs a) (chain_in cs b) || pair_words (chain_in cs p) (chain_in cs b) (chain_in cs a)) }
{
    pairs_ok(cells, n, p, a, b) || pairs_ok(cells, n, p, b, a)
}

fn congruence_ok(terms: &[u32], cells: &[u32], c: State, t: u32, heights: &mut [usize]) -> bool
    requires congruable { Congruable terms.now cells.now c }
    requires here { within c.terms t ≡ true }
    requires heights { Heights (termed terms.now c) cells.now heights.old }
    ensures { Told (termed terms.now c) cells.now heights.new result (congruence_rule (chained terms.now cells.now c) t) }
{
    let u = fields::forest_parent(terms, t);
    let p = fields::label_value(terms, t);
    let a = fields::first(terms, t);
    let b = fields::first(terms, u);
    fields::is_a(terms, t, Kind::Concatenation)
        && fields::is_a(terms, u, Kind::Concatenation)
        && pairs_either_ok(cells, c.cells, p, a, b)
        && falls_hold(terms, cells, c, fields::stamp(terms, t), p, heights)
}

fn edge_ok(terms: &[u32], cells: &[u32], c: State, t: u32, heights: &mut [usize]) -> bool
    requires congruable { Congruable terms.now cells.now c }
    requires here { within c.terms t ≡ true }
    requires heights { Heights (termed terms.now c) cells.now heights.old }
    ensures { Told (termed terms.now c) cells.now heights.new result (edge_rule (chained terms.now cells.now c) t) }
{
    fields::forest_parent(terms, t) == t
        || fields::label_kind(terms, t) != u32::from(Label::Congruence)
        || congruence_ok(terms, cells, c, t, heights)
}

fn edges_ok(terms: &[u32], cells: &[u32], c: State, heights: &mut [usize]) -> bool
    requires congruable { Congruable terms.now cells.now c }
    requires heights { Heights (termed terms.now c) cells.now heights.old }
    ensures { result ≡ congruences_rule (chained terms.now cells.now c) }
{
    for t in 1..=c.terms as u32 {
        if !edge_ok(terms, cells, c, t, heights) {
            return false;
        }
    }
    true
}

// Refusal 4 is not due, where refusals 1 to 3 are not. A table of heights has to be cleared, so few cells go without.
pub fn congruences_ok_unchecked(terms: &[u32], cells: &[u32], c: State) -> bool
    requires { Congruable terms.now cells.now c }
    ensures { result ≡ congruences_rule (chained terms.now cells.now c) }
{
    if c.cells < 64 {
        edges_ok(terms, cells, c, &mut [])
    } else if c.cells < 512 {
        edges_ok(terms, cells, c, &mut [0; 512])
    } else {
        edges_ok(terms, cells, c, &mut [0; 2049])
    }
}
