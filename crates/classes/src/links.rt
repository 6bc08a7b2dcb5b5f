// Edges of the forest, as words: a class put under another by a new edge, and a join undone. Both turn round the edges on the way to a root.
ghost use Rattle.std.specs.Prelude.{◌≡◌, suc};
ghost use Rattle.records.specs.View.{terms_view};
ghost use Rattle.classes.specs.Joins.{edge, trace, join_in, is_trace, cut_in, undo_in};
ghost use Rattle.classes.specs.Working.Carries.{carry_by, TermsBecome, Carriable, Tabled, Linkable, Cuttable, Undoes};

use records::fields;
use records::put::{put_class_parent_unchecked, put_edge_unchecked};
use records::rules::is_within;

// Re-roots x's tree at x, and gives x an edge: each term on the way up gets what is carried, and its own edge, turned round, is carried on.
fn carry_unchecked(
    terms: &mut [u32],
    n: usize,
    x: u32,
    parent: u32,
    kind: u32,
    value: u32,
    stamp: u32,
)
    requires { Carriable terms.old n x parent }
    ensures { TermsBecome terms.old terms.new n (carry_by (suc n) (terms_view terms.old n) x (edge parent kind value stamp)) }
{
    let mut at = x;
    let mut below = parent;
    let mut k = kind;
    let mut v = value;
    let mut m = stamp;
    for _ in 0..=n {
        let above = fields::forest_parent(terms, at);
        let its_kind = fields::label_kind(terms, at);
        let its_value = fields::label_value(terms, at);
        let its_stamp = fields::stamp(terms, at);
        put_edge_unchecked(terms, at, below, k, v, m);
        if above == at {
            return;
        }
        below = at;
        at = above;
        k = its_kind;
        v = its_value;
        m = its_stamp;
    }
}

// Joins the classes of a and b, whose roots are given, by an edge between a and b: a the child, its stamp 0.
pub(crate) fn link_unchecked(
    terms: &mut [u32],
    n: usize,
    a: u32,
    b: u32,
    under: u32,
    over: u32,
    kind: u32,
    number: u32,
)
    requires { Linkable terms.old n a b under over }
    ensures { TermsBecome terms.old terms.new n (join_in (terms_view terms.old n) a b kind number) }
{
    put_class_parent_unchecked(terms, under, over);
    carry_unchecked(terms, n, a, b, kind, number, 0);
}

// Cuts the edge of a child, gives its tree its old root, and makes a class root its own parent.
fn cut_unchecked(terms: &mut [u32], n: usize, child: u32, old: u32, under: u32)
    requires { Cuttable terms.old n (trace child old under) }
    ensures { TermsBecome terms.old terms.new n (cut_in (terms_view terms.old n) (trace child old under)) }
{
    put_edge_unchecked(terms, child, child, 0, 0, 0);
    carry_unchecked(terms, n, old, old, 0, 0, 0);
    put_class_parent_unchecked(terms, under, under);
}

// Whether three numbers can be the trace of a join: terms, an edge, and a class parent other than itself.
fn is_trace(terms: &[u32], n: usize, child: u32, old: u32, under: u32) -> bool
    ensures { result ≡ is_trace (terms_view terms.now n) (trace child old under) }
{
    is_within(n, child)
        && is_within(n, old)
        && is_within(n, under)
        && fields::forest_parent(terms, child) != child
        && fields::class_parent(terms, under) != under
}

// Undoes a join by its trace; false where it is none.
pub(crate) fn undo_unchecked(terms: &mut [u32], n: usize, child: u32, old: u32, under: u32) -> bool
    requires { Tabled terms.old n }
    ensures { Undoes terms.old terms.new n (undo_in (terms_view terms.old n) (trace child old under)) result }
{
    if !is_trace(terms, n, child, old, under) {
        return false;
    }
    cut_unchecked(terms, n, child, old, under);
    true
}
