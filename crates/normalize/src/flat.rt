// Flattening: the atoms of nested concatenations, appended to a list in a lent slice.
ghost use Rattle.std.specs.Prelude.{[], ◌∷◌, ◌≤◌, length};
ghost use Rattle.normalize.specs.Normalize.{atoms};
ghost use Rattle.records.specs.Rules.{list_limit};
ghost use Rattle.normalize.specs.Working.Flat.{bare, Nested, Appended};

use held::chains;
use held::chains::Link;
use records::{Kind, LIST_LIMIT, fields, rules};

// One atom more; a list that is full passes the limit.
fn push_atom(out: &mut [u32], count: usize, t: u32) -> usize
    requires count_le_list_limit { count ≤ list_limit }
    requires list_limit_in_bounds { list_limit ≤ length out.old }
    ensures { Appended out.old out.new count (t ∷ []) result }
{
    if count < LIST_LIMIT {
        out[count] = t;
        count + 1
    } else {
        LIST_LIMIT + 1
    }
}

// The atoms of t after the first `count` words. Nothing is walked past the first atom that does not fit.
pub fn flatten_unchecked(
    terms: &[u32],
    n: usize,
    cells: &[u32],
    m: usize,
    t: u32,
    out: &mut [u32],
    count: usize,
) -> usize
    requires nested { Nested (bare terms.now n cells.now m) }
    requires count_le_list_limit { count ≤ list_limit }
    requires list_limit_in_bounds { list_limit ≤ length out.old }
    ensures { Appended out.old out.new count (atoms (bare terms.now n cells.now m) t) result }
{
    if !rules::is_a(terms, n, t, Kind::Concatenation) {
        return push_atom(out, count, t);
    }
    let mut at = fields::first(terms, t);
    let mut k = count;
    while let Link::Cell(v, _, next) = chains::next_link(cells, at, m) {
        k = flatten_unchecked(terms, n, cells, m, v, out, k);
        if LIST_LIMIT < k {
            return k;
        }
        at = next;
    }
    k
}
