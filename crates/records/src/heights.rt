// How high the path of a pair is: the lowest stamp that a congruence edge with this pair may have.
ghost use Rattle.std.specs.Prelude.{◌≡◌, true, suc, ◌≤◌, max};
ghost use Rattle.records.specs.Store.{within, forest_up};
ghost use Rattle.records.specs.View.{term_limit, cell_at, terms_view, termed};
ghost use Rattle.records.specs.Working.Audited.{Closed, Pathed, TermPair};
ghost use Rattle.records.specs.Working.Heights.{Above, Height, Heights, KeptHeight};

use crate::{State, classes, fields};

// No stamp is as high.
const NEVER: usize = 8589934592;

// The higher of h and one more than m.
fn above(h: usize, m: u32) -> usize
    ensures { result ≡ max h (suc m) }
{
    h.max(m as usize + 1)
}

// The lowest number above the stamps from y up to x, x left out.
fn height_up(terms: &[u32], n: usize, y: u32, x: u32) -> usize
    requires { (n ≤ term_limit) × (within n y ≡ true) × Closed (forest_up (terms_view terms.now n)) n }
    ensures { Above terms.now n y x result }
{
    let mut z = y;
    let mut h: usize = 0;
    for _ in 0..=n {
        if z == x {
            return h;
        }
        h = above(h, fields::stamp(terms, z));
        let u = fields::forest_parent(terms, z);
        if u == z {
            return h;
        }
        z = u;
    }
    h
}

// The lowest stamp that a congruence edge with the pair {a, b} may have; NEVER where they are in two trees, so that none will do.
fn pair_height(terms: &[u32], c: State, a: u32, b: u32) -> usize
    requires { Pathed terms.now c.terms × (within c.terms a ≡ true) × (within c.terms b ≡ true) }
    ensures { Height (termed terms.now c) (a, b) result }
{
    let x = classes::nearest_unchecked(terms, c.terms, a, b);
    if x == 0 {
        NEVER
    } else {
        height_up(terms, c.terms, a, x).max(height_up(terms, c.terms, b, x))
    }
}

// The height of the pair of cell x. Edges can share their cells, so what was found is kept by the cell's number, one added: 0 is not known.
pub(crate) fn kept_height(
    terms: &[u32],
    cells: &[u32],
    c: State,
    x: u32,
    heights: &mut [usize],
) -> usize
    requires pathed { Pathed terms.now c.terms }
    requires term_pair { TermPair c.terms ((cell_at cells.now x).value, (cell_at cells.now x).other) }
    requires heights { Heights (termed terms.now c) cells.now heights.old }
    ensures { KeptHeight (termed terms.now c) cells.now heights.new x result }
{
    let i = x as usize;
    let k = heights.get(i).copied().unwrap_or(0);
    if k != 0 {
        return k - 1;
    }
    let a = fields::value(cells, x);
    let b = fields::other(cells, x);
    let h = pair_height(terms, c, a, b);
    if i < heights.len() {
        heights[i] = h + 1;
    }
    h
}
