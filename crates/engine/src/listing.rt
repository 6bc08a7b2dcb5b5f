// Whether the list of reasons has one already.
ghost use Rattle.std.specs.Prelude.{◌*◌, ◌≤◌, length};
ghost use Rattle.records.specs.View.{reason_room};
ghost use Rattle.engine.specs.Working.Listing.{Placed, Stands, Looked};

use records::{fields, put};

// The place of a pair among the first n.
fn place_of(pairs: &[u32], n: usize, a: u32, b: u32) -> Option<usize>
    requires { 2 * n ≤ length pairs.now }
    ensures { Placed pairs.now n a b result }
{
    for i in 0..n {
        if put::pair_is_unchecked(pairs, i, a, b) {
            return Some(i);
        }
    }
    None
}

// Whether the pair stands at a place, counted from 1, among the first n.
fn is_at(pairs: &[u32], n: usize, place: usize, a: u32, b: u32) -> bool
    requires { 2 * n ≤ length pairs.now }
    ensures { Stands pairs.now n a b result }
{
    0 < place && place <= n && put::pair_is_unchecked(pairs, place - 1, a, b)
}

// Whether the first n reasons have this one. `places` has at `slot`, which an edge has to itself, where the edge's reason was found
// last, counted from 1. It is believed only where the reason stands there, so the answer is right whatever `places` has, and no promise is made of the word
// at the slot: a program that never wrote it would only search longer.
pub(crate) fn is_listed(
    reasons: &[u32],
    n: usize,
    places: &mut [u32],
    slot: usize,
    kind: u32,
    value: u32,
) -> bool
    requires { n ≤ reason_room reasons.now }
    ensures { Looked reasons.now places.old places.new n kind value slot result }
{
    let last = fields::word(places, slot) as usize;
    if is_at(reasons, n, last, kind, value) {
        return true;
    }
    let Some(i) = place_of(reasons, n, kind, value) else {
        return false;
    };
    if slot < places.len() {
        places[slot] = (i + 1) as u32;
    }
    true
}
