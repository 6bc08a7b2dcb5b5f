// Lines of the test programs: a letter and its numbers are read, words are put where there is room, numbers are printed; and the index of a store
// that was written by hand.
#![tactic(auto)]

pub mod indexing;
pub mod input;
pub mod lending;
pub mod reading;
pub mod saying;

// The word x at place i, where the slice has that place.
pub fn put(s: &mut [u32], i: usize, x: u32) {
    if let Some(w) = s.get_mut(i) {
        *w = x;
    }
}

// The words of a slice, from place `at` of another on.
pub fn put_all(to: &mut [u32], at: usize, from: &[u32]) {
    for (i, &x) in from.iter().enumerate() {
        put(to, at.wrapping_add(i), x);
    }
}
