// Joining, setting a mark and going back. Their state has two words more: 6 counts the marks that stand, 7 the joins recorded since the
// first of them. The other calls leave these alone.
ghost use Rattle.std.specs.Prelude.{◌≡◌, true, ◌≤◌, length};
ghost use Rattle.records.specs.View.{across, changing};
ghost use Rattle.classes.specs.Calls.{set_mark, Tracks, PublicJoin};
ghost use Rattle.capi.specs.Interface.{roomy};
ghost use Rattle.capi.specs.Marks.{standing_of, marked_room, ExportsMarks, ExportsBack};
ghost use Rattle.capi.specs.Working.Leaves.{ToldIn};
ghost use Rattle.capi.specs.Working.Standings.{standing_in, NarrowStanding, NarrowGiven, number_telling};

use crate::telling::{is_roomy, state_of, write_words};
use classes::Standing;
use records::{Refusal, fields};

// The words that a state must have which counts marks and joins.
const MARKED_ROOM: usize = 8;

// The counts of marks and of joins in the state's words.
fn standing_of(state: &[u32]) -> Standing
    ensures { result ≡ standing_of state.now }
{
    Standing {
        marks: fields::word(state, 6) as usize,
        joins: fields::word(state, 7) as usize,
    }
}

fn write_standing(state: &mut [u32], e: Standing)
    requires { (marked_room ≤ length state.old) × (NarrowStanding e) }
    ensures { state.new ≡ standing_in e state.old }
{
    state[6] = e.marks as u32;
    state[7] = e.joins as u32;
}

// The counts into the state's words and the number into the answer's first; a refusal writes none.
fn tell_number(state: &mut [u32], answer: &mut [u32], told: Result<(u32, Standing), Refusal>) -> u32
    requires room { roomy marked_room state.old answer.old ≡ true }
    requires narrow { NarrowGiven told }
    ensures { ToldIn standing_in number_telling (changing state) (changing answer) told result }
{
    match told {
        Ok((n, e)) => {
            write_standing(state, e);
            write_words(answer, &[n]);
            0
        }
        Err(refusal) => u32::from(refusal),
    }
}

#[unsafe(no_mangle)]
pub extern "C" fn labels_join(
    state: &mut [u32],
    terms: &mut [u32],
    cells: &[u32],
    chars: &[u32],
    reasons: &[u32],
    keys: &[u32],
    marks: &mut [u32],
    a: u32,
    b: u32,
    kind: u32,
    number: u32,
    answer: &mut [u32],
) -> u32
    ensures { ExportsMarks (PublicJoin a b kind number) 7 8 (across (changing terms) cells chars reasons keys) (changing marks) (changing state) (changing answer) result }
{
    if !is_roomy(MARKED_ROOM, state, answer) {
        return u32::from(Refusal::Sizes);
    }
    let c = state_of(state);
    let d = standing_of(state);
    let told = classes::join(
        terms, cells, chars, reasons, keys, c, marks, d, a, b, kind, number,
    );
    tell_number(state, answer, told)
}

#[unsafe(no_mangle)]
pub extern "C" fn labels_set_mark(
    state: &mut [u32],
    terms: &[u32],
    cells: &[u32],
    chars: &[u32],
    reasons: &[u32],
    keys: &[u32],
    marks: &mut [u32],
    answer: &mut [u32],
) -> u32
    ensures { ExportsMarks (Tracks set_mark) 6 7 (across terms cells chars reasons keys) (changing marks) (changing state) (changing answer) result }
{
    if !is_roomy(MARKED_ROOM, state, answer) {
        return u32::from(Refusal::Sizes);
    }
    let c = state_of(state);
    let d = standing_of(state);
    let told = classes::set_mark(terms, cells, chars, reasons, keys, c, marks, d);
    tell_number(state, answer, told)
}

#[unsafe(no_mangle)]
pub extern "C" fn labels_go_back(
    state: &mut [u32],
    terms: &mut [u32],
    cells: &[u32],
    chars: &[u32],
    reasons: &[u32],
    keys: &[u32],
    marks: &[u32],
    mark: u32,
) -> u32
    ensures { ExportsBack mark (across (changing terms) cells chars reasons keys) marks (changing state) result }
{
    if state.len() < MARKED_ROOM {
        return u32::from(Refusal::Sizes);
    }
    let c = state_of(state);
    let d = standing_of(state);
    match classes::go_back(terms, cells, chars, reasons, keys, c, marks, d, mark) {
        Ok((_, e)) => {
            write_standing(state, e);
            0
        }
        Err(refusal) => u32::from(refusal),
    }
}
