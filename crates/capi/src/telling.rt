// An answer put into the words that a C caller lends: the state's six, and the answer's.
ghost use Rattle.records.specs.View.{changing};
ghost use Rattle.std.specs.Prelude.{◌≡◌, true, [], ℕ, ◌≤◌, length, Ok};
ghost use Rattle.records.specs.declared.State.{State};
ghost use Rattle.capi.specs.Interface.{state_of, state_room, answer_room, roomy};
ghost use Rattle.capi.specs.Working.Leaves.{put_first, written, tells, ToldBy, ToldIn, made_telling, added_telling, answer_telling, Narrow, NarrowAnswer};

use records::{Refusal, State, fields};
use sides::StepResult;

// The words that a state and an answer must have.
pub(crate) const STATE_ROOM: usize = 6;

pub(crate) const ANSWER_ROOM: usize = 8;

// The counts and the name counter in the state's words.
pub(crate) fn state_of(state: &[u32]) -> State
    ensures { result ≡ state_of state.now }
{
    State::of(
        fields::word(state, 0) as usize,
        fields::word(state, 1) as usize,
        fields::word(state, 2) as usize,
        fields::word(state, 3) as usize,
        fields::word(state, 4) as usize,
        fields::word(state, 5),
    )
}

pub(crate) fn write_state(state: &mut [u32], c: State)
    requires { (state_room ≤ length state.old) × Narrow c }
    ensures { state.new ≡ written c state.old }
{
    let words = [
        c.terms as u32,
        c.cells as u32,
        c.chars as u32,
        c.reasons as u32,
        c.keys as u32,
        c.names,
    ];
    write_words(state, &words);
}

// Words put first in a slice.
pub(crate) fn write_words(to: &mut [u32], words: &[u32])
    requires { length words.now ≤ length to.old }
    ensures { to.new ≡ put_first words.now to.old }
{
    to[..words.len()].copy_from_slice(words);
}

// Whether the state has n words and the answer its eight.
pub(crate) fn is_roomy(n: usize, state: &[u32], answer: &[u32]) -> bool
    ensures { result ≡ roomy n state.now answer.now }
{
    n <= state.len() && ANSWER_ROOM <= answer.len()
}

// The counts into the state's words, and words into the answer.
pub(crate) fn tell_words(state: &mut [u32], answer: &mut [u32], c: State, words: &[u32]) -> u32
    requires { (roomy state_room state.old answer.old ≡ true) × Narrow c × (length words.now ≤ answer_room) }
    ensures { ToldIn written (tells c) (changing state) (changing answer) words.now result }
{
    write_state(state, c);
    write_words(answer, words);
    0
}

// Words into the answer; the state stays.
pub(crate) fn tell_still(state: &[u32], answer: &mut [u32], words: &[u32]) -> u32
    requires { (roomy state_room state.now answer.old ≡ true) × (length words.now ≤ answer_room) }
    ensures { ToldIn written (tells (state_of state.now)) state (changing answer) words.now result }
{
    write_words(answer, words);
    0
}

// A making call's answer into the state's and the answer's words.
pub(crate) fn tell(
    state: &mut [u32],
    answer: &mut [u32],
    made: Result<(u32, State), Refusal>,
) -> u32
    requires { (roomy state_room state.old answer.old ≡ true) × ((t : ℕ) (c : State) → made ≡ Ok (t, c) → Narrow c) }
    ensures { ToldIn written made_telling (changing state) (changing answer) made result }
{
    match made {
        Ok((t, c)) => tell_words(state, answer, c, &[t]),
        Err(refusal) => u32::from(refusal),
    }
}

// The counts after explain into the state's words.
pub(crate) fn tell_counts(state: &mut [u32], added: Result<State, Refusal>) -> u32
    requires { (state_room ≤ length state.old) × ((c : State) → added ≡ Ok c → Narrow c) }
    ensures { ToldBy written added_telling state.old state.new [] [] added result }
{
    match added {
        Ok(c) => {
            write_state(state, c);
            0
        }
        Err(refusal) => u32::from(refusal),
    }
}

// An answer of wordeq into the words.
pub(crate) fn tell_answer(state: &mut [u32], answer: &mut [u32], made: StepResult) -> u32
    requires { (roomy state_room state.old answer.old ≡ true) × NarrowAnswer made }
    ensures { ToldIn written answer_telling (changing state) (changing answer) made result }
{
    match made {
        StepResult::Done(c) => tell_words(state, answer, c, &[0]),
        StepResult::Saturated(c) => tell_words(state, answer, c, &[1]),
        StepResult::Conflict(c) => tell_words(state, answer, c, &[2]),
        StepResult::Propagate(c, v, w, f) => tell_words(state, answer, c, &[3, v, w, u32::from(f)]),
        StepResult::Split(c, n, g, k) => tell_words(
            state,
            answer,
            c,
            &[4, n as u32, g.cast_unsigned(), k],
        ),
    }
}
