// The forced length of a repeated field.
ghost use Rattle.records.specs.View.{across};
ghost use Rattle.capi.specs.Lengths.{ExportedForced};

use crate::telling::{STATE_ROOM, is_roomy, state_of, tell_still};
use forced::Forced;
use records::Refusal;

// The answer's words: 0, k, c, l, m and r, or 1, k, c, l, the shortage and 0; the constants' c is n here.
#[unsafe(no_mangle)]
pub extern "C" fn labels_forced_length(
    state: &[u32],
    terms: &[u32],
    cells: &[u32],
    chars: &[u32],
    reasons: &[u32],
    keys: &[u32],
    lhs: &[u32],
    rhs: &[u32],
    answer: &mut [u32],
) -> u32
    ensures { ExportedForced lhs.now rhs.now (across terms cells chars reasons keys).entry state.now answer.old answer.new result }
{
    if !is_roomy(STATE_ROOM, state, answer) {
        return u32::from(Refusal::Sizes);
    }
    let c = state_of(state);
    match forced::forced_length(terms, cells, chars, reasons, keys, c, lhs, rhs) {
        Ok(Forced::Spans(k, n, l, m, r)) => {
            let words = [0, k as u32, n as u32, l as u32, m as u32, r as u32];
            tell_still(state, answer, &words)
        }
        Ok(Forced::Shortage(k, n, l, lack)) => {
            let words = [1, k as u32, n as u32, l as u32, lack as u32, 0];
            tell_still(state, answer, &words)
        }
        Err(refusal) => u32::from(refusal),
    }
}
