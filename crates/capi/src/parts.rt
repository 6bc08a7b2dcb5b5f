// Every empty part of a label.
ghost use Rattle.records.specs.View.{across, changing};
ghost use Rattle.capi.specs.Interface.{ExportsList};
ghost use Rattle.capi.specs.Parts.{ExportedParts};

use crate::telling::{STATE_ROOM, is_roomy, state_of, tell_words};
use records::Refusal;

// The answer's words: the count, the number of "" and the link flag.
#[unsafe(no_mangle)]
pub extern "C" fn labels_empty_parts(
    state: &mut [u32],
    terms: &mut [u32],
    cells: &[u32],
    chars: &mut [u32],
    reasons: &[u32],
    keys: &[u32],
    lhs: &[u32],
    rhs: &[u32],
    list: &mut [u32],
    answer: &mut [u32],
) -> u32
    ensures { ExportsList (ExportedParts lhs.now rhs.now) (across (changing terms) cells (changing chars) reasons keys) (changing list) (changing state) (changing answer) result }
{
    if !is_roomy(STATE_ROOM, state, answer) {
        return u32::from(Refusal::Sizes);
    }
    let c = state_of(state);
    match empties::empty_parts(terms, cells, chars, reasons, keys, c, lhs, rhs, list) {
        Ok(parts) => {
            let words = [parts.listed as u32, parts.empty, u32::from(parts.link)];
            tell_words(state, answer, parts.state, &words)
        }
        Err(refusal) => u32::from(refusal),
    }
}
