// Cited normal forms.
#![tactic(auto)]

ghost use Rattle.std.specs.Prelude.{◌≡◌};
ghost use Rattle.records.specs.Calls.{Writes};
ghost use Rattle.records.specs.View.{across, termed, changing};
ghost use Rattle.normalize.specs.Normalize.{form_arguments};
ghost use Rattle.normalize.specs.Calls.{formed, deepened, PublicForm, PublicDeepForm};

use deeper::deep_normal_form_cited_unchecked;
use normal::normal_form_cited_unchecked;
use records::index::cut_refused_unchecked;
use records::{LIST_LIMIT, Refusal, State, rules};

pub mod deeper;
pub mod expands;
pub mod flat;
pub mod nodes;
pub mod normal;
pub mod pushes;

pub const DEEP_NF_ATOM_CAP: usize = 256;

// How a round of the deep form ended: another round follows over its list, or the answer is known.
#[derive(Clone, Copy)]
pub enum Turn {
    Again(usize, State),
    Ends(Option<usize>, State),
}

// A list of string terms, at most 1,024, and a string term.
fn can_form(terms: &[u32], c: State, known: &[u32], t: u32) -> bool
    ensures { result ≡ form_arguments known.now t (termed terms.now c) }
{
    rules::is_list(terms, c, known) && rules::is_string(terms, c.terms, t)
}

// The normal form of t over the known list, in the first words of `list`: how many they are, with the new counts.
pub fn normal_form_cited(
    terms: &mut [u32],
    cells: &[u32],
    chars: &mut [u32],
    reasons: &mut [u32],
    keys: &[u32],
    c: State,
    known: &[u32],
    t: u32,
    list: &mut [u32],
) -> Result<(usize, State), Refusal>
    ensures { Writes (PublicForm known.now t) (across (changing terms) cells (changing chars) (changing reasons) keys) (changing list) c (formed result) }
{
    if list.len() < LIST_LIMIT {
        return Err(Refusal::Sizes);
    }
    records::audit(terms, cells, chars, reasons, keys, c)?;
    if !can_form(terms, c, known, t) {
        return Err(Refusal::Argument);
    }
    let x = normal_form_cited_unchecked(terms, cells, chars, reasons, keys, c, known, t, list);
    cut_refused_unchecked(terms, c.terms, x)
}

// The deep form of t over the known list, in the first words of `list`: how many they are, or None.
pub fn deep_normal_form_cited(
    terms: &mut [u32],
    cells: &[u32],
    chars: &mut [u32],
    reasons: &mut [u32],
    keys: &[u32],
    c: State,
    known: &[u32],
    t: u32,
    list: &mut [u32],
) -> Result<(Option<usize>, State), Refusal>
    ensures { Writes (PublicDeepForm known.now t) (across (changing terms) cells (changing chars) (changing reasons) keys) (changing list) c (deepened result) }
{
    if list.len() < LIST_LIMIT {
        return Err(Refusal::Sizes);
    }
    records::audit(terms, cells, chars, reasons, keys, c)?;
    if !can_form(terms, c, known, t) {
        return Err(Refusal::Argument);
    }
    let x = deep_normal_form_cited_unchecked(terms, cells, chars, reasons, keys, c, known, t, list);
    cut_refused_unchecked(terms, c.terms, x)
}
