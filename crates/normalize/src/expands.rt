// One round of the deep form: each concatenation atom but the term itself is replaced by its own normal form.
ghost use Rattle.std.specs.Prelude.{◌≡◌, true, [], ◌∷◌, ◌≤◌, ◌<◌, length};
ghost use Rattle.records.specs.Lists.{any};
ghost use Rattle.records.specs.Store.{is_string};
ghost use Rattle.records.specs.View.{store_of, terms_view, across, Between, changing, lent};
ghost use Rattle.records.specs.Working.Audited.{Ready};
ghost use Rattle.records.specs.Calls.{◌into◌};
ghost use Rattle.records.specs.Working.Doing.{Does};
ghost use Rattle.normalize.specs.Normalize.{deep_limit};
ghost use Rattle.normalize.specs.Working.Pushes.{Candidates};
ghost use Rattle.normalize.specs.Calls.{first_words, deepened};
ghost use Rattle.normalize.specs.Working.Deeps.{opens_in, RoundOf, expand_atom, Expands};

use crate::{DEEP_NF_ATOM_CAP, normal};
use records::{Kind, Refusal, State, rules};

// Whether a is expanded: a concatenation, and not the term itself.
fn opens(terms: &[u32], n: usize, t: u32, a: u32) -> bool
    ensures { result ≡ opens_in (terms_view terms.now n) t a }
{
    rules::is_a(terms, n, a, Kind::Concatenation) && a != t
}

// Whether an atom of the list is expanded.
pub(crate) fn any_opens(terms: &[u32], n: usize, t: u32, list: &[u32]) -> bool
    ensures { result ≡ any (opens_in (terms_view terms.now n) t) list.now }
{
    list.iter().any(|&a| opens(terms, n, t, a))
}

// The normal form of a concatenation after the first k words of the round's list.
fn expand_atom(
    terms: &mut [u32],
    cells: &[u32],
    chars: &mut [u32],
    reasons: &mut [u32],
    keys: &[u32],
    c: State,
    known: &[u32],
    table: &[u32; 513],
    a: u32,
    next: &mut [u32],
    k: usize,
) -> Result<(Option<usize>, State), Refusal>
    requires ready { Ready (lent terms.old cells.now chars.old reasons.old keys.now) c }
    requires candidates { Candidates (store_of (lent terms.old cells.now chars.old reasons.old keys.now) c) known.now table.now }
    requires a_string { is_string (store_of (lent terms.old cells.now chars.old reasons.old keys.now) c) a ≡ true }
    requires k_in_bounds { k < length next.old }
    requires deep_limit_in_bounds { deep_limit ≤ length next.old }
    ensures { Does (expand_atom known.now a (first_words next.old k)) (across (changing terms) cells (changing chars) (changing reasons) keys) c (deepened result into changing next) }
{
    let mut form: [u32; 1024] = [0; 1024];
    let (n, d) = normal::form_by(
        terms, cells, chars, reasons, keys, c, known, table, a, &mut form,
    )?;
    if DEEP_NF_ATOM_CAP < k + n {
        return Ok((None, d));
    }
    next[k..k + n].copy_from_slice(&form[..n]);
    Ok((Some(k + n), d))
}

// One atom of a round: as it stands, or expanded. A concatenation met again gives None.
fn expand_one(
    terms: &mut [u32],
    cells: &[u32],
    chars: &mut [u32],
    reasons: &mut [u32],
    keys: &[u32],
    c: State,
    known: &[u32],
    table: &[u32; 513],
    t: u32,
    a: u32,
    met: &mut [u8; 513],
    next: &mut [u32],
    k: usize,
) -> Result<(Option<usize>, State), Refusal>
    requires ready { Ready (lent terms.old cells.now chars.old reasons.old keys.now) c }
    requires candidates { Candidates (store_of (lent terms.old cells.now chars.old reasons.old keys.now) c) known.now table.now }
    requires a_string { is_string (store_of (lent terms.old cells.now chars.old reasons.old keys.now) c) a ≡ true }
    requires k_in_bounds { k < length next.old }
    requires deep_limit_in_bounds { deep_limit ≤ length next.old }
    ensures { Between (Expands known.now t (a ∷ []) next.old k met.old) (across (changing terms) cells (changing chars) (changing reasons) keys) c next.new met.new result }
{
    if !opens(terms, c.terms, t, a) {
        next[k] = a;
        return Ok((Some(k + 1), c));
    }
    if met[a as usize] == 1 {
        return Ok((None, c));
    }
    met[a as usize] = 1;
    expand_atom(
        terms, cells, chars, reasons, keys, c, known, table, a, next, k,
    )
}

// One round over a list. The round's list passes 256 atoms only by those that stand as they are, so 512 words hold it.
pub(crate) fn expand(
    terms: &mut [u32],
    cells: &[u32],
    chars: &mut [u32],
    reasons: &mut [u32],
    keys: &[u32],
    c: State,
    known: &[u32],
    table: &[u32; 513],
    t: u32,
    list: &[u32],
    met: &mut [u8; 513],
    next: &mut [u32],
) -> Result<(Option<usize>, State), Refusal>
    requires ready { Ready (lent terms.old cells.now chars.old reasons.old keys.now) c }
    requires candidates { Candidates (store_of (lent terms.old cells.now chars.old reasons.old keys.now) c) known.now table.now }
    requires round_of { RoundOf (store_of (lent terms.old cells.now chars.old reasons.old keys.now) c) list.now (length list.now) met.old next.old }
    ensures { Between (Expands known.now t list.now next.old 0 met.old) (across (changing terms) cells (changing chars) (changing reasons) keys) c next.new met.new result }
{
    let mut d = c;
    let mut k: usize = 0;
    for &a in list {
        let (made, e) = expand_one(
            terms, cells, chars, reasons, keys, d, known, table, t, a, met, next, k,
        )?;
        let Some(n) = made else {
            return Ok((None, e));
        };
        k = n;
        d = e;
    }
    Ok((Some(k), d))
}
