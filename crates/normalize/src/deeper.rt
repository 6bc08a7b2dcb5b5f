// The deep form: in rounds, at most 64, the list of each expanded, dropped and joined again.
ghost use Rattle.std.specs.Prelude.{◌≡◌, true, [], ◌≤◌, length};
ghost use Rattle.records.specs.Lists.{all};
ghost use Rattle.records.specs.Store.{is_string};
ghost use Rattle.records.specs.View.{store_of, across, Between, changing, lent};
ghost use Rattle.records.specs.Working.Audited.{Ready};
ghost use Rattle.records.specs.Calls.{◌into◌};
ghost use Rattle.records.specs.Working.Doing.{Does};
ghost use Rattle.normalize.specs.Normalize.{deep_limit, push_all, rounds, deep_form, form_arguments};
ghost use Rattle.records.specs.Rules.{list_limit, is_list};
ghost use Rattle.normalize.specs.Working.Pushes.{pushed, Candidates};
ghost use Rattle.normalize.specs.Calls.{first_words, deepened};
ghost use Rattle.normalize.specs.Working.Deeps.{MetTable, Settles, Turns};

use crate::{DEEP_NF_ATOM_CAP, Turn, expands, nodes, normal, pushes};
use records::{Refusal, State};

// The atoms of a round's list, dropped and joined again.
fn push_all(
    terms: &mut [u32],
    cells: &[u32],
    chars: &mut [u32],
    reasons: &[u32],
    keys: &[u32],
    c: State,
    next: &[u32],
    out: &mut [u32],
) -> Result<(usize, State), Refusal>
    requires ready { Ready (lent terms.old cells.now chars.old reasons.now keys.now) c }
    requires strings { all (is_string (store_of (lent terms.old cells.now chars.old reasons.now keys.now) c)) next.now ≡ true }
    requires next_len_bound { length next.now ≤ list_limit }
    requires list_limit_in_bounds { list_limit ≤ length out.old }
    ensures { Does (push_all next.now []) (across (changing terms) cells (changing chars) reasons keys) c (pushed result into changing out) }
{
    let mut d = c;
    let mut count: usize = 0;
    for &a in next {
        (count, d) = pushes::push(terms, cells, chars, reasons, keys, d, a, out, count)?;
    }
    Ok((count, d))
}

// The end of a round: its list joined, and compared with the one before, whose place it takes.
fn settle(
    terms: &mut [u32],
    cells: &[u32],
    chars: &mut [u32],
    reasons: &[u32],
    keys: &[u32],
    c: State,
    next: &[u32],
    list: &mut [u32],
    count: usize,
) -> Result<Turn, Refusal>
    requires ready { Ready (lent terms.old cells.now chars.old reasons.now keys.now) c }
    requires strings { all (is_string (store_of (lent terms.old cells.now chars.old reasons.now keys.now) c)) next.now ≡ true }
    requires next_len_bound { length next.now ≤ list_limit }
    requires count_in_bounds { count ≤ length list.old }
    requires deep_limit_in_bounds { deep_limit ≤ length list.old }
    ensures { Between (Settles (first_words list.old count) next.now) (across (changing terms) cells (changing chars) reasons keys) c list.new result }
{
    let mut out: [u32; 1024] = [0; 1024];
    let (n, d) = push_all(terms, cells, chars, reasons, keys, c, next, &mut out)?;
    if DEEP_NF_ATOM_CAP < n {
        return Ok(Turn::Ends(None, d));
    }
    if out[..n] == list[..count] {
        return Ok(Turn::Ends(Some(count), d));
    }
    list[..n].copy_from_slice(&out[..n]);
    Ok(Turn::Again(n, d))
}

// One round, in a list of at most 256 atoms.
fn round(
    terms: &mut [u32],
    cells: &[u32],
    chars: &mut [u32],
    reasons: &mut [u32],
    keys: &[u32],
    c: State,
    known: &[u32],
    table: &[u32; 513],
    t: u32,
    list: &mut [u32],
    count: usize,
    met: &mut [u8; 513],
) -> Result<Turn, Refusal>
    requires ready { Ready (lent terms.old cells.now chars.old reasons.old keys.now) c }
    requires candidates { Candidates (store_of (lent terms.old cells.now chars.old reasons.old keys.now) c) known.now table.now }
    requires strings { all (is_string (store_of (lent terms.old cells.now chars.old reasons.old keys.now) c)) (first_words list.old count) ≡ true }
    requires count_le_deep_limit { (count ≤ deep_limit) × (list_limit ≤ length list.old) }
    requires met_table { MetTable met.old }
    ensures { let l = first_words list.old count in Between (Turns known.now t l met.old) (across (changing terms) cells (changing chars) (changing reasons) keys) c list.new met.new result }
{
    let before = &list[..count];
    if !expands::any_opens(terms, c.terms, t, before) {
        return Ok(Turn::Ends(Some(count), c));
    }
    let mut next: [u32; 512] = [0; 512];
    let (made, d) = expands::expand(
        terms, cells, chars, reasons, keys, c, known, table, t, before, met, &mut next,
    )?;
    let Some(k) = made else {
        return Ok(Turn::Ends(None, d));
    };
    let after = &next[..k];
    settle(terms, cells, chars, reasons, keys, d, after, list, count)
}

// At most 64 rounds.
fn rounds(
    terms: &mut [u32],
    cells: &[u32],
    chars: &mut [u32],
    reasons: &mut [u32],
    keys: &[u32],
    c: State,
    known: &[u32],
    table: &[u32; 513],
    t: u32,
    list: &mut [u32],
    count: usize,
) -> Result<(Option<usize>, State), Refusal>
    requires ready { Ready (lent terms.old cells.now chars.old reasons.old keys.now) c }
    requires candidates { Candidates (store_of (lent terms.old cells.now chars.old reasons.old keys.now) c) known.now table.now }
    requires strings { all (is_string (store_of (lent terms.old cells.now chars.old reasons.old keys.now) c)) (first_words list.old count) ≡ true }
    requires count_le_deep_limit { (count ≤ deep_limit) × (list_limit ≤ length list.old) }
    ensures { Does (rounds 64 known.now t [] (first_words list.old count)) (across (changing terms) cells (changing chars) (changing reasons) keys) c (deepened result into changing list) }
{
    let mut met: [u8; 513] = [0; 513];
    let mut d = c;
    let mut n = count;
    for _ in 0..64usize {
        let turn = round(
            terms, cells, chars, reasons, keys, d, known, table, t, list, n, &mut met,
        )?;
        match turn {
            Turn::Again(k, e) => (n, d) = (k, e),
            Turn::Ends(answer, e) => return Ok((answer, e)),
        }
    }
    Ok((Some(n), d))
}

// The representatives of the known list, for as many deep forms as are made over it.
pub fn known_table_unchecked(
    terms: &[u32],
    cells: &[u32],
    chars: &[u32],
    reasons: &[u32],
    keys: &[u32],
    c: State,
    known: &[u32],
) -> [u32; 513]
    requires ready { Ready (lent terms.now cells.now chars.now reasons.now keys.now) c }
    requires known_value { is_list (store_of (lent terms.now cells.now chars.now reasons.now keys.now) c) known.now ≡ true }
    ensures { Candidates (store_of (across terms cells chars reasons keys).entry c) known.now result }
{
    let mut table: [u32; 513] = [0; 513];
    nodes::build_node_of(terms, c.terms, known, &mut table);
    table
}

// The deep form of t. The table is that of the known list.
pub fn deep_form_by_unchecked(
    terms: &mut [u32],
    cells: &[u32],
    chars: &mut [u32],
    reasons: &mut [u32],
    keys: &[u32],
    c: State,
    known: &[u32],
    table: &[u32; 513],
    t: u32,
    list: &mut [u32],
) -> Result<(Option<usize>, State), Refusal>
    requires ready { Ready (lent terms.old cells.now chars.old reasons.old keys.now) c }
    requires candidates { Candidates (store_of (lent terms.old cells.now chars.old reasons.old keys.now) c) known.now table.now }
    requires t_value { is_string (store_of (lent terms.old cells.now chars.old reasons.old keys.now) c) t ≡ true }
    requires list_limit_in_bounds { list_limit ≤ length list.old }
    ensures { Does (deep_form known.now t) (across (changing terms) cells (changing chars) (changing reasons) keys) c (deepened result into changing list) }
{
    let (n, d) = normal::form_by(terms, cells, chars, reasons, keys, c, known, table, t, list)?;
    if DEEP_NF_ATOM_CAP < n {
        return Ok((None, d));
    }
    rounds(
        terms, cells, chars, reasons, keys, d, known, table, t, list, n,
    )
}

// The deep form of t over the known list, with the reasons of each atom that was replaced in any round.
pub(crate) fn deep_normal_form_cited_unchecked(
    terms: &mut [u32],
    cells: &[u32],
    chars: &mut [u32],
    reasons: &mut [u32],
    keys: &[u32],
    c: State,
    known: &[u32],
    t: u32,
    list: &mut [u32],
) -> Result<(Option<usize>, State), Refusal>
    requires ready { Ready (lent terms.old cells.now chars.old reasons.old keys.now) c }
    requires arguments { form_arguments known.now t (store_of (lent terms.old cells.now chars.old reasons.old keys.now) c) ≡ true }
    requires list_limit_in_bounds { list_limit ≤ length list.old }
    ensures { Does (deep_form known.now t) (across (changing terms) cells (changing chars) (changing reasons) keys) c (deepened result into changing list) }
{
    let table = known_table_unchecked(terms, cells, chars, reasons, keys, c, known);
    deep_form_by_unchecked(
        terms, cells, chars, reasons, keys, c, known, &table, t, list,
    )
}
