// The normal form: each atom replaced by its class's representative, with the reasons, then dropped or joined.
ghost use Rattle.std.specs.Prelude.{◌≡◌, true, [], ◌++◌, reverse, ◌≤◌, ◌<◌, length};
ghost use Rattle.records.specs.Lists.{all};
ghost use Rattle.records.specs.Store.{is_string};
ghost use Rattle.records.specs.View.{store_of, across, changing, lent};
ghost use Rattle.records.specs.Working.Audited.{Ready};
ghost use Rattle.records.specs.Calls.{added, ◌into◌};
ghost use Rattle.records.specs.Working.Doing.{Does};
ghost use Rattle.engine.specs.Explain.{explain_arguments};
ghost use Rattle.normalize.specs.Normalize.{push_forms, normal_form, form_arguments};
ghost use Rattle.records.specs.Rules.{list_limit};
ghost use Rattle.normalize.specs.Working.Pushes.{pushed, cite, push_for, Candidates};
ghost use Rattle.normalize.specs.Calls.{first_words, formed};

use crate::{deeper, flat, nodes, pushes};
use engine::explain_unchecked;
use records::{Kind, LIST_LIMIT, Refusal, State, rules};

// The reasons that a is equal to r, where they differ.
fn cite(
    terms: &[u32],
    cells: &[u32],
    chars: &[u32],
    reasons: &mut [u32],
    keys: &[u32],
    c: State,
    a: u32,
    r: u32,
    places: &mut [u32],
) -> Result<State, Refusal>
    requires ready { Ready (lent terms.now cells.now chars.now reasons.old keys.now) c }
    requires explainable { explain_arguments a r (store_of (lent terms.now cells.now chars.now reasons.old keys.now) c) ≡ true }
    ensures { Does (cite a r) (across terms cells chars (changing reasons) keys) c (added result) }
{
    if r == a {
        Ok(c)
    } else {
        explain_unchecked(terms, cells, chars, reasons, keys, c, a, r, places)
    }
}

// The atom a as its representative r.
fn push_for(
    terms: &mut [u32],
    cells: &[u32],
    chars: &mut [u32],
    reasons: &mut [u32],
    keys: &[u32],
    c: State,
    a: u32,
    r: u32,
    list: &mut [u32],
    count: usize,
    places: &mut [u32],
) -> Result<(usize, State), Refusal>
    requires ready { Ready (lent terms.old cells.now chars.old reasons.old keys.now) c }
    requires explainable { explain_arguments a r (store_of (lent terms.old cells.now chars.old reasons.old keys.now) c) ≡ true }
    requires count_lt_list_limit { count < list_limit }
    requires list_limit_in_bounds { list_limit ≤ length list.old }
    ensures { Does (push_for a r (reverse (first_words list.old count))) (across (changing terms) cells (changing chars) (changing reasons) keys) c (pushed result into changing list) }
{
    let d = cite(terms, cells, chars, reasons, keys, c, a, r, places)?;
    pushes::push(terms, cells, chars, reasons, keys, d, r, list, count)
}

// Atom by atom. The table is that of the known list followed by the atoms; `places` has where the reason of each edge was found last.
fn push_forms(
    terms: &mut [u32],
    cells: &[u32],
    chars: &mut [u32],
    reasons: &mut [u32],
    keys: &[u32],
    c: State,
    known: &[u32],
    flat: &[u32],
    table: &[u32; 513],
    list: &mut [u32],
    places: &mut [u32],
) -> Result<(usize, State), Refusal>
    requires ready { Ready (lent terms.old cells.now chars.old reasons.old keys.now) c }
    requires candidates { Candidates (store_of (lent terms.old cells.now chars.old reasons.old keys.now) c) (known.now ++ flat.now) table.now }
    requires flat_len_bound { length flat.now ≤ list_limit }
    requires list_limit_in_bounds { list_limit ≤ length list.old }
    ensures { Does (push_forms (known.now ++ flat.now) flat.now []) (across (changing terms) cells (changing chars) (changing reasons) keys) c (pushed result into changing list) }
{
    let mut d = c;
    let mut count: usize = 0;
    for &a in flat {
        let r = nodes::rep(terms, d.terms, table, a);
        (count, d) = push_for(
            terms, cells, chars, reasons, keys, d, a, r, list, count, places,
        )?;
    }
    Ok((count, d))
}

// From the atoms on. The table is that of the known list. For few atoms there are no places: to clear them costs more than to do without.
fn form_atoms(
    terms: &mut [u32],
    cells: &[u32],
    chars: &mut [u32],
    reasons: &mut [u32],
    keys: &[u32],
    c: State,
    known: &[u32],
    table: &[u32; 513],
    flat: &[u32],
    list: &mut [u32],
) -> Result<(usize, State), Refusal>
    requires ready { Ready (lent terms.old cells.now chars.old reasons.old keys.now) c }
    requires candidates { Candidates (store_of (lent terms.old cells.now chars.old reasons.old keys.now) c) known.now table.now }
    requires flat_strings { all (is_string (store_of (lent terms.old cells.now chars.old reasons.old keys.now) c)) flat.now ≡ true }
    requires flat_len_bound { length flat.now ≤ list_limit }
    requires list_limit_in_bounds { list_limit ≤ length list.old }
    ensures { Does (push_forms (known.now ++ flat.now) flat.now []) (across (changing terms) cells (changing chars) (changing reasons) keys) c (pushed result into changing list) }
{
    let mut own = *table;
    nodes::build_node_of(terms, c.terms, flat, &mut own);
    if flat.len() < 8 {
        push_forms(
            terms,
            cells,
            chars,
            reasons,
            keys,
            c,
            known,
            flat,
            &own,
            list,
            &mut [],
        )
    } else {
        let places: &mut [u32; 513] = &mut [0; 513];
        push_forms(
            terms, cells, chars, reasons, keys, c, known, flat, &own, list, places,
        )
    }
}

// The normal form of t by way of its flattened atoms, whose list is cleared at each call.
fn form_flat(
    terms: &mut [u32],
    cells: &[u32],
    chars: &mut [u32],
    reasons: &mut [u32],
    keys: &[u32],
    c: State,
    known: &[u32],
    table: &[u32; 513],
    t: u32,
    list: &mut [u32],
) -> Result<(usize, State), Refusal>
    requires ready { Ready (lent terms.old cells.now chars.old reasons.old keys.now) c }
    requires candidates { Candidates (store_of (lent terms.old cells.now chars.old reasons.old keys.now) c) known.now table.now }
    requires t_string { is_string (store_of (lent terms.old cells.now chars.old reasons.old keys.now) c) t ≡ true }
    requires list_limit_in_bounds { list_limit ≤ length list.old }
    ensures { Does (normal_form known.now t) (across (changing terms) cells (changing chars) (changing reasons) keys) c (formed result into changing list) }
{
    let mut flat: [u32; 1024] = [0; 1024];
    let n = flat::flatten_unchecked(terms, c.terms, cells, c.cells, t, &mut flat, 0);
    if LIST_LIMIT < n {
        return Err(Refusal::List);
    }
    form_atoms(
        terms,
        cells,
        chars,
        reasons,
        keys,
        c,
        known,
        table,
        &flat[..n],
        list,
    )
}

// The normal form of t. The table is that of the known list. A term that is no concatenation is its own atom, so it goes without a
// list to flatten into.
pub(crate) fn form_by(
    terms: &mut [u32],
    cells: &[u32],
    chars: &mut [u32],
    reasons: &mut [u32],
    keys: &[u32],
    c: State,
    known: &[u32],
    table: &[u32; 513],
    t: u32,
    list: &mut [u32],
) -> Result<(usize, State), Refusal>
    requires ready { Ready (lent terms.old cells.now chars.old reasons.old keys.now) c }
    requires candidates { Candidates (store_of (lent terms.old cells.now chars.old reasons.old keys.now) c) known.now table.now }
    requires t_string { is_string (store_of (lent terms.old cells.now chars.old reasons.old keys.now) c) t ≡ true }
    requires list_limit_in_bounds { list_limit ≤ length list.old }
    ensures { Does (normal_form known.now t) (across (changing terms) cells (changing chars) (changing reasons) keys) c (formed result into changing list) }
{
    if rules::is_a(terms, c.terms, t, Kind::Concatenation) {
        form_flat(terms, cells, chars, reasons, keys, c, known, table, t, list)
    } else {
        let one: [u32; 1] = [t];
        form_atoms(
            terms, cells, chars, reasons, keys, c, known, table, &one, list,
        )
    }
}

// The normal form of t over the known list, with the reasons of each atom that was replaced.
pub(crate) fn normal_form_cited_unchecked(
    terms: &mut [u32],
    cells: &[u32],
    chars: &mut [u32],
    reasons: &mut [u32],
    keys: &[u32],
    c: State,
    known: &[u32],
    t: u32,
    list: &mut [u32],
) -> Result<(usize, State), Refusal>
    requires ready { Ready (lent terms.old cells.now chars.old reasons.old keys.now) c }
    requires arguments { form_arguments known.now t (store_of (lent terms.old cells.now chars.old reasons.old keys.now) c) ≡ true }
    requires list_limit_in_bounds { list_limit ≤ length list.old }
    ensures { Does (normal_form known.now t) (across (changing terms) cells (changing chars) (changing reasons) keys) c (formed result into changing list) }
{
    let table = deeper::known_table_unchecked(terms, cells, chars, reasons, keys, c, known);
    form_by(
        terms, cells, chars, reasons, keys, c, known, &table, t, list,
    )
}
