// Step 7: the atoms of a split.
ghost use Rattle.std.specs.Prelude.{◌≡◌, true, ◌≤◌, length, take};
ghost use Rattle.std.proofs.Math.Option.{none};
ghost use Rattle.records.specs.Store.{is_string};
ghost use Rattle.records.specs.View.{store_of, across, changing, lent};
ghost use Rattle.records.specs.Rules.{is_char, named};
ghost use Rattle.records.specs.Make.{lookup, make_variable, variable_arguments};
ghost use Rattle.records.specs.Working.Audited.{Ready};
ghost use Rattle.records.specs.Calls.{made, ◌into◌};
ghost use Rattle.records.specs.Working.Doing.{Does};
ghost use Rattle.sides.specs.Wordeq.{fresh_variable};
ghost use Rattle.wordeq.specs.Working.Splits.{listed, prefix_atom, empty_atom, character_atom, lengths_atom, character_atoms, prefix_atoms, head_atoms};

use held::taking;
use records::{Refusal, State, build, make};

// The variable of the first characters of a name, which no variable has.
fn make_named(
    terms: &mut [u32],
    cells: &[u32],
    chars: &mut [u32],
    reasons: &[u32],
    keys: &[u32],
    c: State,
    name: &[u32; 15],
    len: usize,
) -> Result<(u32, State), Refusal>
    requires ready { Ready (lent terms.old cells.now chars.old reasons.now keys.now) c }
    requires len_bound { len ≤ 15 }
    requires is_name { variable_arguments (take len name.now) (store_of (lent terms.old cells.now chars.old reasons.now keys.now) c) ≡ true }
    requires is_new { lookup (named (take len name.now)) (store_of (lent terms.old cells.now chars.old reasons.now keys.now) c) ≡ none }
    ensures { Does (make_variable (take len name.now)) (across (changing terms) cells (changing chars) reasons keys) c (made result) }
{
    make::make_new_variable_unchecked(terms, cells, chars, reasons, keys, c, &name[..len])
}

// A variable of the next free name.
pub(crate) fn fresh_str_unchecked(
    terms: &mut [u32],
    cells: &[u32],
    chars: &mut [u32],
    reasons: &[u32],
    keys: &[u32],
    c: State,
) -> Result<(u32, State), Refusal>
    requires { Ready (lent terms.old cells.now chars.old reasons.now keys.now) c }
    ensures { Does fresh_variable (across (changing terms) cells (changing chars) reasons keys) c (made result) }
{
    let named = taking::next_name_unchecked(terms, cells, chars, reasons, keys, c)?;
    make_named(
        terms,
        cells,
        chars,
        reasons,
        keys,
        named.state,
        &named.name,
        named.len,
    )
}

// v = h ++ z for a fresh variable z.
pub(crate) fn prefix_unchecked(
    terms: &mut [u32],
    cells: &mut [u32],
    chars: &mut [u32],
    reasons: &[u32],
    keys: &[u32],
    c: State,
    v: u32,
    h: u32,
) -> Result<(u32, State), Refusal>
    requires ready { Ready (lent terms.old cells.old chars.old reasons.now keys.now) c }
    requires v_value { is_string (store_of (lent terms.old cells.old chars.old reasons.now keys.now) c) v ≡ true }
    requires h_value { is_string (store_of (lent terms.old cells.old chars.old reasons.now keys.now) c) h ≡ true }
    ensures { Does (prefix_atom v h) (across (changing terms) (changing cells) (changing chars) reasons keys) c (made result) }
{
    let (z, d) = fresh_str_unchecked(terms, cells, chars, reasons, keys, c)?;
    let (t, e) = build::make_concatenation_unchecked(
        terms,
        cells,
        chars,
        reasons,
        keys,
        d,
        &[h, z],
    )?;
    build::make_equation_unchecked(terms, cells, chars, reasons, keys, e, v, t)
}

// v = "".
pub(crate) fn empty_unchecked(
    terms: &mut [u32],
    cells: &[u32],
    chars: &mut [u32],
    reasons: &[u32],
    keys: &[u32],
    c: State,
    v: u32,
) -> Result<(u32, State), Refusal>
    requires ready { Ready (lent terms.old cells.now chars.old reasons.now keys.now) c }
    requires v_value { is_string (store_of (lent terms.old cells.now chars.old reasons.now keys.now) c) v ≡ true }
    ensures { Does (empty_atom v) (across (changing terms) cells (changing chars) reasons keys) c (made result) }
{
    let (t, d) = make::make_constant_unchecked(terms, cells, chars, reasons, keys, c, &[])?;
    build::make_equation_unchecked(terms, cells, chars, reasons, keys, d, v, t)
}

// v = ch ++ z for a fresh variable z.
pub(crate) fn character_unchecked(
    terms: &mut [u32],
    cells: &mut [u32],
    chars: &mut [u32],
    reasons: &[u32],
    keys: &[u32],
    c: State,
    v: u32,
    ch: u32,
) -> Result<(u32, State), Refusal>
    requires ready { Ready (lent terms.old cells.old chars.old reasons.now keys.now) c }
    requires v_value { is_string (store_of (lent terms.old cells.old chars.old reasons.now keys.now) c) v ≡ true }
    requires ch_value { is_char ch ≡ true }
    ensures { Does (character_atom v ch) (across (changing terms) (changing cells) (changing chars) reasons keys) c (made result) }
{
    let (h, d) = make::make_constant_unchecked(terms, cells, chars, reasons, keys, c, &[ch])?;
    prefix_unchecked(terms, cells, chars, reasons, keys, d, v, h)
}

// Equal lengths of a and b.
pub(crate) fn lengths_unchecked(
    terms: &mut [u32],
    cells: &[u32],
    chars: &[u32],
    reasons: &[u32],
    keys: &[u32],
    c: State,
    a: u32,
    b: u32,
) -> Result<(u32, State), Refusal>
    requires ready { Ready (lent terms.old cells.now chars.now reasons.now keys.now) c }
    requires a_value { is_string (store_of (lent terms.old cells.now chars.now reasons.now keys.now) c) a ≡ true }
    requires b_value { is_string (store_of (lent terms.old cells.now chars.now reasons.now keys.now) c) b ≡ true }
    ensures { Does (lengths_atom a b) (across (changing terms) cells chars reasons keys) c (made result) }
{
    let (la, d) = build::make_length_unchecked(terms, cells, chars, reasons, keys, c, a)?;
    let (lb, e) = build::make_length_unchecked(terms, cells, chars, reasons, keys, d, b)?;
    build::make_equation_unchecked(terms, cells, chars, reasons, keys, e, la, lb)
}

// The atoms v = "" and v = ch ++ z.
pub(crate) fn split_character_unchecked(
    terms: &mut [u32],
    cells: &mut [u32],
    chars: &mut [u32],
    reasons: &[u32],
    keys: &[u32],
    c: State,
    v: u32,
    ch: u32,
    list: &mut [u32],
) -> Result<(usize, State), Refusal>
    requires ready { Ready (lent terms.old cells.old chars.old reasons.now keys.now) c }
    requires v_value { is_string (store_of (lent terms.old cells.old chars.old reasons.now keys.now) c) v ≡ true }
    requires ch_value { is_char ch ≡ true }
    requires in_bounds { 2 ≤ length list.old }
    ensures { Does (character_atoms v ch) (across (changing terms) (changing cells) (changing chars) reasons keys) c (listed result into changing list) }
{
    let (p, d) = empty_unchecked(terms, cells, chars, reasons, keys, c, v)?;
    let (q, e) = character_unchecked(terms, cells, chars, reasons, keys, d, v, ch)?;
    list[0] = p;
    list[1] = q;
    Ok((2, e))
}

// The atoms a = b ++ z and b = a ++ z, from place 1 on.
fn put_prefixes(
    terms: &mut [u32],
    cells: &mut [u32],
    chars: &mut [u32],
    reasons: &[u32],
    keys: &[u32],
    c: State,
    a: u32,
    b: u32,
    p: u32,
    list: &mut [u32],
) -> Result<(usize, State), Refusal>
    requires ready { Ready (lent terms.old cells.old chars.old reasons.now keys.now) c }
    requires a_value { is_string (store_of (lent terms.old cells.old chars.old reasons.now keys.now) c) a ≡ true }
    requires b_value { is_string (store_of (lent terms.old cells.old chars.old reasons.now keys.now) c) b ≡ true }
    requires in_bounds { 3 ≤ length list.old }
    ensures { Does (prefix_atoms p a b) (across (changing terms) (changing cells) (changing chars) reasons keys) c (listed result into changing list) }
{
    let (q, d) = prefix_unchecked(terms, cells, chars, reasons, keys, c, a, b)?;
    let (u, e) = prefix_unchecked(terms, cells, chars, reasons, keys, d, b, a)?;
    list[0] = p;
    list[1] = q;
    list[2] = u;
    Ok((3, e))
}

// The atoms of equal lengths, a = b ++ z and b = a ++ z.
pub(crate) fn split_heads_unchecked(
    terms: &mut [u32],
    cells: &mut [u32],
    chars: &mut [u32],
    reasons: &[u32],
    keys: &[u32],
    c: State,
    a: u32,
    b: u32,
    list: &mut [u32],
) -> Result<(usize, State), Refusal>
    requires ready { Ready (lent terms.old cells.old chars.old reasons.now keys.now) c }
    requires a_value { is_string (store_of (lent terms.old cells.old chars.old reasons.now keys.now) c) a ≡ true }
    requires b_value { is_string (store_of (lent terms.old cells.old chars.old reasons.now keys.now) c) b ≡ true }
    requires in_bounds { 3 ≤ length list.old }
    ensures { Does (head_atoms a b) (across (changing terms) (changing cells) (changing chars) reasons keys) c (listed result into changing list) }
{
    let (p, d) = lengths_unchecked(terms, cells, chars, reasons, keys, c, a, b)?;
    put_prefixes(terms, cells, chars, reasons, keys, d, a, b, p, list)
}
