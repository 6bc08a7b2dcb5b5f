// Every part of a label that must still become "", in one call.
#![tactic(auto)]

ghost use Rattle.std.specs.Prelude.{◌≡◌, true, [], ◌∷◌, ◌≤◌, ◌<◌, length, take};
ghost use Rattle.records.specs.Lists.{all, any};
ghost use Rattle.records.specs.Store.{is_string, same_class};
ghost use Rattle.records.specs.View.{store_of, across, read_in, changing, lent};
ghost use Rattle.records.specs.Rules.{list_limit, is_list};
ghost use Rattle.records.specs.Calls.{Writes, ◌into◌};
ghost use Rattle.records.specs.Working.Doing.{Does};
ghost use Rattle.records.specs.Working.Audited.{Ready};
ghost use Rattle.sides.specs.Working.Results.{BothLists};
ghost use Rattle.sides.specs.Working.Stripping.{Readable};
ghost use Rattle.empties.specs.Empties.{unmet, emptied, sides, empty_parts};
ghost use Rattle.empties.specs.Working.Listing.{Starts, tried};
ghost use Rattle.empties.specs.Calls.{listed, PublicEmpties};

use records::index::cut_refused_unchecked;
use records::{LIST_LIMIT, Refusal, State, make};
use sides::stripping;
use wordeq::{propagate, resolving};

// The answer: the new counts, the number of "", how many variables are listed, and the link flag.
#[derive(Clone, Copy)]
pub struct Empties {
    pub state: State,
    pub empty: u32,
    pub listed: usize,
    pub link: bool,
}

// Whether a string term is of the class of "" or of a variable listed before.
fn is_met(terms: &[u32], chars: &[u32], c: State, v: u32, e: u32, met: &[u32]) -> bool
    requires readable { Readable terms.now chars.now c }
    requires strings { all (is_string (read_in terms.now chars.now c)) (v ∷ e ∷ met.now) ≡ true }
    ensures { result ≡ any (same_class (read_in terms.now chars.now c) v) (e ∷ met.now) }
{
    if stripping::same_class_unchecked(terms, chars, c, v, e) {
        return true;
    }
    for &m in met {
        if stripping::same_class_unchecked(terms, chars, c, v, m) {
            return true;
        }
    }
    false
}

// One variable more after the first n words of `list`, where it is not met; how many there are then.
fn put_unmet(
    terms: &[u32],
    chars: &[u32],
    c: State,
    v: u32,
    e: u32,
    list: &mut [u32],
    n: usize,
) -> usize
    requires readable { Readable terms.now chars.now c }
    requires strings { all (is_string (read_in terms.now chars.now c)) (v ∷ e ∷ take n list.old) ≡ true }
    requires n_in_bounds { n < length list.old }
    ensures { Starts list.new result (tried (read_in terms.now chars.now c) e (take n list.old) v) }
{
    if is_met(terms, chars, c, v, e, &list[..n]) {
        n
    } else {
        list[n] = v;
        n + 1
    }
}

// The variables of a side that are not of the class of e, the first of each class, as the first words of `list`.
fn list_unmet(
    terms: &[u32],
    chars: &[u32],
    c: State,
    side: &[u32],
    e: u32,
    list: &mut [u32],
) -> usize
    requires readable { Readable terms.now chars.now c }
    requires strings { all (is_string (read_in terms.now chars.now c)) (e ∷ side.now) ≡ true }
    requires side_in_bounds { length side.now ≤ length list.old }
    ensures { Starts list.new result (unmet (read_in terms.now chars.now c) (e ∷ []) side.now) }
{
    let mut n: usize = 0;
    for &v in side {
        n = put_unmet(terms, chars, c, v, e, list, n);
    }
    n
}

// Two or more variables against an empty side: "" is made, and what must still become it is listed.
fn empties_unchecked(
    terms: &mut [u32],
    cells: &[u32],
    chars: &mut [u32],
    reasons: &[u32],
    keys: &[u32],
    c: State,
    side: &[u32],
    list: &mut [u32],
) -> Result<Empties, Refusal>
    requires ready { Ready (lent terms.old cells.now chars.old reasons.now keys.now) c }
    requires side_is_list { is_list (store_of (lent terms.old cells.now chars.old reasons.now keys.now) c) side.now ≡ true }
    requires list_limit_in_bounds { list_limit ≤ length list.old }
    ensures { Does (emptied side.now) (across (changing terms) cells (changing chars) reasons keys) c (listed result into changing list) }
{
    let (empty, state) = make::make_constant_unchecked(terms, cells, chars, reasons, keys, c, &[])?;
    let listed = list_unmet(terms, chars, state, side, empty, list);
    Ok(Empties {
        state,
        empty,
        listed,
        link: 0 < listed,
    })
}

// One of two flattened lists empty, the other two or more variables; other lists give none, and nothing is made.
fn sides_unchecked(
    terms: &mut [u32],
    cells: &[u32],
    chars: &mut [u32],
    reasons: &[u32],
    keys: &[u32],
    c: State,
    lhs: &[u32],
    rhs: &[u32],
    list: &mut [u32],
) -> Result<Empties, Refusal>
    requires ready { Ready (lent terms.old cells.now chars.old reasons.now keys.now) c }
    requires both_lists { BothLists (store_of (lent terms.old cells.now chars.old reasons.now keys.now) c) lhs.now rhs.now }
    requires list_limit_in_bounds { list_limit ≤ length list.old }
    ensures { Does (sides lhs.now rhs.now) (across (changing terms) cells (changing chars) reasons keys) c (listed result into changing list) }
{
    if propagate::is_emptied_unchecked(terms, c, lhs, rhs) {
        empties_unchecked(terms, cells, chars, reasons, keys, c, rhs, list)
    } else if propagate::is_emptied_unchecked(terms, c, rhs, lhs) {
        empties_unchecked(terms, cells, chars, reasons, keys, c, lhs, list)
    } else {
        Ok(Empties {
            state: c,
            empty: 0,
            listed: 0,
            link: false,
        })
    }
}

// Both lists flattened, left first, and their empty parts listed.
pub fn empty_parts_unchecked(
    terms: &mut [u32],
    cells: &[u32],
    chars: &mut [u32],
    reasons: &[u32],
    keys: &[u32],
    c: State,
    lhs: &[u32],
    rhs: &[u32],
    list: &mut [u32],
) -> Result<Empties, Refusal>
    requires ready { Ready (lent terms.old cells.now chars.old reasons.now keys.now) c }
    requires both_lists { BothLists (store_of (lent terms.old cells.now chars.old reasons.now keys.now) c) lhs.now rhs.now }
    requires list_limit_in_bounds { list_limit ≤ length list.old }
    ensures { Does (empty_parts lhs.now rhs.now) (across (changing terms) cells (changing chars) reasons keys) c (listed result into changing list) }
{
    let mut left: [u32; 1024] = [0; 1024];
    let n = resolving::flatten_list_unchecked(terms, cells, c, lhs, &mut left);
    if LIST_LIMIT < n {
        return Err(Refusal::List);
    }
    let mut right: [u32; 1024] = [0; 1024];
    let k = resolving::flatten_list_unchecked(terms, cells, c, rhs, &mut right);
    if LIST_LIMIT < k {
        return Err(Refusal::List);
    }
    sides_unchecked(
        terms,
        cells,
        chars,
        reasons,
        keys,
        c,
        &left[..n],
        &right[..k],
        list,
    )
}

// The variables of a label against an empty code that must still become "", as the first words of `list`.
pub fn empty_parts(
    terms: &mut [u32],
    cells: &[u32],
    chars: &mut [u32],
    reasons: &[u32],
    keys: &[u32],
    c: State,
    lhs: &[u32],
    rhs: &[u32],
    list: &mut [u32],
) -> Result<Empties, Refusal>
    ensures { Writes (PublicEmpties lhs.now rhs.now) (across (changing terms) cells (changing chars) reasons keys) (changing list) c (listed result) }
{
    if list.len() < LIST_LIMIT {
        return Err(Refusal::Sizes);
    }
    records::audit(terms, cells, chars, reasons, keys, c)?;
    if !wordeq::are_lists(terms, c, lhs, rhs) {
        return Err(Refusal::Argument);
    }
    let parts = empty_parts_unchecked(terms, cells, chars, reasons, keys, c, lhs, rhs, list);
    cut_refused_unchecked(terms, c.terms, parts)
}
