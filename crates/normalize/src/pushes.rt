// A normal form's list, atom by atom: "" is dropped, and a constant after a constant is joined with it.
ghost use Rattle.std.specs.Prelude.{◌≡◌, true, reverse, ◌≤◌, ◌<◌, length};
ghost use Rattle.records.specs.View.{terms_view, across, changing, lent};
ghost use Rattle.records.specs.Working.Audited.{Ready};
ghost use Rattle.records.specs.Calls.{◌into◌};
ghost use Rattle.records.specs.Working.Doing.{Does};
ghost use Rattle.normalize.specs.Normalize.{join, push};
ghost use Rattle.records.specs.Rules.{list_limit};
ghost use Rattle.normalize.specs.Working.Pushes.{is_empty_in, joins_in, pushed};
ghost use Rattle.normalize.specs.Calls.{first_words};

use records::{Kind, Refusal, State, fields, make, rules};

// Whether t is "".
fn is_empty(terms: &[u32], n: usize, t: u32) -> bool
    ensures { result ≡ is_empty_in (terms_view terms.now n) t }
{
    rules::is_a(terms, n, t, Kind::Constant) && fields::second(terms, t) == 0
}

// Whether t and the last atom of the list are constants.
fn joins_with_last(terms: &[u32], n: usize, t: u32, list: &[u32], count: usize) -> bool
    requires { count ≤ length list.now }
    ensures { result ≡ joins_in (terms_view terms.now n) t (reverse (first_words list.now count)) }
{
    count != 0
        && rules::is_a(terms, n, t, Kind::Constant)
        && rules::is_a(terms, n, list[count - 1], Kind::Constant)
}

// Joins t with the last atom, in its place.
fn join_last(
    terms: &mut [u32],
    cells: &[u32],
    chars: &mut [u32],
    reasons: &[u32],
    keys: &[u32],
    c: State,
    t: u32,
    list: &mut [u32],
    count: usize,
) -> Result<(usize, State), Refusal>
    requires ready { Ready (lent terms.old cells.now chars.old reasons.now keys.now) c }
    requires joins { joins_in (terms_view terms.old c.terms) t (reverse (first_words list.old count)) ≡ true }
    requires count_nonzero { 0 < count }
    requires count_in_bounds { count ≤ length list.old }
    ensures { Does (join t (reverse (first_words list.old count))) (across (changing terms) cells (changing chars) reasons keys) c (pushed result into changing list) }
{
    let last = count - 1;
    let pair: [u32; 2] = [list[last], t];
    let (u, d) = make::join_constants_unchecked(terms, cells, chars, reasons, keys, c, &pair)?;
    list[last] = u;
    Ok((count, d))
}

// One atom more.
pub(crate) fn push(
    terms: &mut [u32],
    cells: &[u32],
    chars: &mut [u32],
    reasons: &[u32],
    keys: &[u32],
    c: State,
    t: u32,
    list: &mut [u32],
    count: usize,
) -> Result<(usize, State), Refusal>
    requires ready { Ready (lent terms.old cells.now chars.old reasons.now keys.now) c }
    requires count_lt_list_limit { count < list_limit }
    requires list_limit_in_bounds { list_limit ≤ length list.old }
    ensures { Does (push t (reverse (first_words list.old count))) (across (changing terms) cells (changing chars) reasons keys) c (pushed result into changing list) }
{
    if is_empty(terms, c.terms, t) {
        Ok((count, c))
    } else if joins_with_last(terms, c.terms, t, list, count) {
        join_last(terms, cells, chars, reasons, keys, c, t, list, count)
    } else {
        list[count] = t;
        Ok((count + 1, c))
    }
}
