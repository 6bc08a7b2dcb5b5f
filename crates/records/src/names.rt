// Names for new variables: `!strk` and a counter in decimal.
ghost use Rattle.std.specs.Prelude.{◌≡◌, ◌+◌, ◌≤◌, length};
ghost use Rattle.records.specs.View.{store_of, across, lent};
ghost use Rattle.records.specs.Make.{decimal_by, name_of, is_taken};
ghost use Rattle.records.specs.Working.Puts.{Written};
ghost use Rattle.records.specs.Working.Audited.{Ready};
ghost use Rattle.records.specs.Working.Doing.{Taken};
ghost use Rattle.records.specs.Working.Leaves.{Free};

use crate::make::find_text_unchecked;
use crate::{Kind, Named, Refusal, State};

// The number x in decimal from place `at` on, n digits at most: the higher digits first, then the last. Answers the place after it.
fn put_decimal(name: &mut [u32], at: usize, n: usize, x: u32) -> usize
    requires { at + n ≤ length name.old }
    ensures { Written name.old name.new at (decimal_by n x) result }
{
    if n == 0 {
        return at;
    }
    if x < 10 {
        name[at] = 48 + x;
        return at + 1;
    }
    let e = put_decimal(name, at, n - 1, x / 10);
    name[e] = 48 + x % 10;
    e + 1
}

// The name of counter x, from the start on. Answers its length.
fn put_name(name: &mut [u32], x: u32) -> usize
    requires { 15 ≤ length name.old }
    ensures { Written name.old name.new 0 (name_of x) result }
{
    name[0] = 33;
    name[1] = 115;
    name[2] = 116;
    name[3] = 114;
    name[4] = 107;
    put_decimal(name, 5, 10, x)
}

// Whether a variable has the name of counter x.
fn is_taken(
    terms: &[u32],
    cells: &[u32],
    chars: &[u32],
    reasons: &[u32],
    keys: &[u32],
    c: State,
    x: u32,
) -> bool
    requires { Ready (lent terms.now cells.now chars.now reasons.now keys.now) c }
    ensures { result ≡ is_taken (store_of (across terms cells chars reasons keys).entry c) x }
{
    let mut name: [u32; 15] = [0; 15];
    let len = put_name(&mut name, x);
    find_text_unchecked(terms, chars, c.terms, Kind::Variable, &name[..len]) != 0
}

// The first counter from c's on whose name no variable has; the limit where there is none below it.
fn free_name(
    terms: &[u32],
    cells: &[u32],
    chars: &[u32],
    reasons: &[u32],
    keys: &[u32],
    c: State,
) -> u32
    requires { Ready (lent terms.now cells.now chars.now reasons.now keys.now) c }
    ensures { Free (store_of (across terms cells chars reasons keys).entry c) result }
{
    for x in c.names..crate::NAME_LIMIT {
        if !is_taken(terms, cells, chars, reasons, keys, c, x) {
            return x;
        }
    }
    crate::NAME_LIMIT
}

// The next free name, with the counter past it.
pub fn take_name_unchecked(
    terms: &[u32],
    cells: &[u32],
    chars: &[u32],
    reasons: &[u32],
    keys: &[u32],
    c: State,
) -> Result<Named, Refusal>
    requires { Ready (lent terms.now cells.now chars.now reasons.now keys.now) c }
    ensures { Taken (across terms cells chars reasons keys).entry c result }
{
    let x = free_name(terms, cells, chars, reasons, keys, c);
    if x >= crate::NAME_LIMIT {
        return Err(Refusal::Names);
    }
    let mut name: [u32; 15] = [0; 15];
    let len = put_name(&mut name, x);
    Ok(Named {
        state: c.with_names(x + 1),
        name,
        len,
    })
}
