// Step 5: a side of constants against a side with one variable class.
ghost use Rattle.std.specs.Prelude.{◌≡◌, true, false, not, suc, ◌+◌, ◌<◌, ◌≤◌, length, drop, get_or};
ghost use Rattle.records.specs.Lists.{all};
ghost use Rattle.records.specs.Store.{is_constant, is_string};
ghost use Rattle.records.specs.View.{store_of, across, Between, read_in, termed, changing, lent};
ghost use Rattle.records.specs.Working.Audited.{Ready};
ghost use Rattle.records.specs.Rules.{is_list, list_limit};
ghost use Rattle.sides.specs.Wordeq.{◌or_else◌, letters, fits, variables, tile_by, tile};
ghost use Rattle.sides.specs.Working.Results.{BothLists, Tries};
ghost use Rattle.sides.specs.Working.Sides.{Spelled};
ghost use Rattle.sides.specs.Working.Stripping.{Readable, Pair};
ghost use Rattle.sides.specs.Working.Spans.{FirstVariable, agrees, unfit};

use crate::letters::Cursor;
use crate::{StepResult, explaining, letters, stripping};
use records::{Kind, Refusal, State, rules};

pub fn first_variable_unchecked(terms: &[u32], c: State, side: &[u32]) -> usize
    ensures { FirstVariable (termed terms.now c) side.now result }
{
    letters::first_of_kind_unchecked(terms, c, side, u32::from(Kind::Constant), false)
}

// Whether one word for the side's k variables fits: there is a length m with k × m + n = l, where the word has l characters and the side
// n constant ones, and with the first variable's span for each variable the side is the word. The first variable is at place i, so its
// span begins after the characters before it.
fn fits<'a>(
    terms: &[u32],
    chars: &[u32],
    c: State,
    word: &'a [u32],
    side: &'a [u32],
    i: usize,
    k: usize,
) -> bool
    requires { Spelled terms.now chars.now c × (length word.now ≤ list_limit) × (length side.now ≤ list_limit) × FirstVariable (termed terms.now c) side.now i × (0 < k) }
    ensures { let s = read_in terms.now chars.now c in result ≡ fits s (letters s word.now) side.now k }
{
    let l = letters::letters_length_unchecked(terms, c, word);
    let n = letters::letters_length_unchecked(terms, c, side);
    if l < n || (l - n) % k != 0 {
        return false;
    }
    let m = (l - n) / k;
    let place = letters::letters_length_unchecked(terms, c, &side[..i]);
    letters::is_tiled(terms, chars, c, word, side, Cursor { atom: 0, place }, m)
}

fn is_variable(terms: &[u32], c: State, a: u32) -> bool
    ensures { result ≡ not (is_constant (termed terms.now c) a) }
{
    !rules::is_a(terms, c.terms, a, Kind::Constant)
}

// The variables of a list, counted.
pub fn variables_length(terms: &[u32], c: State, l: &[u32]) -> usize
    ensures { result ≡ length (variables (termed terms.now c) l.now) }
{
    l.iter().filter(|&&a| is_variable(terms, c, a)).count()
}

fn atom_agrees(terms: &[u32], chars: &[u32], c: State, a: u32, v: u32) -> bool
    requires readable { Readable terms.now chars.now c }
    requires pair { Pair (read_in terms.now chars.now c) a v }
    ensures { result ≡ agrees (read_in terms.now chars.now c) v a }
{
    rules::is_a(terms, c.terms, a, Kind::Constant)
        || stripping::same_unchecked(terms, chars, c, a, v)
}

// Whether each variable of a list is the same as v.
pub fn all_agree_unchecked(terms: &[u32], chars: &[u32], c: State, l: &[u32], v: u32) -> bool
    requires readable { Readable terms.now chars.now c }
    requires l_value { all (is_string (read_in terms.now chars.now c)) l.now ≡ true }
    requires v_value { is_string (read_in terms.now chars.now c) v ≡ true }
    ensures { result ≡ all (agrees (read_in terms.now chars.now c) v) l.now }
{
    for &a in l {
        if !atom_agrees(terms, chars, c, a, v) {
            return false;
        }
    }
    true
}

// Whether the variables of a side, of which the first is at place i, are one class and no word for it fits.
fn is_unfit<'a>(
    terms: &[u32],
    chars: &[u32],
    c: State,
    word: &'a [u32],
    side: &'a [u32],
    i: usize,
) -> bool
    requires readable { Readable terms.now chars.now c }
    requires lists { let r = side.now in (length word.now ≤ list_limit) × (is_list (read_in terms.now chars.now c) r ≡ true) × FirstVariable (termed terms.now c) r i × (i < length r) }
    ensures { let s = read_in terms.now chars.now c in result ≡ unfit s word.now side.now (get_or side.now i 0) (variables s (drop (suc i) side.now)) }
{
    let later = &side[i + 1..];
    all_agree_unchecked(terms, chars, c, later, side[i])
        && !fits(
            terms,
            chars,
            c,
            word,
            side,
            i,
            variables_length(terms, c, later) + 1,
        )
}

// Step 5 on the constant side and the side against it. Departure B: each later variable is explained with the first.
fn tile_sides<'a>(
    terms: &[u32],
    cells: &[u32],
    chars: &[u32],
    reasons: &mut [u32],
    keys: &[u32],
    c: State,
    word: &'a [u32],
    side: &'a [u32],
) -> Result<StepResult, Refusal>
    requires ready { Ready (lent terms.now cells.now chars.now reasons.old keys.now) c }
    requires both_lists { BothLists (store_of (lent terms.now cells.now chars.now reasons.old keys.now) c) word.now side.now }
    ensures { let m = (across terms cells chars (changing reasons) keys).entry in let s = store_of m c in Tries (tile_by s word.now side.now (variables s side.now)) m (across terms cells chars (changing reasons) keys).exit c result }
{
    let i = first_variable_unchecked(terms, c, side);
    if side.len() <= i || !is_unfit(terms, chars, c, word, side, i) {
        return Ok(StepResult::Done(c));
    }
    let later = &side[i + 1..];
    let d = explaining::explain_all_unchecked(
        terms, cells, chars, reasons, keys, c, later, side[i],
    )?;
    Ok(StepResult::Conflict(d))
}

// Step 5 from the left, then from the right. The constant side is picked from the two lists and handed on as it was lent.
pub fn tile_unchecked<'a>(
    terms: &[u32],
    cells: &[u32],
    chars: &[u32],
    reasons: &mut [u32],
    keys: &[u32],
    c: State,
    lhs: &'a [u32],
    rhs: &'a [u32],
) -> Result<StepResult, Refusal>
    requires ready { Ready (lent terms.now cells.now chars.now reasons.old keys.now) c }
    requires both_lists { BothLists (store_of (lent terms.now cells.now chars.now reasons.old keys.now) c) lhs.now rhs.now }
    ensures { Between (Tries (tile lhs.now rhs.now or_else tile rhs.now lhs.now)) (across terms cells chars (changing reasons) keys) c result }
{
    let which = letters::which_fixed(terms, c, lhs, rhs);
    let word = letters::pick(which, lhs, rhs);
    let side = letters::pick(which, rhs, lhs);
    tile_sides(terms, cells, chars, reasons, keys, c, word, side)
}
