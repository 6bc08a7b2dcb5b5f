// The fields of a line and its decimal numbers.
ghost use Rattle.std.specs.Prelude.{◌≡◌, ◌+◌, ◌<◌, ◌≤◌, length, drop, pos};
ghost use Rattle.records.specs.Lists.{up_to};
ghost use Rattle.commands.specs.Texts.{space, word_limit, number_below, guard_of, negated};
ghost use Rattle.commands.specs.Commands.{numbers_after};
ghost use Rattle.commands.specs.Working.Readings.{number_is, guard_is, Listed, Resolves};

use crate::Command;

pub const WORD_LIMIT: u64 = 0x1_0000_0000;

// The decimal number of a field, where it is below a limit. Reading ends at the first digit that takes it there.
pub(crate) fn number_of(w: &[u8], limit: u64) -> Option<u32>
    requires some_limit { 0 < limit }
    requires low_limit { limit ≤ word_limit }
    ensures { number_is result ≡ number_below limit w.now }
{
    if w.is_empty() {
        return None;
    }
    let mut x: u64 = 0;
    for &b in w {
        if !b.is_ascii_digit() {
            return None;
        }
        x = 10 * x + u64::from(b - b'0');
        if limit <= x {
            return None;
        }
    }
    Some(x as u32)
}

// The place of the next space, or the end of the line.
fn field_end(line: &[u8], at: usize) -> usize
    requires { at ≤ length line.now }
    ensures { result ≡ at + length (up_to space (drop at line.now)) }
{
    for i in at..line.len() {
        if line[i] == b' ' {
            return i;
        }
    }
    line.len()
}

// The numbers of what follows a command's letter, into a list with room for one to a byte.
pub(crate) fn read_numbers(rest: &[u8], list: &mut [u32]) -> Option<usize>
    requires { length rest.now ≤ length list.old }
    ensures { Listed (numbers_after rest.now) result list.new }
{
    let mut at: usize = 0;
    let mut n: usize = 0;
    while at < rest.len() {
        if rest[at] != b' ' {
            return None;
        }
        let from = at + 1;
        let end = field_end(rest, from);
        list[n] = number_of(&rest[from..end], WORD_LIMIT)?;
        n += 1;
        at = end;
    }
    Some(n)
}

fn positive(x: u32) -> i32
    requires { x < 0x8000_0000 }
    ensures { result ≡ pos x }
{
    x as i32
}

fn negative(x: u32) -> i32
    requires { x ≤ 0x8000_0000 }
    ensures { result ≡ negated x }
{
    if x == 0 { 0 } else { -1 - positive(x - 1) }
}

// The guard with this word: from 2,147,483,648 on a negative one.
pub fn guard_of_word(x: u32) -> i32 {
    x.cast_signed()
}

// A guard: digits, after a minus sign where it is below 0.
fn guard_of(w: &[u8]) -> Option<i32>
    ensures { guard_is result ≡ guard_of w.now }
{
    match w.strip_prefix(b"-") {
        Some(digits) => Some(negative(number_of(digits, 0x8000_0001)?)),
        None => Some(positive(number_of(w, 0x8000_0000)?)),
    }
}

// What follows the letter `R`: a term and a guard.
pub(crate) fn read_resolve(rest: &[u8]) -> Option<Command>
    ensures { Resolves rest.now result }
{
    let [b' ', ..] = rest else {
        return None;
    };
    let end = field_end(rest, 1);
    if rest.len() <= end {
        return None;
    }
    let from = end + 1;
    let last = field_end(rest, from);
    if last < rest.len() {
        return None;
    }
    let t = number_of(&rest[1..end], WORD_LIMIT)?;
    let g = guard_of(&rest[from..last])?;
    Some(Command::Resolve(t, g))
}
