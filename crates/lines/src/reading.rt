// One line: its letter, its numbers, and where it ends.
ghost use Rattle.std.specs.Prelude.{◌-◌, ◌≡◌, ◌≤◌, get_or, length};

use crate::put;
use records::fields::word;

// How many numbers a line has, and where its name starts.
#[derive(Clone, Copy)]
pub struct Line {
    pub count: usize,
    pub at: usize,
}

// A command: its letter, and the numbers after it, in places 1 to `last`; where there is no room for one it is 0.
#[derive(Clone, Copy)]
pub struct Command<'a> {
    pub letter: u8,
    pub numbers: &'a [u32],
    pub last: usize,
}

impl Command<'_> {
    pub fn number(self, i: usize) -> u32
        ensures { result ≡ get_or self.entry.numbers.now i 0 }
    {
        word(self.numbers, i)
    }
}

pub fn letter(line: &[u8]) -> u8 {
    line.first().copied().unwrap_or(0)
}

// One byte more of number j; a space starts the next. Answers the number that it belongs to.
fn feed(numbers: &mut [u32], j: usize, b: u8) -> usize {
    if b == b' ' {
        let k = j.wrapping_add(1);
        put(numbers, k, 0);
        return k;
    }
    let digit = u32::from(b.saturating_sub(b'0'));
    put(
        numbers,
        j,
        word(numbers, j).wrapping_mul(10).wrapping_add(digit),
    );
    j
}

// The numbers of a line, from 1 on, up to its end or to `:`, after which its name starts.
pub fn read_line(line: &[u8], numbers: &mut [u32]) -> Line
    ensures { result.at ≤ length line.now }
{
    let mut count: usize = 0;
    for (i, &b) in line.iter().enumerate() {
        if b == b':' {
            return Line { count, at: i + 1 };
        }
        count = feed(numbers, count, b);
    }
    Line {
        count,
        at: line.len(),
    }
}

// The first n numbers of a line, without what stands for its letter.
pub fn numbers(list: &[u32], n: usize) -> &[u32] {
    let e = n.wrapping_add(1).min(list.len());
    if e < 1 { list } else { &list[1..e] }
}

// Where the line that starts at `from` ends: before its line feed, or where the text ends. It is no longer than what is left of the text.
pub fn line_end(text: &[u8], from: usize) -> usize
    ensures { (from ≤ result) × (result - from ≤ length text.now - from) }
{
    for i in from..text.len() {
        if text[i] == b'\n' {
            return i;
        }
    }
    from.max(text.len())
}
