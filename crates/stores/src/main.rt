// Stores, good and damaged, and what each public call of `records` answers on them. Standard input has the cases, a command to a
// line: a letter, then decimal numbers, each after one space; a call is followed by `:` and the case's name.
//
//   G                      the good store: its words, counts and slices with no word to spare
//   O                      no record counted, whole slices
//   N t e h r k n          the counts of terms, cells, characters, reasons and keys, and the name counter
//   L t e h r k            how many words of each slice are lent
//   T t i x · E c i x      word i of term t, of cell c, becomes x
//   I i x                  word i of the slice of terms becomes x, the heads of the index being words 0 to 63
//   H i x · R i x · K i x  word i of characters, reasons, keys becomes x
//   F s i n d x y          n words of slice s (1 to 5, and 6 the list) from i on, d apart, become x, x + y, x + 2y ..
//   W x ..                 the list lent to a call · Z n: its length
//   A · c · v · p          the audit; make a constant, variable, concatenation of the list
//   l t · e t u            make a length, an equation
//
// Another line is a remark. G, O, N, T, E, H and F put the index of the counted terms anew; a call leaves its own.
#![tactic(auto)]

mod asking;
mod changing;
mod keeping;
mod saying;

use crate::asking::{ask_audit, ask_make, making_of};
use crate::changing::{change, change_records};
use lines::indexing::put_index;
use lines::input::{TEXT_LIMIT, read_text};
use lines::lending::{Lens, Lent, front, front_mut};
use lines::reading::{Command, letter, numbers, read_line};
use records::{
    CELL_LIMIT, CELL_WIDTH, CHAR_LIMIT, KEY_LIMIT, REASON_LIMIT, State, TERM_LIMIT, TERM_SLICE,
    TERM_WIDTH,
};
use std::io;

// The words of each slice: room for one record more than each limit.
pub(crate) const TERM_WORDS: usize = TERM_SLICE + TERM_WIDTH;

pub(crate) const CELL_WORDS: usize = CELL_WIDTH * (CELL_LIMIT + 2);

pub(crate) const CHAR_WORDS: usize = CHAR_LIMIT + 8;

const REASON_WORDS: usize = 2 * (REASON_LIMIT + 1);

const KEY_WORDS: usize = 2 * (KEY_LIMIT + 1);

// The numbers of a line, its letter before them.
const NUMBERS: usize = 64;

// What lasts from line to line: the slices, what is counted of them, and how many words of each are lent; and the list, with its length.
#[derive(Drop)]
pub(crate) struct Store {
    pub terms: [u32; TERM_WORDS],
    pub cells: [u32; CELL_WORDS],
    pub chars: [u32; CHAR_WORDS],
    pub reasons: [u32; REASON_WORDS],
    pub keys: [u32; KEY_WORDS],
    pub counts: State,
    pub lens: Lens,
    pub list: [u32; CHAR_WORDS],
    pub listed: usize,
}

// How many terms are counted, or more than there can be.
pub(crate) fn terms_of(c: State) -> u32 {
    c.terms.min(TERM_LIMIT) as u32
}

impl Store {
    fn new() -> Store {
        Store {
            terms: [0; TERM_WORDS],
            cells: [0; CELL_WORDS],
            chars: [0; CHAR_WORDS],
            reasons: [0; REASON_WORDS],
            keys: [0; KEY_WORDS],
            counts: State::of(0, 0, 0, 0, 0, 0),
            lens: Lens {
                terms: 0,
                cells: 0,
                chars: 0,
                reasons: 0,
                keys: 0,
            },
            list: [0; CHAR_WORDS],
            listed: 0,
        }
    }

    // The slices and the list as they are lent.
    pub fn lent(&mut self) -> (Lent<'_>, &[u32]) {
        let z = self.lens;
        let n = self.listed;
        let terms = &mut self.terms;
        let cells = &mut self.cells;
        let chars = &mut self.chars;
        let reasons = &mut self.reasons;
        let keys = &mut self.keys;
        let list = &self.list;
        let slices = (
            front_mut(terms, z.terms),
            front_mut(cells, z.cells),
            front_mut(chars, z.chars),
            front_mut(reasons, z.reasons),
            front_mut(keys, z.keys),
        );
        (slices, numbers(list, n))
    }
}

fn step(rt: &impl Print, line: &[u8], s: &mut Store) -> io::Result<()> {
    let mut n: [u32; NUMBERS] = [0; NUMBERS];
    let p = read_line(line, &mut n);
    let name = &line[p.at..];
    let c = Command {
        letter: letter(line),
        numbers: &n,
        last: p.count,
    };
    if let Some(m) = making_of(c) {
        return ask_make(rt, m, name, s);
    }
    if c.letter == b'A' {
        return ask_audit(rt, name, s);
    }
    if change_records(c, s) {
        let most = terms_of(s.counts);
        put_index(&mut s.terms, &s.cells, &s.chars, most);
    } else {
        change(c, s);
    }
    Ok(())
}

fn run(rt: &impl Print, text: &[u8], s: &mut Store) -> io::Result<()> {
    for line in text.split(|&b| b == b'\n') {
        step(rt, line, s)?;
    }
    Ok(())
}

fn main(rt: HostRuntime) -> io::Result<()> {
    let mut text = [0u8; TEXT_LIMIT];
    let len = read_text(&rt, &mut text)?;
    let mut s = Store::new();
    run(&rt, front(&text, len), &mut s)
}
