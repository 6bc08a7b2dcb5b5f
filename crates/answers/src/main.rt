// Stores of many shapes, and what each call answers on them. Standard input has the cases, a command to a line: a
// letter, then decimal numbers, each after one space, or a text after one space, a byte to a character.
//
//   N               no record counted, no mark and no join
//   V n             n variables more, each alone in its class
//   H n             n variables more, of one class: in the forest each below the next one, the edge of t with label at and stamp t;
//                   in the class tree all below the first
//   I text          a variable of this name
//   K text          a constant of these characters
//   S x y ..        a constant of the characters with these numbers
//   O n x           a constant of n times the character with number x
//   P t u ..        the concatenation of t, u ..
//   X k f s         a term with these first three words
//   A t p k v s     the edge from t to p, in the class tree too: kind and value of its label, and its stamp
//   F t p k v s     the same in the forest alone
//   C t p           the class parent of t
//   G t p s a b ..  the congruence edge from t to p, in the class tree too: its stamp and its pairs (a, b) ..
//   U n d           n times two concatenations t and t + 1 of the terms d and 6 - d before each, joined by congruence with stamp t
//   Y n             variables x0 to xn and, for i from 1 to n, the concatenation of xi and xn, equal to the variable before xi by ai
//   R k v           one reason more
//   l n k v         n reasons of kind k more, numbered from v on
//   k n a b         n times the key (a, b) more
//   i n             n is the name counter
//   W s n           n words are lent of slice s, and the others whole: 1 terms, 2 cells, 3 characters, 4 reasons, 5 keys, 6 the list that is
//                   answered, 7 marks
//   M n             n terms are counted
//   c n             n cells are counted
//   T t i x         word i of term t becomes x
//   x i v           word i of the slice of terms becomes v, the heads of the index being words 0 to 63
//   D c i x         word i of cell c becomes x
//   L t u ..        the list: the known list, or two sides
//   J n t           n times t more in the list
//   f t             find
//   e a b           explain
//   E a b           explain, and the reasons added stay
//   n t             the normal form of t over the known list
//   d t             the deep form of t over the known list
//   r p g           resolve_equation, the list's first p atoms against the rest, with the guard g: from 2147483648 on a number stands
//                   for a negative guard, so that 4294967295 is -1
//   B p g           the same, and what it added stays
//   s e g           the step over the equation e and the known list, with the guard g
//   a p             empty_parts, the list's first p atoms against the rest; what it made stays
//   h p             forced_length, the list's first p atoms against the rest
//   q p             nf_equal, the list's first p atoms and the rest
//   Q p             nf_equal_explain of the same
//   j a b k v       join a and b under the reason of kind k and number v
//   m               set_mark
//   g n             go_back to mark n
//   w i x           word i of the words lent for marks becomes x
//   z m j           m marks and j joins are counted
//   p               the class words of each counted term that has others than a term alone
//   t               the words lent for marks, as far as they are counted
//   #               a remark, which is printed
//
// The index of the terms is put anew by the commands that write records of terms or change their count, and where a call made terms that are not
// counted from then on; else it is what the calls leave. What is asked is printed with its answer: the root, or the refusal; the count of reasons and the reasons, with a3-5 for a3 a4 a5; for
// the forms the count of atoms and the atoms, with 7*3 for 7 7 7, or none; then the reasons, how many terms and characters are counted
// after the call, and the texts of the constants made. What a form made is not counted from then on. For resolve_equation and the step: the
// case with its values (the variable, the word and the link flag; the count of atoms, the atoms and the guard), the reasons, the counts
// of terms, cells, characters and keys, the name counter, and each term made, a concatenation as t+u, a length as |t|, an equation as t=u.
// After a Split a line of its own, which begins with a space, has the number of terms that it says it made; the step's normal forms may have
// made others.
// For empty_parts: the count of variables and the variables, the number of "" and the link flag, then the same.
// For forced_length: k, c and l, then m and r, or the shortage.
// For join, set_mark and go_back: the number answered, and how many marks and joins are counted from then on. A term's class words stand
// as (t class-parent forest-parent label-kind label-value stamp), a recorded join as (child old-root class-root) after the marks' counts.
#![tactic(auto)]

use asking::{ask, question_of};
use building::adding::{apply, uncount};
use building::{Counts, none};
use classes::trail::MARK_WORDS;
use lines::indexing::put_index;
use lines::input::{TEXT_LIMIT, read_text};
use lines::lending::{Lent, front, front_mut};
use lines::put;
use lines::reading::{Command, letter};
use marking::count;
use reading::read;
use records::{CELL_SLICE, CHAR_LIMIT, KEY_LIMIT, LIST_LIMIT, REASON_LIMIT, State, TERM_SLICE};
use std::io;

pub mod asking;
pub mod calling;
pub mod marking;
pub mod reading;
pub mod saying;
pub mod solving;
pub mod stating;

// The words of each slice: of characters two more than the limit, of reasons and keys a record more.
const CHAR_WORDS: usize = CHAR_LIMIT + 2;

const REASON_WORDS: usize = 2 * (REASON_LIMIT + 1);

const KEY_WORDS: usize = 2 * (KEY_LIMIT + 1);

// The numbers or characters of a line, its letter before them.
const NUMBERS: usize = 256;

// Two lists of atoms, and a line more than the limit.
const KNOWN_WORDS: usize = 2 * LIST_LIMIT + NUMBERS;

// What lasts from line to line: the slices, the list, and the words of the marks; and what is counted and lent of them.
#[derive(Drop)]
pub struct Store {
    pub terms: [u32; TERM_SLICE],
    pub cells: [u32; CELL_SLICE],
    pub chars: [u32; CHAR_WORDS],
    pub reasons: [u32; REASON_WORDS],
    pub keys: [u32; KEY_WORDS],
    pub known: [u32; KNOWN_WORDS],
    pub marks: [u32; marking::WORDS],
    pub counts: Counts,
}

impl Store {
    fn new() -> Store {
        Store {
            terms: [0; TERM_SLICE],
            cells: [0; CELL_SLICE],
            chars: [0; CHAR_WORDS],
            reasons: [0; REASON_WORDS],
            keys: [0; KEY_WORDS],
            known: [0; KNOWN_WORDS],
            marks: [0; marking::WORDS],
            counts: none(),
        }
    }

    // What is counted, as a call takes it.
    pub fn state(&self) -> State {
        let c = self.counts;
        State::of(
            c.terms as usize,
            c.cells as usize,
            c.chars as usize,
            c.reasons,
            c.keys,
            c.names,
        )
    }

    // As many words as are lent of each slice; the list; and the words lent for marks.
    pub fn lent(&mut self) -> (Lent<'_>, &[u32], &mut [u32]) {
        let c = self.counts;
        let z = c.lens;
        let terms = &mut self.terms;
        let cells = &mut self.cells;
        let chars = &mut self.chars;
        let reasons = &mut self.reasons;
        let keys = &mut self.keys;
        let known = &self.known;
        let marks = &mut self.marks;
        let slices = (
            front_mut(terms, z.terms),
            front_mut(cells, z.cells),
            front_mut(chars, z.chars),
            front_mut(reasons, z.reasons),
            front_mut(keys, z.keys),
        );
        let n = c.marks.min(MARK_WORDS);
        (slices, front(known, c.known), front_mut(marks, n))
    }

    // What a call made is not counted from here on: the terms before have their index again.
    pub fn uncount(&mut self, made: u32) {
        let c = self.counts;
        uncount(&mut self.terms, &self.cells, &self.chars, made, c);
    }

    // After a call that may have made something, which stays or does not.
    pub fn settle(&mut self, after: Counts, stays: bool) {
        if stays {
            self.counts = after;
        } else {
            self.uncount(after.terms);
        }
    }
}

// No record counted, no mark and no join.
fn empty(s: &mut Store) {
    s.counts = none();
    count(&mut s.marks, 0, 0);
    put_index(&mut s.terms, &s.cells, &s.chars, 0);
}

// A command that asks nothing.
fn change(c: Command<'_>, s: &mut Store) {
    let a = c.number(1);
    let b = c.number(2);
    match c.letter {
        b'N' => empty(s),
        b'w' => put(&mut s.marks, a as usize, b),
        b'z' => count(&mut s.marks, a, b),
        _ => {
            let terms: &mut [u32] = &mut s.terms;
            let cells: &mut [u32] = &mut s.cells;
            let chars: &mut [u32] = &mut s.chars;
            let reasons: &mut [u32] = &mut s.reasons;
            let keys: &mut [u32] = &mut s.keys;
            let slices = (terms, cells, chars, reasons, keys);
            apply(c, slices, &mut s.known, &mut s.counts);
        }
    }
}

// A remark is printed as it stands, and a command that asks with its answer.
fn step(rt: &impl Print, line: &[u8], s: &mut Store) -> io::Result<()> {
    let l = letter(line);
    if l == b'#' {
        rt.write_all(line)?;
        return rt.write_all(b"\n");
    }
    let mut n: [u32; NUMBERS] = [0; NUMBERS];
    let last = read(l, line, &mut n);
    let c = Command {
        letter: l,
        numbers: &n,
        last,
    };
    let Some(q) = question_of(c) else {
        change(c, s);
        return Ok(());
    };
    rt.write_all(line)?;
    ask(rt, q, s)?;
    rt.write_all(b"\n")
}

fn run(rt: &impl Print, text: &[u8], s: &mut Store) -> io::Result<()> {
    for line in text.split(|&b| b == b'\n') {
        step(rt, line, s)?;
    }
    Ok(())
}

fn main(rt: HostRuntime) -> io::Result<()> {
    let mut text = [0u8; TEXT_LIMIT];
    let len = read_text(&rt, &mut text)?;
    let mut s = Store::new();
    run(&rt, front(&text, len), &mut s)
}
