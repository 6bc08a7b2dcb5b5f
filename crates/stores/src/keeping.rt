// Whether a call left the words as they were that it has to leave so.
use crate::{CELL_WORDS, CHAR_WORDS, Store, TERM_WORDS, terms_of};
use lines::indexing::term_place;
use lines::lending::{front, rest};
use records::{CELL_LIMIT, CELL_WIDTH, Refusal, State, TERM_WIDTH};

// The words before a call. They are copied into it, not answered: an answer of this size is copied once more.
#[derive(Drop)]
pub(crate) struct Old {
    pub terms: [u32; TERM_WORDS],
    pub cells: [u32; CELL_WORDS],
    pub chars: [u32; CHAR_WORDS],
}

pub(crate) fn save(s: &Store, old: &mut Old) {
    old.terms.copy_from_slice(&s.terms);
    old.cells.copy_from_slice(&s.cells);
    old.chars.copy_from_slice(&s.chars);
}

// Whether n words from word `at` on are those of before.
fn stays(now: &[u32], old: &[u32], at: usize, n: usize) -> bool {
    front(rest(now, at), n) == front(rest(old, at), n)
}

// Whether record 0 of terms and the first eight words of n others are as they were.
fn records_stay(now: &[u32], old: &[u32], n: u32) -> bool {
    stays(now, old, term_place(0, 0), TERM_WIDTH)
        && (1..=n).all(|t| stays(now, old, term_place(t, 0), 8))
}

fn cell_words(n: usize) -> usize {
    CELL_WIDTH * (n.min(CELL_LIMIT) + 1)
}

// The words that have to be as they were: those of the records counted after an answer and after refusals 6 to 9, else all of them.
fn held(r: Result<(u32, State), Refusal>, counted: usize, len: usize) -> usize {
    match r {
        Ok(_) | Err(Refusal::List | Refusal::Reasons | Refusal::Room | Refusal::Names) => counted,
        Err(_) => len,
    }
}

// Of terms: after an answer the records without their ninth words, after refusals 6 to 9 these and the heads too.
fn terms_kept(r: Result<(u32, State), Refusal>, n: u32, now: &[u32], old: &[u32]) -> bool {
    if r.is_ok() {
        return records_stay(now, old, n);
    }
    let words = held(r, term_place(n, TERM_WIDTH), now.len());
    stays(now, old, 0, words)
}

// Of cells or characters, of which so many words are counted.
fn words_kept(r: Result<(u32, State), Refusal>, counted: usize, now: &[u32], old: &[u32]) -> bool {
    stays(now, old, 0, held(r, counted, now.len()))
}

pub(crate) fn kept(r: Result<(u32, State), Refusal>, s: &Store, old: &Old) -> bool {
    let c = s.counts;
    terms_kept(r, terms_of(c), &s.terms, &old.terms)
        && words_kept(r, cell_words(c.cells), &s.cells, &old.cells)
        && words_kept(r, c.chars, &s.chars, &old.chars)
}
