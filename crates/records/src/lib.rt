// The store of labels: its layout in lent slices, its audit, its counts, and the calls that make terms.
#![tactic(auto)]

ghost use Rattle.std.specs.Prelude.{◌≡◌, ◌+◌, ◌<◌, ◌≤◌};
ghost use Rattle.records.specs.Refusal.{verdict};
ghost use Rattle.records.specs.Rules.{audit};
ghost use Rattle.records.specs.View.{term_limit, cell_limit, char_limit, reason_limit, key_limit, one_term, more_cells, more_chars, reasons_at, one_reason, one_key, names_at, counts, across};

pub mod build;
pub mod classes;
pub mod fields;
mod heights;
pub mod index;
pub mod kind;
pub mod label;
pub mod make;
pub mod names;
pub mod put;
pub mod refusal;
pub mod roots;
pub mod rules;
pub mod text;
mod unique;

pub use kind::Kind;
pub use label::Label;
pub use refusal::Refusal;

// The heads of the index, which stand before record 0 of terms.
pub const BUCKETS: usize = 64;

// The words of a term, the next term of its bucket with them, and of a cell.
pub const TERM_WIDTH: usize = 9;

pub const CELL_WIDTH: usize = 3;

pub const TERM_LIMIT: usize = 512;

pub const CELL_LIMIT: usize = 2048;

pub const CHAR_LIMIT: usize = 16384;

pub const REASON_LIMIT: usize = 4096;

pub const KEY_LIMIT: usize = 4096;

// The words of a slice that holds as many records as the limit allows; record 0 of terms and of cells takes words too.
pub const TERM_SLICE: usize = BUCKETS + TERM_WIDTH * (TERM_LIMIT + 1);

pub const CELL_SLICE: usize = CELL_WIDTH * (CELL_LIMIT + 1);

pub const REASON_SLICE: usize = 2 * REASON_LIMIT;

pub const KEY_SLICE: usize = 2 * KEY_LIMIT;

pub const LIST_LIMIT: usize = 1024;

pub const NAME_LIMIT: u32 = 4294967295;

// The audit: the first refusal of 1 to 4 and 12 that is due. Nothing is asked of the slices or of the counts.
pub fn audit(
    terms: &[u32],
    cells: &[u32],
    chars: &[u32],
    reasons: &[u32],
    keys: &[u32],
    c: State,
) -> Result<(), Refusal>
    ensures { verdict result ≡ audit (across terms cells chars reasons keys).entry c }
{
    if !rules::sizes(terms, cells, chars, reasons, keys, c) {
        return Err(Refusal::Sizes);
    }
    if !rules::records_ok(terms, cells, chars, reasons, keys, c) {
        return Err(Refusal::Records);
    }
    if !classes::classes_ok_unchecked(terms, c) {
        return Err(Refusal::Classes);
    }
    if !classes::congruences_ok_unchecked(terms, cells, c) {
        return Err(Refusal::Congruences);
    }
    if !index::index_ok(terms, cells, chars, c) {
        return Err(Refusal::Index);
    }
    Ok(())
}

// How many records of each slice are counted, and the name counter. Record 0 of terms and of cells is not counted.
#[derive(Clone, Copy)]
pub struct State {
    pub terms: usize,
    pub cells: usize,
    pub chars: usize,
    pub reasons: usize,
    pub keys: usize,
    pub names: u32,
}

// A name taken: the counts with the counter past it, the name and its length.
#[derive(Clone, Copy)]
pub struct Named {
    pub state: State,
    pub name: [u32; 15],
    pub len: usize,
}

// One record more, another count of reasons or another name counter: the counts go in by value and the new ones come back.
impl State {
    // The counts as a caller tells them. Every public call audits them.
    pub fn of(
        terms: usize,
        cells: usize,
        chars: usize,
        reasons: usize,
        keys: usize,
        names: u32,
    ) -> State
        ensures { result ≡ counts terms cells chars reasons keys names }
    {
        State {
            terms,
            cells,
            chars,
            reasons,
            keys,
            names,
        }
    }

    fn with_term(self) -> State
        requires { self.terms < term_limit }
        ensures { result ≡ one_term self }
    {
        State {
            terms: self.terms + 1,
            ..self
        }
    }

    fn with_cells(self, n: usize) -> State
        requires { self.cells + n ≤ cell_limit }
        ensures { result ≡ more_cells self n }
    {
        State {
            cells: self.cells + n,
            ..self
        }
    }

    fn with_chars(self, n: usize) -> State
        requires { self.chars + n ≤ char_limit }
        ensures { result ≡ more_chars self n }
    {
        State {
            chars: self.chars + n,
            ..self
        }
    }

    pub fn with_reasons(self, n: usize) -> State
        ensures { result ≡ reasons_at self n }
    {
        State { reasons: n, ..self }
    }

    pub fn with_reason_unchecked(self) -> State
        requires { self.reasons < reason_limit }
        ensures { result ≡ one_reason self }
    {
        State {
            reasons: self.reasons + 1,
            ..self
        }
    }

    fn with_key(self) -> State
        requires { self.keys < key_limit }
        ensures { result ≡ one_key self }
    {
        State {
            keys: self.keys + 1,
            ..self
        }
    }

    pub fn with_names(self, names: u32) -> State
        ensures { result ≡ names_at self names }
    {
        State { names, ..self }
    }
}
