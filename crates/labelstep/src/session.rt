// What lasts from line to line.
use commands::LINE_LIMIT;
use records::{CELL_SLICE, CHAR_LIMIT, KEY_SLICE, LIST_LIMIT, REASON_SLICE, State, TERM_SLICE};

// The slices of the store and what is counted of them; the list that a line is read into and that a step answers, and the known list, with
// how many terms are known; the next stamp.
#[derive(Drop)]
pub(crate) struct Session {
    pub terms: [u32; TERM_SLICE],
    pub cells: [u32; CELL_SLICE],
    pub chars: [u32; CHAR_LIMIT],
    pub reasons: [u32; REASON_SLICE],
    pub keys: [u32; KEY_SLICE],
    pub counts: State,
    pub list: [u32; LIST_LIMIT],
    pub known: [u32; LIST_LIMIT],
    pub known_len: usize,
    pub stamp: u32,
    pub line: Line,
}

// The line that is read: its number, its bytes so far, and whether it has more of them than a line may have.
#[derive(Drop)]
pub(crate) struct Line {
    pub number: u64,
    pub bytes: [u8; LINE_LIMIT],
    pub len: usize,
    pub over: bool,
}

// 'The known list starts empty, the name counter at 0 and no key set'.
pub(crate) fn start() -> Session {
    Session {
        terms: [0; TERM_SLICE],
        cells: [0; CELL_SLICE],
        chars: [0; CHAR_LIMIT],
        reasons: [0; REASON_SLICE],
        keys: [0; KEY_SLICE],
        counts: State::of(0, 0, 0, 0, 0, 0),
        list: [0; LIST_LIMIT],
        known: [0; LIST_LIMIT],
        known_len: 0,
        stamp: 1,
        line: Line {
            number: 1,
            bytes: [0; LINE_LIMIT],
            len: 0,
            over: false,
        },
    }
}

impl Line {
    // One byte more: what a line does not hold is passed over.
    pub fn keep(&mut self, b: u8) {
        if self.len < LINE_LIMIT {
            self.bytes[self.len] = b;
            self.len += 1;
        } else {
            self.over = true;
        }
    }

    // The next line, of which nothing is read.
    pub fn next(&mut self) {
        self.number = self.number.wrapping_add(1);
        self.len = 0;
        self.over = false;
    }
}
