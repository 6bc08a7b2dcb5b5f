// The calls, each on the slices as they are lent.
use crate::keeping::{Old, kept, save};
use crate::saying::{tell, verdict};
use crate::{CELL_WORDS, CHAR_WORDS, Store, TERM_WORDS};
use lines::reading::Command;
use records::{Refusal, State};
use std::io;

pub(crate) fn ask_audit(rt: &impl Print, name: &[u8], s: &mut Store) -> io::Result<()> {
    let c = s.counts;
    let ((terms, cells, chars, reasons, keys), _) = s.lent();
    let k = verdict(records::audit(terms, cells, chars, reasons, keys, c));
    rt.write_all(name)?;
    print!(rt; " {k}\n")
}

// What a command makes: a constant, variable or concatenation of the list, or a length or an equation of terms.
#[derive(Clone, Copy)]
pub(crate) enum Making {
    Constant,
    Variable,
    Concatenation,
    Length(u32),
    Equation(u32, u32),
}

pub(crate) fn making_of(c: Command<'_>) -> Option<Making> {
    let t = c.number(1);
    match c.letter {
        b'c' => Some(Making::Constant),
        b'v' => Some(Making::Variable),
        b'p' => Some(Making::Concatenation),
        b'l' => Some(Making::Length(t)),
        b'e' => Some(Making::Equation(t, c.number(2))),
        _ => None,
    }
}

fn make(m: Making, s: &mut Store) -> Result<(u32, State), Refusal> {
    let c = s.counts;
    let ((terms, cells, chars, reasons, keys), list) = s.lent();
    match m {
        Making::Constant => {
            records::make::make_constant(terms, cells, chars, reasons, keys, c, list)
        }
        Making::Variable => {
            records::make::make_variable(terms, cells, chars, reasons, keys, c, list)
        }
        Making::Concatenation => {
            records::build::make_concatenation(terms, cells, chars, reasons, keys, c, list)
        }
        Making::Length(t) => {
            records::build::make_length(terms, cells, chars, reasons, keys, c, t)
        }
        Making::Equation(t, u) => {
            records::build::make_equation(terms, cells, chars, reasons, keys, c, t, u)
        }
    }
}

pub(crate) fn ask_make(rt: &impl Print, m: Making, name: &[u8], s: &mut Store) -> io::Result<()> {
    let mut old = Old {
        terms: [0; TERM_WORDS],
        cells: [0; CELL_WORDS],
        chars: [0; CHAR_WORDS],
    };
    save(s, &mut old);
    let r = make(m, s);
    let same = kept(r, s, &old);
    tell(rt, name, r, same, s)
}
