// What is printed of a store after resolve_equation and the step.
use crate::Store;
use crate::saying::{say_constant, say_reasons, say_text};
use building::Counts;
use building::words::narrow;
use records::{Kind, State, fields};
use std::io;

// A concatenation made has two parts.
fn say_concatenation(rt: &impl Print, cells: &[u32], e: u32) -> io::Result<()> {
    let t = fields::value(cells, e);
    let u = fields::value(cells, fields::next(cells, e));
    print!(rt; " {t}+{u}")
}

fn say_term(rt: &impl Print, s: &Store, t: u32) -> io::Result<()> {
    let first = fields::first(&s.terms, t);
    let second = fields::second(&s.terms, t);
    match Kind::try_from(fields::kind(&s.terms, t)) {
        Ok(Kind::Constant) => say_constant(rt, s, t),
        Ok(Kind::Variable) => {
            rt.write_all(b" ")?;
            say_text(rt, &s.chars, first, second)
        }
        Ok(Kind::Concatenation) => say_concatenation(rt, &s.cells, first),
        Ok(Kind::Length) => print!(rt; " |{first}|"),
        _ => print!(rt; " {first}={second}"),
    }
}

fn kept(c: Counts, d: State) -> Counts {
    Counts {
        terms: narrow(d.terms),
        cells: narrow(d.cells),
        chars: narrow(d.chars),
        reasons: d.reasons,
        keys: d.keys,
        names: d.names,
        ..c
    }
}

// The case, the reasons, the new counts and the terms made. Answers what is counted after the call.
pub fn say_store(rt: &impl Print, case: &str, s: &Store, d: State) -> io::Result<Counts> {
    print!(rt; "{case}, ")?;
    say_reasons(rt, &s.reasons, d.reasons)?;
    print!(rt;
        ", {} {} {} {} {}",
        d.terms, d.cells, d.chars, d.keys, d.names
    )?;
    for t in s.counts.terms..narrow(d.terms) {
        say_term(rt, s, t + 1)?;
    }
    Ok(kept(s.counts, d))
}
