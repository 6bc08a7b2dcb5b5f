// Printing what a call answered.
use crate::Store;
use records::{Refusal, State};
use std::io;

// 0, or the refusal's number.
pub(crate) fn verdict<T: Drop>(r: Result<T, Refusal>) -> u32 {
    match r {
        Ok(_) => 0,
        Err(k) => u32::from(k),
    }
}

// Says what a making call answered, and whether the words are kept. What was made is counted from here on.
pub(crate) fn tell(
    rt: &impl Print,
    name: &[u8],
    r: Result<(u32, State), Refusal>,
    kept: bool,
    s: &mut Store,
) -> io::Result<()> {
    rt.write_all(name)?;
    print!(rt; " {}", verdict(r))?;
    if let Ok((t, d)) = r {
        print!(rt; " term {t} counts {} {} {}", d.terms, d.cells, d.chars)?;
        s.counts = d;
    }
    rt.write_all(if kept { b" kept\n" } else { b" changed\n" })
}
