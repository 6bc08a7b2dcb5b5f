// The calls, each on the slices as they are lent. Where a call takes two sides, these are the first p atoms of the list and the rest.
use crate::Store;
use crate::marking::standing;
use classes::Standing;
use empties::Empties;
use equation::Outcome;
use forced::Forced;
use lines::lending::{front, rest};
use records::{Refusal, State};
use sides::StepResult;

pub fn find(s: &mut Store, t: u32) -> Result<u32, Refusal> {
    let c = s.state();
    let ((terms, cells, chars, reasons, keys), _, _) = s.lent();
    engine::find(terms, cells, chars, reasons, keys, c, t)
}

pub fn explain(s: &mut Store, a: u32, b: u32) -> Result<State, Refusal> {
    let c = s.state();
    let ((terms, cells, chars, reasons, keys), _, _) = s.lent();
    engine::explain(terms, cells, chars, reasons, keys, c, a, b)
}

pub fn normal_form(s: &mut Store, t: u32, list: &mut [u32]) -> Result<(usize, State), Refusal> {
    let c = s.state();
    let ((terms, cells, chars, reasons, keys), known, _) = s.lent();
    normalize::normal_form_cited(terms, cells, chars, reasons, keys, c, known, t, list)
}

pub fn deep_form(
    s: &mut Store,
    t: u32,
    list: &mut [u32],
) -> Result<(Option<usize>, State), Refusal> {
    let c = s.state();
    let ((terms, cells, chars, reasons, keys), known, _) = s.lent();
    normalize::deep_normal_form_cited(terms, cells, chars, reasons, keys, c, known, t, list)
}

pub fn resolve(s: &mut Store, p: usize, g: i32, list: &mut [u32]) -> Result<StepResult, Refusal> {
    let c = s.state();
    let ((terms, cells, chars, reasons, keys), known, _) = s.lent();
    wordeq::resolve_equation(
        terms,
        cells,
        chars,
        reasons,
        keys,
        c,
        front(known, p),
        rest(known, p),
        g,
        list,
    )
}

pub fn step(s: &mut Store, e: u32, g: i32, list: &mut [u32]) -> Result<Outcome, Refusal> {
    let c = s.state();
    let ((terms, cells, chars, reasons, keys), known, _) = s.lent();
    equation::step(terms, cells, chars, reasons, keys, c, known, e, g, list)
}

pub fn empty_parts(s: &mut Store, p: usize, list: &mut [u32]) -> Result<Empties, Refusal> {
    let c = s.state();
    let ((terms, cells, chars, reasons, keys), known, _) = s.lent();
    empties::empty_parts(
        terms,
        cells,
        chars,
        reasons,
        keys,
        c,
        front(known, p),
        rest(known, p),
        list,
    )
}

pub fn forced_length(s: &mut Store, p: usize) -> Result<Forced, Refusal> {
    let c = s.state();
    let ((terms, cells, chars, reasons, keys), known, _) = s.lent();
    forced::forced_length(
        terms,
        cells,
        chars,
        reasons,
        keys,
        c,
        front(known, p),
        rest(known, p),
    )
}

pub fn nf_equal(s: &mut Store, p: usize) -> Result<bool, Refusal> {
    let c = s.state();
    let ((terms, cells, chars, reasons, keys), known, _) = s.lent();
    wordeq::nf_equal(
        terms,
        cells,
        chars,
        reasons,
        keys,
        c,
        front(known, p),
        rest(known, p),
    )
}

pub fn nf_equal_explain(s: &mut Store, p: usize) -> Result<State, Refusal> {
    let c = s.state();
    let ((terms, cells, chars, reasons, keys), known, _) = s.lent();
    wordeq::nf_equal_explain(
        terms,
        cells,
        chars,
        reasons,
        keys,
        c,
        front(known, p),
        rest(known, p),
    )
}

pub fn join(
    s: &mut Store,
    a: u32,
    b: u32,
    kind: u32,
    number: u32,
) -> Result<(u32, Standing), Refusal> {
    let c = s.state();
    let d = standing(&s.marks);
    let ((terms, cells, chars, reasons, keys), _, marks) = s.lent();
    classes::join(
        terms, cells, chars, reasons, keys, c, marks, d, a, b, kind, number,
    )
}

pub fn set_mark(s: &mut Store) -> Result<(u32, Standing), Refusal> {
    let c = s.state();
    let d = standing(&s.marks);
    let ((terms, cells, chars, reasons, keys), _, marks) = s.lent();
    classes::set_mark(terms, cells, chars, reasons, keys, c, marks, d)
}

pub fn go_back(s: &mut Store, n: u32) -> Result<(u32, Standing), Refusal> {
    let c = s.state();
    let d = standing(&s.marks);
    let ((terms, cells, chars, reasons, keys), _, marks) = s.lent();
    classes::go_back(terms, cells, chars, reasons, keys, c, marks, d, n)
}
