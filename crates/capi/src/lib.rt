// The C interface: each call of the store over lent words, the state in six words of its own. A slice is a pointer and a length.
#![tactic(auto)]

ghost use Rattle.std.specs.Prelude.{◌≡◌};
ghost use Rattle.records.specs.View.{across, Between, changing, lent};
ghost use Rattle.records.specs.Make.{make_constant, constant_arguments, make_variable, variable_arguments, make_concat, concat_arguments};
ghost use Rattle.records.specs.Make.{make_length, length_arguments, make_equation, equation_arguments};
ghost use Rattle.engine.specs.Explain.{find, find_arguments};
ghost use Rattle.capi.specs.Interface.{audited, ExportedExplain, ExportsNumber, ExportsList};
ghost use Rattle.capi.specs.Forms.{ExportedForm, ExportedDeepForm};
ghost use Rattle.capi.specs.Equations.{ExportedResolve, ExportedEqual, ExportedEqualExplain};
ghost use Rattle.capi.specs.Steps.{ExportedStep};

use equation::Outcome;
use records::{Refusal, build, make};
use telling::{
    STATE_ROOM, is_roomy, state_of, tell, tell_answer, tell_counts, tell_still, tell_words,
};

pub mod lengths;
pub mod marks;
pub mod parts;
mod telling;

#[unsafe(no_mangle)]
pub extern "C" fn labels_audit(
    state: &[u32],
    terms: &[u32],
    cells: &[u32],
    chars: &[u32],
    reasons: &[u32],
    keys: &[u32],
) -> u32
    ensures { result ≡ audited state.now (across terms cells chars reasons keys).entry }
{
    if state.len() < STATE_ROOM {
        return u32::from(Refusal::Sizes);
    }
    match records::audit(terms, cells, chars, reasons, keys, state_of(state)) {
        Ok(()) => 0,
        Err(refusal) => u32::from(refusal),
    }
}

#[unsafe(no_mangle)]
pub extern "C" fn labels_make_constant(
    state: &mut [u32],
    terms: &mut [u32],
    cells: &[u32],
    chars: &mut [u32],
    reasons: &[u32],
    keys: &[u32],
    text: &[u32],
    answer: &mut [u32],
) -> u32
    ensures { ExportsNumber (constant_arguments text.now) (make_constant text.now) (across (changing terms) cells (changing chars) reasons keys) (changing state) (changing answer) result }
{
    if !is_roomy(STATE_ROOM, state, answer) {
        return u32::from(Refusal::Sizes);
    }
    let c = state_of(state);
    let made = make::make_constant(terms, cells, chars, reasons, keys, c, text);
    tell(state, answer, made)
}

#[unsafe(no_mangle)]
pub extern "C" fn labels_make_variable(
    state: &mut [u32],
    terms: &mut [u32],
    cells: &[u32],
    chars: &mut [u32],
    reasons: &[u32],
    keys: &[u32],
    name: &[u32],
    answer: &mut [u32],
) -> u32
    ensures { ExportsNumber (variable_arguments name.now) (make_variable name.now) (across (changing terms) cells (changing chars) reasons keys) (changing state) (changing answer) result }
{
    if !is_roomy(STATE_ROOM, state, answer) {
        return u32::from(Refusal::Sizes);
    }
    let c = state_of(state);
    let made = make::make_variable(terms, cells, chars, reasons, keys, c, name);
    tell(state, answer, made)
}

#[unsafe(no_mangle)]
pub extern "C" fn labels_make_concatenation(
    state: &mut [u32],
    terms: &mut [u32],
    cells: &mut [u32],
    chars: &[u32],
    reasons: &[u32],
    keys: &[u32],
    parts: &[u32],
    answer: &mut [u32],
) -> u32
    ensures { ExportsNumber (concat_arguments parts.now) (make_concat parts.now) (across (changing terms) (changing cells) chars reasons keys) (changing state) (changing answer) result }
{
    if !is_roomy(STATE_ROOM, state, answer) {
        return u32::from(Refusal::Sizes);
    }
    let c = state_of(state);
    let made = build::make_concatenation(terms, cells, chars, reasons, keys, c, parts);
    tell(state, answer, made)
}

#[unsafe(no_mangle)]
pub extern "C" fn labels_make_length(
    state: &mut [u32],
    terms: &mut [u32],
    cells: &[u32],
    chars: &[u32],
    reasons: &[u32],
    keys: &[u32],
    t: u32,
    answer: &mut [u32],
) -> u32
    ensures { ExportsNumber (length_arguments t) (make_length t) (across (changing terms) cells chars reasons keys) (changing state) (changing answer) result }
{
    if !is_roomy(STATE_ROOM, state, answer) {
        return u32::from(Refusal::Sizes);
    }
    let c = state_of(state);
    let made = build::make_length(terms, cells, chars, reasons, keys, c, t);
    tell(state, answer, made)
}

#[unsafe(no_mangle)]
pub extern "C" fn labels_make_equation(
    state: &mut [u32],
    terms: &mut [u32],
    cells: &[u32],
    chars: &[u32],
    reasons: &[u32],
    keys: &[u32],
    t: u32,
    u: u32,
    answer: &mut [u32],
) -> u32
    ensures { ExportsNumber (equation_arguments t u) (make_equation t u) (across (changing terms) cells chars reasons keys) (changing state) (changing answer) result }
{
    if !is_roomy(STATE_ROOM, state, answer) {
        return u32::from(Refusal::Sizes);
    }
    let c = state_of(state);
    let made = build::make_equation(terms, cells, chars, reasons, keys, c, t, u);
    tell(state, answer, made)
}

#[unsafe(no_mangle)]
pub extern "C" fn labels_find(
    state: &[u32],
    terms: &[u32],
    cells: &[u32],
    chars: &[u32],
    reasons: &[u32],
    keys: &[u32],
    t: u32,
    answer: &mut [u32],
) -> u32
    ensures { ExportsNumber (find_arguments t) (find t) (across terms cells chars reasons keys) state (changing answer) result }
{
    if !is_roomy(STATE_ROOM, state, answer) {
        return u32::from(Refusal::Sizes);
    }
    let c = state_of(state);
    match engine::find(terms, cells, chars, reasons, keys, c, t) {
        Ok(root) => tell_still(state, answer, &[root]),
        Err(refusal) => u32::from(refusal),
    }
}

#[unsafe(no_mangle)]
pub extern "C" fn labels_explain(
    state: &mut [u32],
    terms: &[u32],
    cells: &[u32],
    chars: &[u32],
    reasons: &mut [u32],
    keys: &[u32],
    a: u32,
    b: u32,
) -> u32
    ensures { Between (ExportedExplain a b) (across terms cells chars (changing reasons) keys) state.old state.new result }
{
    if state.len() < STATE_ROOM {
        return u32::from(Refusal::Sizes);
    }
    let c = state_of(state);
    let added = engine::explain(terms, cells, chars, reasons, keys, c, a, b);
    tell_counts(state, added)
}

#[unsafe(no_mangle)]
pub extern "C" fn labels_normal_form(
    state: &mut [u32],
    terms: &mut [u32],
    cells: &[u32],
    chars: &mut [u32],
    reasons: &mut [u32],
    keys: &[u32],
    known: &[u32],
    t: u32,
    list: &mut [u32],
    answer: &mut [u32],
) -> u32
    ensures { ExportsList (ExportedForm known.now t) (across (changing terms) cells (changing chars) (changing reasons) keys) (changing list) (changing state) (changing answer) result }
{
    if !is_roomy(STATE_ROOM, state, answer) {
        return u32::from(Refusal::Sizes);
    }
    let c = state_of(state);
    match normalize::normal_form_cited(terms, cells, chars, reasons, keys, c, known, t, list) {
        Ok((n, d)) => tell_words(state, answer, d, &[1, n as u32]),
        Err(refusal) => u32::from(refusal),
    }
}

#[unsafe(no_mangle)]
pub extern "C" fn labels_deep_normal_form(
    state: &mut [u32],
    terms: &mut [u32],
    cells: &[u32],
    chars: &mut [u32],
    reasons: &mut [u32],
    keys: &[u32],
    known: &[u32],
    t: u32,
    list: &mut [u32],
    answer: &mut [u32],
) -> u32
    ensures { ExportsList (ExportedDeepForm known.now t) (across (changing terms) cells (changing chars) (changing reasons) keys) (changing list) (changing state) (changing answer) result }
{
    if !is_roomy(STATE_ROOM, state, answer) {
        return u32::from(Refusal::Sizes);
    }
    let c = state_of(state);
    let made = normalize::deep_normal_form_cited(
        terms, cells, chars, reasons, keys, c, known, t, list,
    );
    match made {
        Ok((Some(n), d)) => tell_words(state, answer, d, &[1, n as u32]),
        Ok((None, d)) => tell_words(state, answer, d, &[0, 0]),
        Err(refusal) => u32::from(refusal),
    }
}

#[unsafe(no_mangle)]
pub extern "C" fn labels_resolve_equation<'a>(
    state: &mut [u32],
    terms: &mut [u32],
    cells: &mut [u32],
    chars: &mut [u32],
    reasons: &mut [u32],
    keys: &mut [u32],
    lhs: &'a [u32],
    rhs: &'a [u32],
    guard: i32,
    list: &mut [u32],
    answer: &mut [u32],
) -> u32
    ensures { ExportsList (ExportedResolve lhs.now rhs.now guard) (across (changing terms) (changing cells) (changing chars) (changing reasons) (changing keys)) (changing list) (changing state) (changing answer) result }
{
    if !is_roomy(STATE_ROOM, state, answer) {
        return u32::from(Refusal::Sizes);
    }
    let c = state_of(state);
    let made = wordeq::resolve_equation(
        terms, cells, chars, reasons, keys, c, lhs, rhs, guard, list,
    );
    match made {
        Ok(told) => tell_answer(state, answer, told),
        Err(refusal) => u32::from(refusal),
    }
}

#[unsafe(no_mangle)]
pub extern "C" fn labels_nf_equal(
    state: &[u32],
    terms: &[u32],
    cells: &[u32],
    chars: &[u32],
    reasons: &[u32],
    keys: &[u32],
    lhs: &[u32],
    rhs: &[u32],
    answer: &mut [u32],
) -> u32
    ensures { ExportedEqual lhs.now rhs.now (across terms cells chars reasons keys).entry state.now answer.old answer.new result }
{
    if !is_roomy(STATE_ROOM, state, answer) {
        return u32::from(Refusal::Sizes);
    }
    let c = state_of(state);
    match wordeq::nf_equal(terms, cells, chars, reasons, keys, c, lhs, rhs) {
        Ok(equal) => tell_still(state, answer, &[u32::from(equal)]),
        Err(refusal) => u32::from(refusal),
    }
}

#[unsafe(no_mangle)]
pub extern "C" fn labels_nf_equal_explain(
    state: &mut [u32],
    terms: &[u32],
    cells: &[u32],
    chars: &[u32],
    reasons: &mut [u32],
    keys: &[u32],
    lhs: &[u32],
    rhs: &[u32],
) -> u32
    ensures { Between (ExportedEqualExplain lhs.now rhs.now) (across terms cells chars (changing reasons) keys) state.old state.new result }
{
    if state.len() < STATE_ROOM {
        return u32::from(Refusal::Sizes);
    }
    let c = state_of(state);
    let added = wordeq::nf_equal_explain(terms, cells, chars, reasons, keys, c, lhs, rhs);
    tell_counts(state, added)
}

#[unsafe(no_mangle)]
pub extern "C" fn labels_step(
    state: &mut [u32],
    terms: &mut [u32],
    cells: &mut [u32],
    chars: &mut [u32],
    reasons: &mut [u32],
    keys: &mut [u32],
    known: &[u32],
    e: u32,
    guard: i32,
    list: &mut [u32],
    answer: &mut [u32],
) -> u32
    ensures { ExportsList (ExportedStep known.now e guard) (across (changing terms) (changing cells) (changing chars) (changing reasons) (changing keys)) (changing list) (changing state) (changing answer) result }
{
    if !is_roomy(STATE_ROOM, state, answer) {
        return u32::from(Refusal::Sizes);
    }
    let c = state_of(state);
    let made = equation::step(terms, cells, chars, reasons, keys, c, known, e, guard, list);
    match made {
        Ok(Outcome::Answered(told)) => tell_answer(state, answer, told),
        Ok(Outcome::Unexpanded(d)) => tell_words(state, answer, d, &[5]),
        Err(refusal) => u32::from(refusal),
    }
}
