// Classes and explanations: find and explain.
#![tactic(auto)]

ghost use Rattle.std.specs.Prelude.{◌≡◌, true, false, ◌+◌, ◌*◌, ◌≤◌, ◌<◌, length};
ghost use Rattle.records.specs.View.{store_of, across, reason_room, changing, lent};
ghost use Rattle.records.specs.Working.Audited.{Ready};
ghost use Rattle.records.specs.Calls.{added, Answers, Promises};
ghost use Rattle.records.specs.Working.Doing.{Does};
ghost use Rattle.engine.specs.Explain.{find, find_arguments, walked, edge, explain, explain_arguments, is_reasoned};
ghost use Rattle.engine.specs.Working.Seen.{place, seen_at, Noted};
ghost use Rattle.engine.specs.Working.Walks.{Walkable, Together, Edge, Walks, Gives, Explainable, Plainly, PlainEdge, PlainPair, PlainPath, Along, PairExplained};
ghost use Rattle.engine.specs.Calls.{found, PublicExplain};

use records::{Label, Refusal, State, classes, fields, put, rules};

mod listing;

// The root of a term's class.
pub fn find(
    terms: &[u32],
    cells: &[u32],
    chars: &[u32],
    reasons: &[u32],
    keys: &[u32],
    c: State,
    t: u32,
) -> Result<u32, Refusal>
    ensures { Answers (find_arguments t) (find t) (across terms cells chars reasons keys) c (λ m. found result m c) }
{
    records::audit(terms, cells, chars, reasons, keys, c)?;
    if !rules::is_string(terms, c.terms, t) {
        return Err(Refusal::Argument);
    }
    let root = classes::root_unchecked(terms, c.terms, t);
    Ok(root)
}

// The place of the pair {a, b} in the table: pairs whose higher number is lower come first.
fn place(a: u32, b: u32) -> usize
    ensures { result ≡ place a b }
{
    let high = a.max(b) as usize;
    let low = a.min(b) as usize;
    high * (high + 1) / 2 + low
}

// Whether the pair of the place k was seen.
fn is_seen(table: &[u32], k: usize) -> bool
    requires { k < 32 * length table.now }
    ensures { result ≡ seen_at table.now k }
{
    (table[k / 32] >> (k % 32)) % 2 == 1
}

// Notes that the pair of the place k was seen, which it was not before.
fn note_seen(table: &mut [u32], k: usize)
    requires { (k < 32 * length table.old) × (seen_at table.old k ≡ false) }
    ensures { Noted table.old table.new k }
{
    table[k / 32] += 1 << (k % 32);
}

// One reason more, that of an edge, unless the list has it: the count of reasons then.
fn give(
    reasons: &mut [u32],
    count: usize,
    kind: u32,
    value: u32,
    slot: usize,
    places: &mut [u32],
) -> Result<usize, Refusal>
    requires { count ≤ reason_room reasons.old }
    ensures { Gives reasons.old reasons.new places.old places.new count kind value slot result }
{
    if listing::is_listed(reasons, count, places, slot, kind, value) {
        Ok(count)
    } else if put::push_reason_unchecked(reasons, count, kind, value) {
        Ok(count + 1)
    } else {
        Err(Refusal::Reasons)
    }
}

// Walks a up to the nearest shared ancestor, then b: each edge's reasons, in that order, and how many there are then. A pair seen before
// is skipped. `table` has from its start a bit for each pair seen, and from its end a word for each term, where the reason of the term's
// edge was found last (see is_listed). It is one slice, and of the counts a walk is handed those that it reads, because a walk within a
// walk keeps what it was handed on the stack.
#[cycle(expand_edge_explain_rec)]
fn explain_rec(
    terms: &[u32],
    cells: &[u32],
    n: usize,
    k: usize,
    a: u32,
    b: u32,
    table: &mut [u32],
    reasons: &mut [u32],
    count: usize,
) -> Result<usize, Refusal>
    requires { Walkable terms.now cells.now table.old reasons.old n k count (λ s. Together s (a, b)) }
    ensures { Along (Walks (walked (a, b)) (λ s. Together s (a, b))) terms cells (changing table) (changing reasons) n k count result }
{
    if a == b {
        return Ok(count);
    }
    let at = place(a, b);
    if is_seen(table, at) {
        return Ok(count);
    }
    note_seen(table, at);
    let top = classes::nearest_unchecked(terms, n, a, b);
    let mut x = a;
    let mut last = false;
    let mut given = count;
    loop {
        if x == top {
            if last {
                return Ok(given);
            }
            last = true;
            x = b;
        } else {
            given = expand_edge(terms, cells, n, k, x, table, reasons, given)?;
            x = fields::forest_parent(terms, x);
        }
    }
}

// The reasons of the edge from node to its forest parent, by the label's kind. A pair of a term and itself takes no walk.
#[cycle(expand_edge_explain_rec)]
fn expand_edge(
    terms: &[u32],
    cells: &[u32],
    n: usize,
    k: usize,
    node: u32,
    table: &mut [u32],
    reasons: &mut [u32],
    count: usize,
) -> Result<usize, Refusal>
    requires { Walkable terms.now cells.now table.old reasons.old n k count (λ s. Edge s node) }
    ensures { Along (Walks (edge walked node) (λ s. Edge s node)) terms cells (changing table) (changing reasons) n k count result }
{
    let kind = fields::label_kind(terms, node);
    let value = fields::label_value(terms, node);
    match Label::try_from(kind) {
        Ok(Label::Asserted | Label::Interface) => {
            let slot = table.len() - 1 - node as usize;
            give(reasons, count, kind, value, slot, table)
        }
        Ok(Label::Congruence) => {
            let mut at = value;
            let mut given = count;
            while at != 0 {
                let s = fields::value(cells, at);
                let t = fields::other(cells, at);
                if s != t {
                    given = explain_rec(terms, cells, n, k, s, t, table, reasons, given)?;
                }
                at = fields::next(cells, at);
            }
            Ok(given)
        }
        Ok(Label::Definitional) => Ok(count),
        Err(_) => Err(Refusal::Classes),
    }
}

// A walk from no pair seen. The table is cleared at each call, so its size goes by the number of terms.
fn explain_tabled(
    terms: &[u32],
    cells: &[u32],
    c: State,
    a: u32,
    b: u32,
    reasons: &mut [u32],
) -> Result<usize, Refusal>
    requires { (c.terms ≤ 512) × Explainable terms.now cells.now reasons.old c.terms c.cells a b c.reasons }
    ensures { PairExplained terms cells (changing reasons) c a b result }
{
    let n = c.terms;
    let k = c.cells;
    let count = c.reasons;
    match n {
        0..=31 => explain_rec(terms, cells, n, k, a, b, &mut [0; 49], reasons, count),
        32..=127 => explain_rec(terms, cells, n, k, a, b, &mut [0; 386], reasons, count),
        128..=256 => explain_rec(terms, cells, n, k, a, b, &mut [0; 1294], reasons, count),
        _ => explain_rec(terms, cells, n, k, a, b, &mut [0; 4634], reasons, count),
    }
}

// As give, over the counts by value: a path without congruences has them at hand.
fn give_plain(
    c: State,
    reasons: &mut [u32],
    kind: u32,
    value: u32,
    slot: usize,
    places: &mut [u32],
) -> Result<usize, Refusal>
    requires { c.reasons ≤ reason_room reasons.old }
    ensures { Gives reasons.old reasons.new places.old places.new c.reasons kind value slot result }
{
    let given = give(reasons, c.reasons, kind, value, slot, places)?;
    if given == c.reasons {
        return Ok(given);
    }
    let d = c.with_reason_unchecked();
    Ok(d.reasons)
}

// As expand_edge, for an edge that leads to no other pair. Any other is left to expand_edge, which has a table for the pairs: None.
fn plain_edge(
    terms: &[u32],
    c: State,
    node: u32,
    reasons: &mut [u32],
    places: &mut [u32],
) -> Result<Option<usize>, Refusal>
    requires { c.reasons ≤ reason_room reasons.old }
    ensures { Plainly (PlainEdge terms.now reasons.old reasons.new node c.reasons) reasons.old reasons.new c.reasons result }
{
    let kind = fields::label_kind(terms, node);
    let value = fields::label_value(terms, node);
    match Label::try_from(kind) {
        Ok(Label::Asserted | Label::Interface) => {
            let given = give_plain(c, reasons, kind, value, node as usize, places)?;
            Ok(Some(given))
        }
        Ok(Label::Definitional) => Ok(Some(c.reasons)),
        _ => Ok(None),
    }
}

// As explain_rec, for a path without congruence edges, which meets no second pair, so it needs no table. None where it meets such an edge.
fn explain_plain(
    terms: &[u32],
    c: State,
    a: u32,
    b: u32,
    reasons: &mut [u32],
    places: &mut [u32],
) -> Result<Option<usize>, Refusal>
    requires { (c.terms ≤ 512) × PlainPair terms.now reasons.old c.terms a b c.reasons }
    ensures { Plainly (PlainPath terms.now reasons.old reasons.new c.terms a b c.reasons) reasons.old reasons.new c.reasons result }
{
    if a == b {
        return Ok(Some(c.reasons));
    }
    let top = classes::nearest_unchecked(terms, c.terms, a, b);
    let mut node = a;
    let mut last = false;
    let mut given = c.reasons;
    loop {
        if node == top {
            if last {
                return Ok(Some(given));
            }
            last = true;
            node = b;
        } else {
            let Some(count) = plain_edge(terms, c.with_reasons(given), node, reasons, places)?
            else {
                return Ok(None);
            };
            given = count;
            node = fields::forest_parent(terms, node);
        }
    }
}

// To clear a large table costs more than to walk a path, so the path is walked without one first. A path with a congruence
// edge is walked anew, over the reasons that were given on the way.
fn explain_pair(
    terms: &[u32],
    cells: &[u32],
    c: State,
    a: u32,
    b: u32,
    reasons: &mut [u32],
    places: &mut [u32],
) -> Result<usize, Refusal>
    requires { (c.terms ≤ 512) × Explainable terms.now cells.now reasons.old c.terms c.cells a b c.reasons }
    ensures { PairExplained terms cells (changing reasons) c a b result }
{
    if c.terms < 32 {
        return explain_tabled(terms, cells, c, a, b, reasons);
    }
    if let Some(count) = explain_plain(terms, c, a, b, reasons, places)? {
        return Ok(count);
    }
    explain_tabled(terms, cells, c, a, b, reasons)
}

// The reasons why a and b, string terms of one class, are equal, after those that are there; one that is there is not added. A loop
// that explains keeps `places` from one pair to the next (see is_listed): 513 words, a term's number being at most 512; for one pair none.
// A walk through congruences, which can meet an edge again, has places of its own, in its table.
pub fn explain_unchecked(
    terms: &[u32],
    cells: &[u32],
    chars: &[u32],
    reasons: &mut [u32],
    keys: &[u32],
    c: State,
    a: u32,
    b: u32,
    places: &mut [u32],
) -> Result<State, Refusal>
    requires { (Ready (lent terms.now cells.now chars.now reasons.old keys.now) c) × (explain_arguments a b (store_of (lent terms.now cells.now chars.now reasons.old keys.now) c) ≡ true) }
    ensures { Does (explain a b) (across terms cells chars (changing reasons) keys) c (added result) }
{
    let count = explain_pair(terms, cells, c, a, b, reasons, places)?;
    Ok(c.with_reasons(count))
}

// Whether the explanation of a and b, string terms of one class, has a reason, whatever the list has: it is given a list of its own.
pub fn is_reasoned_unchecked(
    terms: &[u32],
    cells: &[u32],
    chars: &[u32],
    reasons: &[u32],
    keys: &[u32],
    c: State,
    a: u32,
    b: u32,
    places: &mut [u32],
) -> bool
    requires { (Ready (lent terms.now cells.now chars.now reasons.now keys.now) c) × (explain_arguments a b (store_of (lent terms.now cells.now chars.now reasons.now keys.now) c) ≡ true) }
    ensures { result ≡ is_reasoned (store_of (across terms cells chars reasons keys).entry c) a b }
{
    let d = c.with_reasons(0);
    match explain_unchecked(terms, cells, chars, &mut [0; 2], keys, d, a, b, places) {
        Ok(e) => 0 < e.reasons,
        Err(_) => true,
    }
}

// Two string terms of one class.
fn can_explain(
    terms: &[u32],
    cells: &[u32],
    chars: &[u32],
    reasons: &[u32],
    keys: &[u32],
    c: State,
    a: u32,
    b: u32,
) -> bool
    requires { Ready (lent terms.now cells.now chars.now reasons.now keys.now) c }
    ensures { result ≡ explain_arguments a b (store_of (across terms cells chars reasons keys).entry c) }
{
    rules::is_string(terms, c.terms, a)
        && rules::is_string(terms, c.terms, b)
        && classes::root_unchecked(terms, c.terms, a) == classes::root_unchecked(terms, c.terms, b)
}

// The reasons why two terms of one class are equal, after those that are there; one that is there is not added.
pub fn explain(
    terms: &[u32],
    cells: &[u32],
    chars: &[u32],
    reasons: &mut [u32],
    keys: &[u32],
    c: State,
    a: u32,
    b: u32,
) -> Result<State, Refusal>
    ensures { Promises (PublicExplain a b) (across terms cells chars (changing reasons) keys) c (added result) }
{
    records::audit(terms, cells, chars, reasons, keys, c)?;
    if !can_explain(terms, cells, chars, reasons, keys, c, a, b) {
        return Err(Refusal::Argument);
    }
    explain_unchecked(terms, cells, chars, reasons, keys, c, a, b, &mut [])
}
