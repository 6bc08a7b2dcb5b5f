// 'taking a name advances the counter and hands the name back': the counter of names, lent.
ghost use Rattle.std.specs.Prelude.{◌≡◌, MatchResult};
ghost use Rattle.records.specs.View.{names_at, across, lent};
ghost use Rattle.records.specs.Working.Audited.{Ready};
ghost use Rattle.records.specs.Working.Doing.{Taken};

use records::{Named, Refusal, State, names};

#[derive(Drop)]
pub struct Counter {
    pub next: u32,
}

// The first free name from `next` on, by value.
pub(crate) fn name_from_unchecked(
    next: u32,
    terms: &[u32],
    cells: &[u32],
    chars: &[u32],
    reasons: &[u32],
    keys: &[u32],
    c: State,
) -> Result<Named, Refusal>
    requires { Ready (lent terms.now cells.now chars.now reasons.now keys.now) (names_at c next) }
    ensures { Taken (across terms cells chars reasons keys).entry (names_at c next) result }
{
    names::take_name_unchecked(terms, cells, chars, reasons, keys, c.with_names(next))
}

// Takes the next free name: the counter moves past it, and the name is handed back. After a refusal it is where it was.
pub(crate) fn take_unchecked(
    counter: &mut Counter,
    terms: &[u32],
    cells: &[u32],
    chars: &[u32],
    reasons: &[u32],
    keys: &[u32],
    c: State,
) -> Result<Named, Refusal>
    requires { Ready (lent terms.now cells.now chars.now reasons.now keys.now) (names_at c counter.old.next) }
    ensures { Taken (across terms cells chars reasons keys).entry (names_at c counter.old.next) result × MatchResult result (λ r. counter.new.next ≡ r.state.names) (λ e. counter.new.next ≡ counter.old.next) }
{
    let r = name_from_unchecked(counter.next, terms, cells, chars, reasons, keys, c)?;
    counter.next = r.state.names;
    Ok(r)
}

// The counter of c is lent to take its next free name. Whoever calls this holds the counts alone.
pub fn next_name_unchecked(
    terms: &[u32],
    cells: &[u32],
    chars: &[u32],
    reasons: &[u32],
    keys: &[u32],
    c: State,
) -> Result<Named, Refusal>
    requires { Ready (lent terms.now cells.now chars.now reasons.now keys.now) c }
    ensures { Taken (across terms cells chars reasons keys).entry c result }
{
    let mut counter = Counter { next: c.names };
    take_unchecked(&mut counter, terms, cells, chars, reasons, keys, c)
}
