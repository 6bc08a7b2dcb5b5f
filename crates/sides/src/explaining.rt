// Departure B: the later variables of a side are explained with the first.
ghost use Rattle.records.specs.Lists.{Every};
ghost use Rattle.records.specs.View.{terms_view, across, read_in, changing, lent};
ghost use Rattle.records.specs.Working.Audited.{Ready};
ghost use Rattle.records.specs.Calls.{added};
ghost use Rattle.records.specs.Working.Doing.{Does};
ghost use Rattle.sides.specs.Wordeq.{explain_all, variables};
ghost use Rattle.sides.specs.Working.Stripping.{Pair};
ghost use Rattle.sides.specs.Working.Explaining.{OneClass, explain_atom};

use records::{Kind, Refusal, State, rules};

fn explain_atom(
    terms: &[u32],
    cells: &[u32],
    chars: &[u32],
    reasons: &mut [u32],
    keys: &[u32],
    c: State,
    u: u32,
    v: u32,
    places: &mut [u32],
) -> Result<State, Refusal>
    requires ready { Ready (lent terms.now cells.now chars.now reasons.old keys.now) c }
    requires pair { Pair (read_in terms.now chars.now c) u v }
    requires one_class { OneClass (terms_view terms.now c.terms) u v }
    ensures { Does (explain_atom u v) (across terms cells chars (changing reasons) keys) c (added result) }
{
    if rules::is_a(terms, c.terms, u, Kind::Constant) {
        return Ok(c);
    }
    engine::explain_unchecked(terms, cells, chars, reasons, keys, c, u, v, places)
}

// The reasons why each variable of a side equals v, in place order.
pub(crate) fn explain_all_unchecked(
    terms: &[u32],
    cells: &[u32],
    chars: &[u32],
    reasons: &mut [u32],
    keys: &[u32],
    c: State,
    side: &[u32],
    v: u32,
) -> Result<State, Refusal>
    requires ready { Ready (lent terms.now cells.now chars.now reasons.old keys.now) c }
    requires pairs { Every (λ u. Pair (read_in terms.now chars.now c) u v) side.now }
    requires one_class { Every (λ u. OneClass (terms_view terms.now c.terms) u v) side.now }
    ensures { Does (explain_all (variables (read_in terms.now chars.now c) side.now) v) (across terms cells chars (changing reasons) keys) c (added result) }
{
    if side.is_empty() {
        return Ok(c);
    }
    let mut d = c;
    let mut places: [u32; 513] = [0; 513];
    for &u in side {
        d = explain_atom(terms, cells, chars, reasons, keys, d, u, v, &mut places)?;
    }
    Ok(d)
}
