// Two lists compared atom by atom.
ghost use Rattle.std.specs.Prelude.{◌≡◌, true, length};
ghost use Rattle.records.specs.Lists.{all};
ghost use Rattle.records.specs.Store.{is_string};
ghost use Rattle.records.specs.View.{across, read_in, changing, lent};
ghost use Rattle.records.specs.Working.Audited.{Ready};
ghost use Rattle.records.specs.Calls.{added};
ghost use Rattle.records.specs.Working.Doing.{Does};
ghost use Rattle.sides.specs.Wordeq.{nf_equal, nf_explain};
ghost use Rattle.sides.specs.Working.Stripping.{Readable};

use crate::stripping;
use records::{Refusal, State};

// Whether two lists of string terms are atom by atom the same.
pub fn nf_equal_unchecked(terms: &[u32], chars: &[u32], c: State, lhs: &[u32], rhs: &[u32]) -> bool
    requires readable { Readable terms.now chars.now c }
    requires lhs_value { all (is_string (read_in terms.now chars.now c)) lhs.now ≡ true }
    requires rhs_value { all (is_string (read_in terms.now chars.now c)) rhs.now ≡ true }
    ensures { result ≡ nf_equal (read_in terms.now chars.now c) lhs.now rhs.now }
{
    lhs.len() == rhs.len() && stripping::count_same(terms, chars, c, lhs, rhs, false) == lhs.len()
}

// The reasons why two lists of equal length are equal, pair by pair.
pub fn nf_equal_explain_unchecked(
    terms: &[u32],
    cells: &[u32],
    chars: &[u32],
    reasons: &mut [u32],
    keys: &[u32],
    c: State,
    lhs: &[u32],
    rhs: &[u32],
) -> Result<State, Refusal>
    requires ready { Ready (lent terms.now cells.now chars.now reasons.old keys.now) c }
    requires lhs_value { all (is_string (read_in terms.now chars.now c)) lhs.now ≡ true }
    requires rhs_value { all (is_string (read_in terms.now chars.now c)) rhs.now ≡ true }
    requires lhs_len { length lhs.now ≡ length rhs.now }
    ensures { Does (nf_explain lhs.now rhs.now) (across terms cells chars (changing reasons) keys) c (added result) }
{
    let mut places: [u32; 513] = [0; 513];
    stripping::explain_pairs(
        terms,
        cells,
        chars,
        reasons,
        keys,
        c,
        lhs,
        rhs,
        false,
        &mut places,
    )
}
