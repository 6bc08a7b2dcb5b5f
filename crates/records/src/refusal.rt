// Why a call is refused: the numbers of the document's table of refusals, by name.
ghost use Rattle.std.specs.Prelude.{◌≡◌};

#[derive(Clone, Copy, Debug, PartialEq, Eq, Hash)]
pub enum Refusal {
    Sizes,
    Records,
    Classes,
    Congruences,
    Argument,
    List,
    Reasons,
    Room,
    Names,
    Mark,
    Form,
    Index,
}

// The number that a caller in C is given.
impl From<Refusal> for u32 {
    ghost use Rattle.records.specs.Refusal.{number};

    ghost from_gives = { λ refusal n. n ≡ number refusal };

    fn from(refusal: Refusal) -> u32 {
        match refusal {
            Refusal::Sizes => 1,
            Refusal::Records => 2,
            Refusal::Classes => 3,
            Refusal::Congruences => 4,
            Refusal::Argument => 5,
            Refusal::List => 6,
            Refusal::Reasons => 7,
            Refusal::Room => 8,
            Refusal::Names => 9,
            Refusal::Mark => 10,
            Refusal::Form => 11,
            Refusal::Index => 12,
        }
    }
}
