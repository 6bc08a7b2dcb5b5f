// What a term is, as the first word of its record says it.

#[derive(Clone, Copy, Debug, PartialEq, Eq, Hash)]
pub enum Kind {
    Constant,
    Variable,
    Concatenation,
    Length,
    Equation,
}

// A word that names no kind.
#[derive(Clone, Copy, Debug, PartialEq, Eq, Hash)]
pub struct UnknownKind(pub u32);

impl From<Kind> for u32 {
    ghost use Rattle.std.specs.Prelude.{◌≡◌};
    ghost use Rattle.records.specs.Kind.{kind_number};

    ghost from_gives = { λ kind n. n ≡ kind_number kind };

    fn from(kind: Kind) -> u32 {
        match kind {
            Kind::Constant => 1,
            Kind::Variable => 2,
            Kind::Concatenation => 3,
            Kind::Length => 4,
            Kind::Equation => 5,
        }
    }
}

impl TryFrom<u32> for Kind {
    type Error = UnknownKind;

    ghost use Rattle.records.specs.Kind.{Names};

    ghost try_from_gives = { Names };

    fn try_from(word: u32) -> Result<Self, UnknownKind> {
        match word {
            1 => Ok(Kind::Constant),
            2 => Ok(Kind::Variable),
            3 => Ok(Kind::Concatenation),
            4 => Ok(Kind::Length),
            5 => Ok(Kind::Equation),
            _ => Err(UnknownKind(word)),
        }
    }
}
