// Why an edge of the forest holds, as the label on its child says it.

#[derive(Clone, Copy, Debug, PartialEq, Eq, Hash)]
pub enum Label {
    Asserted,
    Interface,
    Congruence,
    Definitional,
}

// A word that names no label.
#[derive(Clone, Copy, Debug, PartialEq, Eq, Hash)]
pub struct UnknownLabel(pub u32);

impl From<Label> for u32 {
    ghost use Rattle.std.specs.Prelude.{◌≡◌};
    ghost use Rattle.records.specs.Working.Label.{label_number};

    ghost from_gives = { λ label n. n ≡ label_number label };

    fn from(label: Label) -> u32 {
        match label {
            Label::Asserted => 1,
            Label::Interface => 2,
            Label::Congruence => 3,
            Label::Definitional => 4,
        }
    }
}

impl TryFrom<u32> for Label {
    type Error = UnknownLabel;

    ghost use Rattle.records.specs.Working.Label.{Labels};

    ghost try_from_gives = { Labels };

    fn try_from(word: u32) -> Result<Self, UnknownLabel> {
        match word {
            1 => Ok(Label::Asserted),
            2 => Ok(Label::Interface),
            3 => Ok(Label::Congruence),
            4 => Ok(Label::Definitional),
            _ => Err(UnknownLabel(word)),
        }
    }
}
