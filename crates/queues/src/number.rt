// The number of a unit: there are four.

ghost use Rattle.queues.specs.Number.{number_of, told};
ghost use Rattle.std.specs.Prelude.{◌≡◌};

use calls::Refusal;

#[derive(Clone, Copy)]
pub enum UnitNumber {
    Unit0,
    Unit1,
    Unit2,
    Unit3,
}

// The unit with the number; refused if it is above 3.
impl TryFrom<u8> for UnitNumber {
    type Error = Refusal;

    ghost try_from_gives = { λ unit r. r ≡ told unit };

    fn try_from(unit: u8) -> Result<UnitNumber, Refusal> {
        match unit {
            0 => Ok(UnitNumber::Unit0),
            1 => Ok(UnitNumber::Unit1),
            2 => Ok(UnitNumber::Unit2),
            3 => Ok(UnitNumber::Unit3),
            _ => Err(Refusal::NoSuchUnit),
        }
    }
}

impl From<UnitNumber> for usize {
    ghost from_gives = { λ unit r. r ≡ number_of unit };

    fn from(unit: UnitNumber) -> usize {
        unit as usize
    }
}
