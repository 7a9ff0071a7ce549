// What a unit of the cabinet is to the code above it: a trait, its meaning, and its faults.
#![tactic(auto)]

ghost use Rattle.std.specs.Prelude.{◌≡◌, ℕ, ◌<◌};
ghost use Rattle.unit.specs.Laws.{EndGivesNone, FullTakesNone, GiveKeepsOrder, GivesFirst, TakeUsesRoom, TakesOne};
ghost use Rattle.unit.specs.Medium.{Medium, after_give, after_take, told_give, told_take};

mod copying;
mod faults;

pub use copying::{copy, copy_laws};
pub use faults::{TransferFault, UnitFault};

// The room at the making of a unit that keeps what it takes.
pub const ROOM: usize = 4_096;

// A device that takes bytes and gives bytes, one at a time.
//
// Each kind says by `medium` what any of its states means, and shows that take and give do to
// that meaning what the rules say. Code that is generic over this trait is proved once, for
// every kind. A kind has no model of its own: the law on codes would then be owed of every
// medium, also of those that no unit of the kind has.
pub trait Unit {
    // The device code of the kind, which an outcome tells.
    const CODE: u8;

    // the same code, as clauses name it
    ghost CODE: { ℕ };

    ghost medium: { Self → Medium };

    // Hands the unit a byte.
    fn take(&mut self, byte: u8) -> Result<(), UnitFault>
        ensures medium { medium self.new ≡ after_take byte (medium self.old) }
        ensures told { result ≡ told_take (medium self.old) };

    // Asks the unit for a byte.
    fn give(&mut self) -> Result<u8, UnitFault>
        ensures medium { medium self.new ≡ after_give (medium self.old) }
        ensures told { result ≡ told_give (medium self.old) };

    // the code is below 100 octal
    ghost in_range: { CODE < 64 };

    // every unit of the kind has the kind's code
    ghost coded: { (u : Self) → (medium u).code ≡ CODE };
}

// What take means, member by member.
pub fn take_laws()
    ensures room { TakesOne }
    ensures full { FullTakesNone }
    ensures used { TakeUsesRoom }
{}

// What give means, member by member.
pub fn give_laws()
    ensures first { GivesFirst }
    ensures end { EndGivesNone }
    ensures order { GiveKeepsOrder }
{}
