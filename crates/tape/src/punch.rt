// The punch: it takes bytes onto its tape and gives none.

ghost use Rattle.tape.specs.Kinds.{punch_code, punch_of};
ghost use Rattle.unit.specs.Medium.{fresh, full_room};
ghost use Rattle.std.specs.Prelude.{◌≡◌, []};
ghost use Rattle.std.proofs.Common.{rules};

use crate::keeping::keep;
use buffer::Buffer;
use unit::{ROOM, Unit, UnitFault};

#[derive(Drop)]
pub struct Punch {
    tape: Buffer<ROOM>,
}

impl Punch {
    // A punch with an empty tape.
    pub fn new() -> Punch
        ensures { punch_of result ≡ fresh [] full_room punch_code }
    {
        Punch {
            tape: Buffer::new(),
        }
    }

    pub fn taken(&self) -> &[u8]
        ensures { result.now ≡ (punch_of self.now).taken }
    {
        self.tape.as_slice()
    }

    pub fn given(&self) -> &[u8]
        ensures { result.now ≡ (punch_of self.now).given }
    {
        &[]
    }
}

impl Unit for Punch {
    const CODE: u8 = 0o13;

    ghost CODE = { punch_code };

    ghost medium = { punch_of };

    ghost in_range = { Prim.search rules };

    ghost coded = { Prim.search rules };

    fn take(&mut self, byte: u8) -> Result<(), UnitFault> {
        keep(&mut self.tape, byte)
    }

    fn give(&mut self) -> Result<u8, UnitFault> {
        Err(UnitFault::End)
    }
}
