// The console: it takes bytes onto its paper and gives what was keyed.

ghost use Rattle.std.specs.Prelude.{◌≡◌, take};
ghost use Rattle.tape.specs.Kinds.{console_code, console_of, longest};
ghost use Rattle.unit.specs.Medium.{fresh, full_room};
ghost use Rattle.std.proofs.Common.{rules};

use crate::keeping::keep;
use crate::{LONGEST, Supply};
use buffer::Buffer;
use unit::{ROOM, Unit, UnitFault};

#[derive(Drop)]
pub struct Console {
    keys: Supply,
    paper: Buffer<ROOM>,
}

impl Console {
    // A console with keys to come, of which the first 65,536 are used, and empty paper.
    pub fn new(keys: Vec<u8>) -> Console
        ensures { console_of result ≡ fresh (take longest keys.items) full_room console_code }
    {
        Console {
            keys: Supply::new(keys, LONGEST),
            paper: Buffer::new(),
        }
    }

    pub fn taken(&self) -> &[u8]
        ensures { result.now ≡ (console_of self.now).taken }
    {
        self.paper.as_slice()
    }

    pub fn given(&self) -> &[u8]
        ensures { result.now ≡ (console_of self.now).given }
    {
        self.keys.given()
    }
}

impl Unit for Console {
    const CODE: u8 = 0o11;

    ghost CODE = { console_code };

    ghost medium = { console_of };

    ghost in_range = { Prim.search rules };

    ghost coded = { Prim.search rules };

    fn take(&mut self, byte: u8) -> Result<(), UnitFault> {
        keep(&mut self.paper, byte)
    }

    fn give(&mut self) -> Result<u8, UnitFault> {
        self.keys.next()
    }
}
