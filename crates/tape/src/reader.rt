// The reader: it gives the bytes of a tape and takes none.

ghost use Rattle.std.specs.Prelude.{◌≡◌, take};
ghost use Rattle.tape.specs.Kinds.{longest, reader_code, reader_of};
ghost use Rattle.unit.specs.Medium.{fresh};
ghost use Rattle.std.proofs.Common.{rules};

use crate::{LONGEST, Supply};
use unit::{Unit, UnitFault};

#[derive(Drop)]
pub struct Reader {
    tape: Supply,
}

impl Reader {
    // A reader with a tape, of which the first 65,536 bytes are used.
    pub fn new(tape: Vec<u8>) -> Reader
        ensures { reader_of result ≡ fresh (take longest tape.items) 0 reader_code }
    {
        Reader {
            tape: Supply::new(tape, LONGEST),
        }
    }

    pub fn taken(&self) -> &[u8]
        ensures { result.now ≡ (reader_of self.now).taken }
    {
        &[]
    }

    pub fn given(&self) -> &[u8]
        ensures { result.now ≡ (reader_of self.now).given }
    {
        self.tape.given()
    }
}

impl Unit for Reader {
    const CODE: u8 = 0o12;

    ghost CODE = { reader_code };

    ghost medium = { reader_of };

    ghost in_range = { Prim.search rules };

    ghost coded = { Prim.search rules };

    fn take(&mut self, _byte: u8) -> Result<(), UnitFault> {
        Err(UnitFault::Full)
    }

    fn give(&mut self) -> Result<u8, UnitFault> {
        self.tape.next()
    }
}
