// How the needle bank takes a byte: into the next place of its row.

ghost use Rattle.std.specs.Prelude.{◌≡◌, ◌<◌, slice_set};
ghost use Rattle.needles.specs.Bank.{bank_of, needle_code};
ghost use Rattle.needles.specs.Rows.{row_bytes};
ghost use Rattle.std.proofs.Common.{rules};

use crate::NeedleBank;
use unit::{ROOM, Unit, UnitFault};

// The row with another byte at a place; place 0 is the highest.
fn with_byte(row: u64, place: usize, byte: u8) -> u64
    requires { place < 8 }
    ensures { row_bytes result ≡ slice_set (row_bytes row) place byte }
{
    let mut bytes = row.to_be_bytes();
    bytes[place] = byte;
    u64::from_be_bytes(bytes)
}

impl Unit for NeedleBank {
    const CODE: u8 = 0o40;

    ghost CODE = { needle_code };

    ghost medium = { bank_of };

    ghost in_range = { Prim.search rules };

    ghost coded = { Prim.search rules };

    fn take(&mut self, byte: u8) -> Result<(), UnitFault> {
        if self.count >= ROOM {
            return Err(UnitFault::Full);
        }
        let row = self.count / 8;
        self.rows[row] = with_byte(self.rows[row], self.count % 8, byte);
        self.count += 1;
        Ok(())
    }

    fn give(&mut self) -> Result<u8, UnitFault> {
        Err(UnitFault::End)
    }
}
