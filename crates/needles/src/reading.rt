// How a needle bank is made, and how it is read back.

ghost use Rattle.std.specs.Prelude.{◌≡◌, ℕ, ◌<◌, [], length, drop, slice_index};
ghost use Rattle.needles.specs.Bank.{bank_of, needle_code};
ghost use Rattle.needles.specs.Rows.{row_count, row_of};
ghost use Rattle.unit.specs.Copying.{first_byte};
ghost use Rattle.unit.specs.Medium.{fresh, full_room};

use crate::{NeedleBank, ROWS};

impl NeedleBank {
    // A bank with every row zero.
    pub fn new() -> NeedleBank
        ensures { bank_of result ≡ fresh [] full_room needle_code }
    {
        NeedleBank {
            rows: [0; ROWS],
            count: 0,
        }
    }

    // How many bytes are taken.
    pub fn count(&self) -> usize
        ensures { result ≡ length (bank_of self.now).taken }
    {
        self.count
    }

    // The rows, each the number of its eight bytes.
    pub fn rows(&self) -> &[u64]
        ensures rows { (k : ℕ) → k < row_count → slice_index result.now k ≡ row_of (bank_of self.now).taken k }
        ensures length { length result.now ≡ row_count }
    {
        &self.rows
    }

    // The byte taken at a place, if there is one.
    pub fn taken_at(&self, at: usize) -> Option<u8>
        ensures { result ≡ first_byte (drop at (bank_of self.now).taken) }
    {
        if at >= self.count {
            return None;
        }
        let bytes = self.rows[at / 8].to_be_bytes();
        Some(bytes[at % 8])
    }

    pub fn given(&self) -> &[u8]
        ensures { result.now ≡ (bank_of self.now).given }
    {
        &[]
    }
}
