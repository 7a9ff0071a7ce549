// The needle bank: a unit that keeps the bytes it takes as 512 rows, each one number.
#![tactic(auto)]

ghost use Rattle.std.specs.Prelude.{◌≡◌, ℕ, ◌^◌, ◌<◌, ◌≤◌, slice_index};
ghost use Rattle.needles.specs.Rows.{bytes_of};
ghost use Rattle.unit.specs.Medium.{full_room};

mod reading;
mod taking;

const ROWS: usize = 512;

// Rows of eight bytes, the first byte of a row the highest. The first `count` bytes are taken,
// and those behind them are zero. All rows are there from the start, so `count` is not their
// length.
#[derive(Drop)]
pub struct NeedleBank {
    rows: [u64; ROWS],
    count: usize,
    ghost within: { count ≤ full_room },
    ghost blank: { ((k : ℕ) → count ≤ k → slice_index (bytes_of rows) k ≡ 0) },
    ghost wide: { ((k : ℕ) → slice_index rows k < 2 ^ 64) },
}
