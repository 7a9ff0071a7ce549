// What a supply does: it gives its bytes in order, each once.

ghost use Rattle.std.specs.Prelude.{◌≡◌, [], ◌++◌, take, drop};
ghost use Rattle.tape.specs.Parts.{coming_of, given_of};
ghost use Rattle.unit.specs.Medium.{told_of};

use crate::Supply;
use unit::UnitFault;

impl Supply {
    // A supply of the first `limit` of the bytes; the memory is the caller's.
    pub fn new(mut bytes: Vec<u8>, limit: usize) -> Supply
        ensures given { given_of result ≡ [] }
        ensures coming { coming_of result ≡ take limit bytes.items }
    {
        bytes.truncate(limit);
        Supply { bytes, at: 0 }
    }

    pub fn next(&mut self) -> Result<u8, UnitFault>
        ensures given { given_of self.new ≡ given_of self.old ++ take 1 (coming_of self.old) }
        ensures coming { coming_of self.new ≡ drop 1 (coming_of self.old) }
        ensures told { result ≡ told_of (coming_of self.old) }
    {
        let byte = *self.bytes.get(self.at).ok_or(UnitFault::End)?;
        self.at += 1;
        Ok(byte)
    }

    pub fn given(&self) -> &[u8]
        ensures { result.now ≡ given_of self.now }
    {
        &self.bytes[..self.at]
    }
}
