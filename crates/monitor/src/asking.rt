// Transfers to and from the units, and their service.

ghost use Rattle.calls.specs.Calls.{transfer_with};
ghost use Rattle.calls.specs.declared.call.Call.TheVariants.{Service, Transfer as Asks};
ghost use Rattle.calls.specs.declared.call.Transfer.TheVariants.{Read, ReadLine, Write, WriteLine};
ghost use Rattle.monitor.specs.Promises.{Made};

use crate::Monitor;
use calls::{Refusal, Transfer};
use queues::UnitNumber;
use transfers::serve;
use unit::Unit;

impl<A: Unit, B: Unit, C: Unit, D: Unit> Monitor<A, B, C, D> {
    // Asks a unit for a transfer, and waits for its end.
    pub fn transfer(&mut self, unit: u8, transfer: Transfer<&[u8]>) -> Result<u16, Refusal>
        ensures { Made (Asks unit (transfer_with (λ t. t.now) transfer.entry)) self.old self.new result }
    {
        transfers::transfer(&mut self.tables, unit, transfer)
    }

    // Writes a text of 1 to 80 bytes.
    pub fn write(&mut self, unit: u8, text: &[u8]) -> Result<u16, Refusal>
        ensures { Made (Asks unit (Write text.now)) self.old self.new result }
    {
        self.transfer(unit, Transfer::Write { text })
    }

    // Writes a text up to its first line end, included.
    pub fn write_line(&mut self, unit: u8, text: &[u8]) -> Result<u16, Refusal>
        ensures { Made (Asks unit (WriteLine text.now)) self.old self.new result }
    {
        self.transfer(unit, Transfer::WriteLine { text })
    }

    // Reads 1 to 80 bytes.
    pub fn read(&mut self, unit: u8, length: usize) -> Result<u16, Refusal>
        ensures { Made (Asks unit (Read length)) self.old self.new result }
    {
        self.transfer(unit, Transfer::Read { length })
    }

    // Reads up to a line end, included, or 80 bytes.
    pub fn read_line(&mut self, unit: u8) -> Result<u16, Refusal>
        ensures { Made (Asks unit ReadLine) self.old self.new result }
    {
        self.transfer(unit, Transfer::ReadLine)
    }

    // Lets a unit move one byte of its first request. The answer is 1 if the request has ended.
    pub fn service(&mut self, unit: u8) -> Result<u16, Refusal>
        ensures { Made (Service unit) self.old self.new result }
    {
        // Each unit is of a type of its own, so each has an arm.
        match UnitNumber::try_from(unit)? {
            UnitNumber::Unit0 => serve(&mut self.tables, UnitNumber::Unit0, &mut self.units.unit_0),
            UnitNumber::Unit1 => serve(&mut self.tables, UnitNumber::Unit1, &mut self.units.unit_1),
            UnitNumber::Unit2 => serve(&mut self.tables, UnitNumber::Unit2, &mut self.units.unit_2),
            UnitNumber::Unit3 => serve(&mut self.tables, UnitNumber::Unit3, &mut self.units.unit_3),
        }
    }
}
