// The faults: what a unit tells when it can take or give no byte, and what becomes of it
// when it ends a transfer.

ghost use Rattle.unit.specs.Faults.{cause_of, fault_after};
ghost use Rattle.std.specs.Prelude.{◌≡◌};

// Why a unit took or gave no byte.
#[derive(Clone, Copy, PartialEq, Eq, Debug)]
pub enum UnitFault {
    // it has no room left
    Full = 2,
    // it has no byte to come
    End = 3,
}

// The number by which an outcome tells the fault: its cause.
impl From<UnitFault> for u8 {
    ghost from_gives = { λ e r. r ≡ cause_of e };

    fn from(fault: UnitFault) -> u8 {
        fault as u8
    }
}

// Why a transfer ended early: the unit's fault whole, and the bytes moved before it.
#[derive(Clone, Copy, PartialEq, Eq, Debug)]
pub struct TransferFault {
    pub fault: UnitFault,
    pub moved: u8,
}

impl From<UnitFault> for TransferFault {
    ghost from_gives = { λ e r. r ≡ fault_after 0 e };

    fn from(fault: UnitFault) -> TransferFault {
        TransferFault { fault, moved: 0 }
    }
}

impl TransferFault {
    // The same fault of the unit, with the bytes that were moved before it.
    pub fn after(self, moved: u8) -> TransferFault
        ensures { result ≡ fault_after moved self.fault }
    {
        TransferFault { moved, ..self }
    }
}
