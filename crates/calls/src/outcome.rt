// The outcome of a task's latest transfer, and its number.

ghost use Rattle.calls.specs.Numbers.{outcome_number, packing};
ghost use Rattle.std.specs.Prelude.{◌≡◌, ◌<◌};

use unit::TransferFault;

// How a transfer ended. A task whose latest transfer has not ended has none.
#[derive(Clone, Copy, PartialEq, Eq, Debug)]
pub struct Outcome {
    // The unit's device code.
    pub device: u8,
    // The bytes moved, where all bytes that were asked for, or a line, were moved; else the unit's fault, which is kept
    // whole with the bytes moved before it.
    pub end: Result<u8, TransferFault>,
}

// The cause in bits 15 to 13, the device code in bits 12 to 7, the bytes moved in bits 6 to 0.
fn packed(cause: u8, device: u8, moved: u8) -> u16
    requires { cause < 4 }
    ensures { result ≡ packing cause device moved }
{
    u16::from(cause) * 8192 + u16::from(device) * 128 + u16::from(moved)
}

// An outcome's number.
impl From<Outcome> for u16 {
    ghost from_gives = { λ o r. r ≡ outcome_number o };

    fn from(outcome: Outcome) -> u16 {
        match outcome.end {
            Ok(moved) => packed(1, outcome.device, moved),
            Err(fault) => packed(fault.fault.into(), outcome.device, fault.moved),
        }
    }
}
