// Why a run over call words stops.

ghost use Rattle.calls.specs.Numbers.{stop_number};
ghost use Rattle.std.specs.Prelude.{◌≡◌};

use crate::Refusal;

#[derive(Clone, Copy, PartialEq, Eq, Debug)]
pub enum Stop {
    // All calls are done.
    End,
    // The call that begins at the word `place`, counted from 0, is not lawful.
    Unlawful { place: usize },
    // The next answer needs more bytes than remain.
    NoRoom,
}

impl Stop {
    // The number of the refusal that the stop tells of, or 0. The place is lost in it, so this is no `From`.
    pub fn number(&self) -> u8
        ensures { result ≡ stop_number self.now }
    {
        match self {
            Stop::End => 0,
            Stop::Unlawful { .. } => u8::from(Refusal::Unlawful),
            Stop::NoRoom => u8::from(Refusal::NoRoom),
        }
    }
}
