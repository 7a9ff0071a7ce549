// The cabinet of the programs: a monitor over a reader with a tape, a punch, a needle bank and a console without keys.
#![tactic(auto)]

ghost use Rattle.cabinet.specs.Begin.{Begins, Lacks};
ghost use Rattle.std.specs.Prelude.{◌≡◌, MatchResult};

use calls::Refusal;
use generation::Draft;
use monitor::{Monitor, Units};
use needles::NeedleBank;
use std::alloc::Global;
use std::error::Error;
use std::fmt;
use tape::{Console, Punch, Reader};

pub type Cabinet = Monitor<Reader, Punch, NeedleBank, Console>;

// Why no cabinet is started.
#[derive(Clone, Copy, PartialEq, Eq, Debug)]
pub enum NotStarted {
    // The draft refuses an answer.
    Refused(Refusal),
    NoMemory,
}

impl fmt::Display for NotStarted {
    fn fmt<W: fmt::Write>(&self, f: &mut fmt::Formatter<W>) -> fmt::Result {
        match self {
            NotStarted::Refused(refusal) => write!(f, "{refusal}"),
            NotStarted::NoMemory => f.write_str("there is no memory for a cabinet"),
        }
    }
}

impl Error for NotStarted {}

impl From<Refusal> for NotStarted {
    ghost use Rattle.cabinet.specs.declared.NotStarted.TheVariants.{Refused};

    ghost from_gives = { λ refusal e. e ≡ Refused refusal };

    fn from(refusal: Refusal) -> NotStarted {
        NotStarted::Refused(refusal)
    }
}

// Starts a cabinet for so many tasks, at a clock rate, with a tape in its reader.
pub fn start(heap: Global, tasks: u8, rate: u8, tape: Vec<u8>) -> Result<Cabinet, NotStarted>
    ensures { MatchResult result (Begins tasks rate tape.items) (Lacks tasks rate) }
{
    let mut draft = Draft::new();
    draft.answer_tasks(tasks)?;
    draft.answer_rate(rate)?;
    let units = Units {
        unit_0: Reader::new(tape),
        unit_1: Punch::new(),
        unit_2: NeedleBank::new(),
        unit_3: Console::new(Vec::new(heap)),
    };
    Monitor::start(heap, draft.seal(), units).map_err(|_| NotStarted::NoMemory)
}
