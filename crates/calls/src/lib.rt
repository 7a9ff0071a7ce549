// What a host can hand to the monitor, and what it can be answered, as types: the calls, the refusals, the outcome
// of a transfer and the stop of a run. Each answer that has a number has it by one definition in specs/Numbers.antt.
#![tactic(auto)]

mod call;
mod outcome;
mod refusal;
mod show;
mod stop;

pub use call::{ByIdCall, Call, LookedAt, Transfer, TransferKind};
pub use outcome::Outcome;
pub use refusal::{Refusal, UnknownRefusal};
pub use stop::Stop;
