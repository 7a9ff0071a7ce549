// Bytes under way: the text that a write lays into a task's transfer bytes, what a transfer asks for, and one byte moved
// between a task and a unit. Nothing here knows of chains, waits or turns.
#![tactic(auto)]

mod asking;
mod moves;
mod parts;
mod text;

pub use asking::{asked, begun};
pub use moves::one_move;
pub use parts::Asked;
pub use text::{by_line, is_line_end};
