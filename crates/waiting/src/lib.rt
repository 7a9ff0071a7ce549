// Calls that have tasks wait: messages at cells, and the clock.
#![tactic(auto)]

mod mail;
mod timing;

pub use mail::{send, wait};
pub use timing::{delay, tick};
