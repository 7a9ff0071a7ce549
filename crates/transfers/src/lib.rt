// Transfers to and from units, and their service.
#![tactic(auto)]

mod asking;
mod service;

pub use asking::transfer;
pub use service::serve;
