// The word format: calls and answers written as 32-bit words and read back.
#![tactic(auto)]

mod answer;
mod heads;
mod kind;
mod parts;
mod read;
mod text;
mod word;
mod write;

pub use answer::{answer_size, read_answer, write_answer};
pub use parts::Answer;
pub use read::read_call;
pub use text::LONGEST_TEXT;
pub use write::write_call;
