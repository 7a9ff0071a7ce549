// The parts of an answer.

use calls::Refusal;

// `T` is how the bytes of a read are held: a slice in code, a list in the definitions.
#[derive(Clone, Copy, PartialEq, Eq, Debug)]
pub struct Answer<T> {
    // The running record after the call.
    pub running: Option<u8>,
    // What a granted call answers, or why it was refused.
    pub reply: Result<u16, Refusal>,
    // The bytes that follow the outcome of a read.
    pub text: T,
}
