// What a transfer asks for, as the code hands it on.

use buffer::Buffer;
use calls::TransferKind;
use tasks::MOST_BYTES;

// The kind of a transfer, the bytes with which it begins, and how many bytes it is to move at most.
#[derive(Clone, Copy)]
pub struct Asked {
    pub kind: TransferKind,
    pub bytes: Buffer<MOST_BYTES>,
    pub size: u8,
}
