// What a task asks a unit for, and its record when it has asked.

ghost use Rattle.calls.specs.Calls.{transfer_with};
ghost use Rattle.calls.specs.declared.call.Transfer.TheVariants.{Write, WriteLine};
ghost use Rattle.moving.specs.Wanted.{as_wanted, told_size, wanted, wants};
ghost use Rattle.rules.specs.State.{with_transfer};
ghost use Rattle.tasks.specs.Parts.{as_task};
ghost use Rattle.std.specs.Prelude.{◌≡◌, []};

use crate::parts::Asked;
use crate::text::by_line;
use buffer::Buffer;
use calls::{Refusal, Transfer, TransferKind};
use tasks::{MOST_BYTES, Task};

// The size of a transfer of so many bytes, or that no transfer can be of so many.
fn sized(length: usize) -> Result<u8, Refusal>
    ensures { result ≡ told_size length }
{
    if length == 0 || length > MOST_BYTES {
        return Err(Refusal::BadLength);
    }
    Ok(length as u8)
}

// A write of a text by count.
fn write(text: &[u8]) -> Result<Asked, Refusal>
    ensures { wants result ≡ wanted (Write text.now) }
{
    let size = sized(text.len())?;
    Ok(Asked {
        kind: TransferKind::Write,
        bytes: Buffer::of(text),
        size,
    })
}

// A write of a text up to its first line end.
fn write_line(text: &[u8]) -> Result<Asked, Refusal>
    ensures { wants result ≡ wanted (WriteLine text.now) }
{
    sized(text.len())?;
    let bytes = by_line(text).ok_or(Refusal::NoLineEnd)?;
    Ok(Asked {
        kind: TransferKind::WriteLine,
        bytes,
        size: bytes.len() as u8,
    })
}

// A read, which begins with no bytes.
fn read(kind: TransferKind, size: u8) -> Asked
    ensures { as_wanted result ≡ record { kind = kind; bytes = []; size = size } }
{
    Asked {
        kind,
        bytes: Buffer::new(),
        size,
    }
}

// What a transfer asks for, or why it is refused: an arm for each kind, since each is checked in another way.
pub fn asked(transfer: Transfer<&[u8]>) -> Result<Asked, Refusal>
    ensures { wants result ≡ wanted (transfer_with (λ t. t.now) transfer.entry) }
{
    match transfer {
        Transfer::Write { text } => write(text),
        Transfer::WriteLine { text } => write_line(text),
        Transfer::Read { length } => Ok(read(TransferKind::Read, sized(length)?)),
        Transfer::ReadLine => Ok(read(TransferKind::ReadLine, MOST_BYTES as u8)),
    }
}

// The record of a task that asks for a transfer: no outcome yet.
pub fn begun(task: &Task, asked: Asked) -> Task
    ensures { as_task result ≡ with_transfer asked.kind asked.bytes (as_task task.now) }
{
    Task {
        bytes: asked.bytes,
        kind: Some(asked.kind),
        outcome: None,
        ..*task
    }
}
