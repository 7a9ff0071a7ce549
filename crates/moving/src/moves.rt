// One byte of a transfer moved: what the unit is handed or asked for, and what becomes of the task's record.

ghost use Rattle.std.specs.Prelude.{◌≡◌, ◌+◌, ◌<◌, true, false, ◌&&◌, ◌||◌, length, ◌==◌, slice_index};
ghost use Rattle.moving.specs.Moved.{after_move, changed, heard, move_for, taken_in};
ghost use Rattle.queues.specs.View.{as_request};
ghost use Rattle.rules.specs.Sound.{fits};
ghost use Rattle.rules.specs.State.{with_bytes};
ghost use Rattle.rules.specs.Transfers.{by_line, line_end, writes};
ghost use Rattle.tasks.specs.Parts.{as_task};

use crate::text::is_line_end;
use calls::{Outcome, TransferKind};
use line::Waiting;
use queues::UnitRequest;
use tasks::{MOST_BYTES, Task};
use unit::{TransferFault, Unit};

// Whether a transfer moves bytes to the unit.
fn is_write(kind: Option<TransferKind>) -> bool
    ensures { result ≡ writes kind }
{
    matches!(kind, Some(TransferKind::Write | TransferKind::WriteLine))
}

// Whether a line end ends a transfer.
fn is_by_line(kind: Option<TransferKind>) -> bool
    ensures { result ≡ by_line kind }
{
    matches!(kind, Some(TransferKind::ReadLine))
}

// The unit is handed the next byte of a write, or asked for a byte of a read. The byte, or the unit's fault.
fn move_byte<U: Unit>(device: &mut U, task: &Task, moved: u8) -> Result<u8, TransferFault>
    requires { writes task.now.kind ≡ true → moved < length task.now.bytes }
    ensures medium { U.Unit.medium device.new ≡ after_move task.now.kind (slice_index task.now.bytes moved) (U.Unit.medium device.old) }
    ensures told { result ≡ heard task.now.kind (slice_index task.now.bytes moved) (U.Unit.medium device.old) }
{
    if is_write(task.kind) {
        let byte = task.bytes.as_slice()[usize::from(moved)];
        device.take(byte)?;
        return Ok(byte);
    }
    Ok(device.give()?)
}

// A byte of a task's transfer was moved: if it was read, it joins the transfer bytes.
fn take_in(task: &mut Task, byte: u8)
    requires { writes task.old.kind ≡ false → length task.old.bytes < MOST_BYTES }
    ensures { as_task task.new ≡ with_bytes (taken_in task.old.kind byte task.old.bytes) (as_task task.old) }
{
    if !is_write(task.kind) {
        task.bytes.push(byte);
    }
}

// Whether the byte is the last of a transfer.
fn is_last(kind: Option<TransferKind>, request: UnitRequest, byte: u8) -> bool
    requires { request.moved < MOST_BYTES }
    ensures { result ≡ (request.moved + 1 == request.size || (by_line kind && line_end byte)) }
{
    request.moved + 1 == request.size || (is_by_line(kind) && is_line_end(byte))
}

// Moves one byte of the first request at a unit, which is that of `task`. The outcome, if the transfer has ended.
pub fn one_move<U: Unit>(
    device: &mut U,
    task: &mut Task,
    first: Waiting<UnitRequest>,
) -> Option<Outcome>
    requires { fits (as_task task.old) (as_request first) ≡ true }
    ensures medium { U.Unit.medium device.new ≡ (move_for (as_task task.old) (as_request first) (U.Unit.medium device.old)).unit }
    ensures task { as_task task.new ≡ changed (move_for (as_task task.old) (as_request first) (U.Unit.medium device.old)) (as_task task.old) }
    ensures ends { result ≡ (move_for (as_task task.old) (as_request first) (U.Unit.medium device.old)).ends }
{
    let request = first.wait;
    let end = match move_byte(device, task, request.moved) {
        Ok(byte) => {
            take_in(task, byte);
            if !is_last(task.kind, request, byte) {
                return None;
            }
            Ok(request.moved + 1)
        }
        Err(fault) => Err(fault.after(request.moved)),
    };
    let device = U::CODE;
    task.outcome = Some(Outcome { device, end });
    task.outcome
}
