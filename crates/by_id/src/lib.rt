// Calls on the task that has an id: the live one with it, which may be the caller itself.
#![tactic(auto)]

ghost use Rattle.std.specs.Prelude.{◌≡◌, ◌<◌, List, length};
ghost use Rattle.calls.specs.declared.call.ByIdCall.TheVariants as by;
ghost use Rattle.calls.specs.declared.call.Call.TheVariants.{ById};
ghost use Rattle.tables.specs.Promises.{Does};
ghost use Rattle.tables.specs.View.{state};
ghost use Rattle.rules.specs.Records.{bit as bit_of, status_of};
ghost use Rattle.unit.specs.Medium.{Medium};

use calls::{ByIdCall, Refusal};
use own::{kill, or_else, set_level, suspend};
use tables::Tables;

// Each call below looks its task up and refuses in a `let .. else`: the project has fixed that form for these calls
// (docs/DECISIONS.md).

// A call on the task with the id: the one entry for all five, whose names are the calls'.
pub fn by_id(tables: &mut Tables, id: u8, call: ByIdCall) -> Result<u16, Refusal>
    ensures { Does (ById id call) tables.old tables.new result }
{
    match call {
        ByIdCall::Kill => kill_id(tables, id),
        ByIdCall::Ready => ready_id(tables, id),
        ByIdCall::Suspend => suspend_id(tables, id),
        ByIdCall::SetLevel { level } => set_level_id(tables, id, level),
        ByIdCall::Status => status_id(tables, id),
    }
}

// The task with the id is killed, unless it waits at a unit: it leaves its chain or its wait, and its record is cleared and
// freed. A message that it sent stays in its cell.
pub fn kill_id(tables: &mut Tables, id: u8) -> Result<u16, Refusal>
    ensures { Does (ById id by.Kill) tables.old tables.new result }
{
    let caller = tables.caller()?;
    let Some(task) = tables.tasks.find(id) else {
        return Err(Refusal::NoSuchId);
    };
    if task == caller {
        return kill(tables);
    }
    if tables.queues.is_asking(task) {
        return Err(Refusal::AtUnit);
    }
    tables.waits.leave(task);
    tables.cells.leave(task);
    tables.tasks.kill_other(task);
    tables.tasks.turn();
    Ok(0)
}

// The task with the id loses its mark; a suspended one is linked, and any other keeps its place.
pub fn ready_id(tables: &mut Tables, id: u8) -> Result<u16, Refusal>
    ensures { Does (ById id by.Ready) tables.old tables.new result }
{
    let caller = tables.caller()?;
    let Some(task) = tables.tasks.find(id) else {
        return Err(Refusal::NoSuchId);
    };
    if task != caller {
        tables.tasks.ready_other(task);
    }
    tables.tasks.turn();
    Ok(0)
}

// The task with the id gets the mark; a ready one is taken out and suspended, and any other keeps its place.
pub fn suspend_id(tables: &mut Tables, id: u8) -> Result<u16, Refusal>
    ensures { Does (ById id by.Suspend) tables.old tables.new result }
{
    let caller = tables.caller()?;
    let Some(task) = tables.tasks.find(id) else {
        return Err(Refusal::NoSuchId);
    };
    if task == caller {
        return suspend(tables);
    }
    tables.tasks.suspend_other(task);
    tables.tasks.turn();
    Ok(0)
}

// The task with the id gets a level, where 0 stands for 1; a ready one is taken out and linked again.
pub fn set_level_id(tables: &mut Tables, id: u8, level: u8) -> Result<u16, Refusal>
    ensures { Does (ById id (by.SetLevel level)) tables.old tables.new result }
{
    let caller = tables.caller()?;
    let Some(task) = tables.tasks.find(id) else {
        return Err(Refusal::NoSuchId);
    };
    if task == caller {
        return set_level(tables, level);
    }
    tables.tasks.level_other(task, or_else(1, level));
    tables.tasks.turn();
    Ok(0)
}

// What holds of the task with the id, as a sum: 1 at a unit, 2 with the mark, 4 at a cell, 8 for a due tick.
pub fn status_id(tables: &Tables, id: u8) -> Result<u16, Refusal>
    ensures { Does (ById id by.Status) tables.now tables.now result }
{
    tables.caller()?;
    let Some(task) = tables.tasks.find(id) else {
        return Err(Refusal::NoSuchId);
    };
    Ok(status(tables, task))
}

// The status of a record.
fn status(tables: &Tables, task: usize) -> u16
    requires { task < length tables.now.tasks.tasks }
    ensures { (us : List Medium) → result ≡ status_of (state us tables.now) task }
{
    let unit = bit(tables.queues.is_asking(task), 1);
    let mark = bit(tables.tasks.task(task).mark, 2);
    let cell = bit(tables.cells.is_waiting(task), 4);
    let due = bit(tables.waits.is_sleeping(task), 8);
    unit + mark + cell + due
}

// A number if something holds, else 0.
fn bit(holds: bool, number: u16) -> u16
    ensures { result ≡ bit_of holds number }
{
    if holds { number } else { 0 }
}
