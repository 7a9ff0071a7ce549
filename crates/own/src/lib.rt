// What the running task does to itself, and the new task that it makes.
#![tactic(auto)]

ghost use Rattle.calls.specs.declared.call.Call.TheVariants.{Create, Kill, Look, SetLevel, Suspend};
ghost use Rattle.tables.specs.Promises.{Does};
ghost use Rattle.rules.specs.Records.{or_else};
ghost use Rattle.rules.specs.Rules.{seen};
ghost use Rattle.std.specs.Prelude.{◌<◌, length, ◌≡◌};
ghost use Rattle.rules.specs.State.{level_in};
ghost use Rattle.tasks.specs.Parts.{as_task};

use calls::{LookedAt, Refusal};
use tables::Tables;
use tasks::{Task, Tasks};

// The first free record becomes a task; level 0 stands for the caller's level. The caller is linked, then the new task, and
// one is chosen. The answer is the new record's number.
pub fn create(
    tables: &mut Tables,
    id: u8,
    level: u8,
    start: u16,
    message: u16,
) -> Result<u16, Refusal>
    ensures { Does (Create id level start message) tables.old tables.new result }
{
    let caller = tables.caller()?;
    let free = tables.tasks.first_free().ok_or(Refusal::NoFreeRecord)?;
    if tables.tasks.find(id).is_some() {
        return Err(Refusal::IdInUse);
    }
    let level = level_for(&tables.tasks, caller, level);
    tables
        .tasks
        .start_task(caller, free, Task::new(id, level, start, message));
    Ok(free as u16)
}

// The running task is killed: its record is cleared and freed.
pub fn kill(tables: &mut Tables) -> Result<u16, Refusal>
    ensures { Does Kill tables.old tables.new result }
{
    let caller = tables.caller()?;
    tables.tasks.stop();
    tables.tasks.clear(caller);
    tables.tasks.turn();
    Ok(0)
}

// The running task gets the mark and goes to the suspended chain.
pub fn suspend(tables: &mut Tables) -> Result<u16, Refusal>
    ensures { Does Suspend tables.old tables.new result }
{
    let caller = tables.caller()?;
    tables.tasks.stop();
    tables.tasks.set_mark(caller, true);
    tables.tasks.suspend(caller);
    tables.tasks.turn();
    Ok(0)
}

// The running task gets a level; 0 stands for 1.
pub fn set_level(tables: &mut Tables, level: u8) -> Result<u16, Refusal>
    ensures { Does (SetLevel level) tables.old tables.new result }
{
    let caller = tables.caller()?;
    tables.tasks.set_level(caller, or_else(1, level));
    tables.tasks.turn();
    Ok(0)
}

// A field of the running task's record is told; nothing changes.
pub fn look(tables: &Tables, at: LookedAt) -> Result<u16, Refusal>
    ensures { Does (Look at) tables.now tables.now result }
{
    let caller = tables.caller()?;
    Ok(told(tables.tasks.task(caller), at))
}

// The level of a new task: 0 stands for that of the caller.
fn level_for(tasks: &Tasks, caller: usize, level: u8) -> u8
    requires { caller < length tasks.now.tasks }
    ensures { result ≡ or_else (level_in tasks.now caller) level }
{
    or_else(tasks.task(caller).level, level)
}

// A level that is not 0, or the other.
pub fn or_else(other: u8, level: u8) -> u8
    ensures { result ≡ or_else other level }
{
    if level == 0 { other } else { level }
}

// What a look at a record tells.
fn told(task: &Task, at: LookedAt) -> u16
    ensures { result ≡ seen at (as_task task.now) }
{
    match at {
        LookedAt::Message => task.word,
        LookedAt::Start => task.start,
        LookedAt::Outcome => task.outcome.map_or(0, u16::from),
    }
}
