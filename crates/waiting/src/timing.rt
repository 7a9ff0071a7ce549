// The clock: delays and ticks.

ghost use Rattle.std.specs.Prelude.{◌≡◌, ◌≤◌, List, length};
ghost use Rattle.calls.specs.declared.call.Call.TheVariants.{Delay, Tick};
ghost use Rattle.clock.specs.View.{room, sleeping};
ghost use Rattle.tables.specs.Spread.{Spread};
ghost use Rattle.tables.specs.Promises.{Does};
ghost use Rattle.rules.specs.Clock.{due_at, later_than};
ghost use Rattle.rules.specs.Records.{sleepers};
ghost use Rattle.rules.specs.Tables.{release_all};
ghost use Rattle.unit.specs.Medium.{Medium};

use calls::Refusal;
use clock::ClockWaits;
use tables::Tables;
use tasks::Tasks;

// The clock stands still here.
const LAST_READING: u64 = 1_000_000_000_000;

// Ends all waits that are due at a reading of the clock, in order, releases their tasks and counts them.
fn release_due(tasks: &mut Tasks, waits: &mut ClockWaits, reading: u64) -> u16
    requires spread { Spread tasks.old (sleepers (sleeping waits.old)) }
    requires few { room waits.old ≤ 64 }
    ensures table { tasks.new ≡ release_all (sleepers (due_at reading (sleeping waits.old))) tasks.old }
    ensures waits { sleeping waits.new ≡ later_than reading (sleeping waits.old) }
    ensures count { result ≡ length (sleepers (due_at reading (sleeping waits.old))) }
    ensures room { room waits.new ≡ room waits.old }
{
    // A closure that pops and releases would tell nothing of what it changed, so this counts.
    let mut count = 0;
    while let Some(task) = waits.pop_due(reading) {
        tasks.release(task);
        count += 1;
    }
    count
}

// The running task waits for a number of ticks.
pub fn delay(tables: &mut Tables, ticks: u16) -> Result<u16, Refusal>
    ensures { Does (Delay ticks) tables.old tables.new result }
{
    let caller = tables.caller()?;
    let reading = tables.clock.ok_or(Refusal::NoClock)?;
    if ticks == 0 {
        return Err(Refusal::NoTicks);
    }
    let due = reading + u64::from(ticks);
    tables.waits.join(caller, due);
    tables.tasks.stop();
    tables.tasks.turn();
    Ok(0)
}

// The clock goes up by one, and all waits now due end. The answer is how many did.
pub fn tick(tables: &mut Tables) -> Result<u16, Refusal>
    ensures { Does Tick tables.old tables.new result }
{
    let reading = tables.clock.ok_or(Refusal::NoClock)?;
    if reading >= LAST_READING {
        return Err(Refusal::ClockAtEnd);
    }
    let reading = reading + 1;
    tables.clock = Some(reading);
    let count = release_due(&mut tables.tasks, &mut tables.waits, reading);
    tables.tasks.turn();
    Ok(count)
}
