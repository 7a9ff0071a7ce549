// Services: a unit moves one byte of its first request.

ghost use Rattle.std.specs.Prelude.{◌≡◌, ◌<◌, length};
ghost use Rattle.tables.specs.Promises.{Serves};
ghost use Rattle.queues.specs.Number.{number_of};
ghost use Rattle.rules.specs.Tables.{release, turn};
ghost use Rattle.tasks.specs.Parts.{Unplaced};

use calls::Refusal;
use moving::one_move;
use queues::UnitNumber;
use tables::Tables;
use tasks::Tasks;
use unit::Unit;

// Task `t`, whose wait at a unit is over, is released, and a turn follows.
fn finish(tasks: &mut Tasks, t: usize)
    requires { Unplaced t tasks.old }
    ensures { tasks.new ≡ turn (release t tasks.old) }
{
    tasks.release(t);
    tasks.turn();
}

// The unit with the number, which is `device`, moves one byte of its first request. At the end of the transfer its
// task is released and a turn follows, and the answer is 1; while it goes on the answer is 0.
pub fn serve<U: Unit>(tables: &mut Tables, unit: UnitNumber, device: &mut U) -> Result<u16, Refusal>
    ensures { Serves (number_of unit) (U.Unit.medium device.old) (U.Unit.medium device.new) tables.old tables.new result }
{
    let first = tables.queues.first(unit).ok_or(Refusal::NoRequest)?;
    let mut task = *tables.tasks.task(first.task);
    let outcome = one_move(device, &mut task, first);
    tables.tasks.replace(first.task, task);
    if outcome.is_some() {
        tables.queues.pop(unit);
        finish(&mut tables.tasks, first.task);
        return Ok(1);
    }
    tables.queues.advance(unit);
    Ok(0)
}
