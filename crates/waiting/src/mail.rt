// Messages between tasks: send and wait.

ghost use Rattle.calls.specs.declared.call.Call.TheVariants.{Send, Wait};
ghost use Rattle.cells.specs.View as post;
ghost use Rattle.chain.specs.Lists.{first};
ghost use Rattle.tables.specs.Spread.{Spread};
ghost use Rattle.tables.specs.Promises.{Does};
ghost use Rattle.rules.specs.Mail.{empty_cell, leave_first, tasks_at};
ghost use Rattle.rules.specs.Records.{waiters};
ghost use Rattle.rules.specs.Tables.{hand_all, release_all};
ghost use Rattle.std.specs.Option.{option_to_list};
ghost use Rattle.unit.specs.Medium.{Medium};
ghost use Rattle.std.specs.Prelude.{◌≡◌, List};

use calls::Refusal;
use cells::Cells;
use tables::Tables;
use tasks::Tasks;

// Hands the message to each task that waits at the cell, the longest first, and releases it.
fn hand_all(tasks: &mut Tasks, cells: &mut Cells, cell: u8, message: u16)
    requires { Spread tasks.old (waiters (post.cells cells.old).waits) }
    ensures table { tasks.new ≡ hand_all message (tasks_at cell (post.cells cells.old).waits) tasks.old }
    ensures cells { post.cells cells.new ≡ empty_cell cell (post.cells cells.old) }
    ensures room { post.room cells.new ≡ post.room cells.old }
{
    while let Some(receiver) = cells.take_first_at(cell) {
        tasks.hand(message, receiver);
    }
}

// Releases the sender that stayed at the cell, if there is one.
fn release_sender(tasks: &mut Tasks, cells: &mut Cells, cell: u8)
    requires { Spread tasks.old (waiters (post.cells cells.old).waits) }
    ensures table { tasks.new ≡ release_all (option_to_list (first (tasks_at cell (post.cells cells.old).waits))) tasks.old }
    ensures cells { post.cells cells.new ≡ leave_first cell (post.cells cells.old) }
    ensures room { post.room cells.new ≡ post.room cells.old }
{
    if let Some(sender) = cells.take_first_at(cell) {
        tasks.release(sender);
    }
}

// The running task sends a message to a cell. All receivers that wait there get it, and only then is the running task linked;
// otherwise the cell takes it, and a caller who stays waits until it is taken.
pub fn send(tables: &mut Tables, cell: u8, message: u16, stay: bool) -> Result<u16, Refusal>
    ensures { Does (Send cell message stay) tables.old tables.new result }
{
    let caller = tables.caller()?;
    if tables.cells.word(cell) != 0 {
        return Err(Refusal::CellFull);
    }
    if message == 0 {
        return Err(Refusal::NoMessage);
    }
    if tables.cells.is_awaited(cell) {
        hand_all(&mut tables.tasks, &mut tables.cells, cell, message);
    } else {
        tables.cells.put_word(cell, message);
        if stay {
            tables.cells.join(caller, cell);
            tables.tasks.stop();
        }
    }
    tables.tasks.turn();
    Ok(0)
}

// The running task takes a cell's message, and a sender who stayed goes on; or it waits for one. The answer is the message, or
// 0 where there is none yet.
pub fn wait(tables: &mut Tables, cell: u8) -> Result<u16, Refusal>
    ensures { Does (Wait cell) tables.old tables.new result }
{
    let caller = tables.caller()?;
    let message = tables.cells.word(cell);
    if message == 0 {
        tables.cells.join(caller, cell);
        tables.tasks.stop();
    } else {
        tables.cells.put_word(cell, 0);
        tables.tasks.give_word(caller, message);
        release_sender(&mut tables.tasks, &mut tables.cells, cell);
    }
    tables.tasks.turn();
    Ok(message)
}
