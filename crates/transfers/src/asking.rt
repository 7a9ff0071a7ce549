// Transfers: the running task asks a unit for one and waits.

ghost use Rattle.calls.specs.Calls.{transfer_with};
ghost use Rattle.calls.specs.declared.call.Call.TheVariants.{Transfer as Transfers};
ghost use Rattle.tables.specs.Promises.{Does};

use calls::{Refusal, Transfer};
use moving::{asked, begun};
use queues::UnitNumber;
use tables::Tables;

// The running task asks a unit for a transfer and waits for its end.
pub fn transfer(tables: &mut Tables, unit: u8, transfer: Transfer<&[u8]>) -> Result<u16, Refusal>
    ensures { Does (Transfers unit (transfer_with (λ t. t.now) transfer.entry)) tables.old tables.new result }
{
    let caller = tables.caller()?;
    let at = UnitNumber::try_from(unit)?;
    let asked = asked(transfer)?;
    tables.queues.join(at, caller, asked.size);
    tables.tasks.stop();
    let task = begun(tables.tasks.task(caller), asked);
    tables.tasks.replace(caller, task);
    tables.tasks.turn();
    Ok(0)
}
