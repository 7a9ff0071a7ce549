// The start of a monitor, and its end.

ghost use Rattle.generation.specs.Answers.{sealed_rate, sealed_tasks, ticks};
ghost use Rattle.monitor.specs.View.{media};
ghost use Rattle.rules.specs.State.{begin};
ghost use Rattle.std.specs.Prelude.{◌≡◌, MatchResult};

use crate::{Monitor, NotStarted, Units};
use generation::Sealed;
use std::alloc::Global;
use tables::Tables;
use unit::Unit;

impl<A: Unit, B: Unit, C: Unit, D: Unit> Monitor<A, B, C, D> {
    // A monitor over four units, as the sealed generation says. Only the start wants memory: where it is wanting, everything
    // is handed back.
    pub fn start(
        heap: Global,
        sealed: Sealed,
        units: Units<A, B, C, D>,
    ) -> Result<Monitor<A, B, C, D>, NotStarted<A, B, C, D>>
        ensures { MatchResult result (λ m. m ≡ begin (sealed_tasks sealed) (ticks (sealed_rate sealed)) (media A.Unit B.Unit C.Unit D.Unit units)) (λ e. (e.sealed ≡ sealed) × (e.units ≡ units)) }
    {
        // A closure for `map_err` would move `sealed` and the units, which a start that succeeds still needs.
        let Ok(tables) = Tables::of(heap, usize::from(sealed.tasks()), sealed.rate().ticks()) else {
            return Err(NotStarted { sealed, units });
        };
        Ok(Monitor { tables, units })
    }

    // Ends the monitor and hands back its units, with all that they have taken and given.
    pub fn into_units(self) -> Units<A, B, C, D>
        ensures { media A.Unit B.Unit C.Unit D.Unit result ≡ self.units }
    {
        self.units
    }
}
