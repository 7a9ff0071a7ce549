// The task monitor: the tables, and four units of any kind. What it means is a state of the rules; every call promises the
// state and the answer that the rules give, and the laws over whole runs stand on the call that takes any step. The method of a
// call takes the fields of that call; a struct of them would be the `Call` again, which `step` takes.
#![tactic(auto)]

mod asking;
mod caller;
mod ids;
mod reads;
mod start;
mod steps;
mod waits;

use calls::Refusal;
use generation::Sealed;
use std::marker::Model;
pub use tables::Place;
use tables::Tables;
use unit::Unit;

// The four units of a cabinet, by their numbers.
#[derive(Drop)]
pub struct Units<A, B, C, D> {
    pub unit_0: A,
    pub unit_1: B,
    pub unit_2: C,
    pub unit_3: D,
}

// A monitor. Of each there is: every record is at exactly one place, marks are as they may be, and chains are sorted.
#[derive(Drop)]
pub struct Monitor<A: Unit, B: Unit, C: Unit, D: Unit> {
    tables: Tables,
    units: Units<A, B, C, D>,
}

// A monitor means a state of the rules, with its units.
impl<A: Unit, B: Unit, C: Unit, D: Unit> Model for Monitor<A, B, C, D> {
    ghost use Rattle.rules.specs.State.{State};

    ghost Value = { State };

    ghost use Rattle.monitor.specs.View.{media};
    ghost use Rattle.tables.specs.View.{state};

    ghost view = { λ m. state (media A.Unit B.Unit C.Unit D.Unit m.units) m.tables };
}

// A monitor that has made a list of steps, and their answers.
#[derive(Drop)]
pub struct Performance<A: Unit, B: Unit, C: Unit, D: Unit> {
    pub monitor: Monitor<A, B, C, D>,
    pub answers: Vec<Result<u16, Refusal>>,
}

// What a start hands back where memory is wanting. It is made only there, by a `let .. else`: a closure for `map_err` would take
// the units from the start that succeeds.
#[derive(Drop)]
pub struct NotStarted<A, B, C, D> {
    pub sealed: Sealed,
    pub units: Units<A, B, C, D>,
}
