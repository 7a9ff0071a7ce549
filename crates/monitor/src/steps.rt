// Any step, and runs of steps. The laws over whole runs stand here: of a run with one step more, and of a whole list of steps
// from a start, at each of its steps.

ghost use Rattle.std.specs.Prelude.{◌≡◌, ◌+◌, ◌≤◌, ◌++◌, length, vec_len, vec_capacity, All, MatchResult};
ghost use Rattle.calls.specs.Calls.{call_with};
ghost use Rattle.generation.specs.Answers.{sealed_rate, sealed_tasks, ticks};
ghost use Rattle.monitor.specs.Promises.{GoesOn, Made, Performed, steps_of};
ghost use Rattle.monitor.specs.View.{media};
ghost use Rattle.rules.specs.Laws.{Lawful};
ghost use Rattle.rules.specs.Runs.{after, answers as answersOf};
ghost use Rattle.rules.specs.State.{begin};

use crate::{Monitor, NotStarted, Performance, Units};
use calls::{Call, Refusal};
use generation::Sealed;
use std::alloc::Global;
use unit::Unit;

impl<A: Unit, B: Unit, C: Unit, D: Unit> Monitor<A, B, C, D> {
    // Makes the call that a step is: an arm for each, since each is another method with other arguments. The laws stand on `step`,
    // where they are one goal and not one for each arm.
    fn make(&mut self, step: Call<&[u8]>) -> Result<u16, Refusal>
        ensures made { Made (call_with (λ t. t.now) step.entry) self.old self.new result }
        ensures lawful { Lawful (call_with (λ t. t.now) step.entry) }
    {
        match step {
            Call::Create {
                id,
                level,
                start,
                message,
            } => self.create(id, level, start, message),
            Call::Kill => self.kill(),
            Call::Suspend => self.suspend(),
            Call::SetLevel { level } => self.set_level(level),
            Call::ById { id, call } => self.by_id(id, call),
            Call::Send {
                cell,
                message,
                stay,
            } => self.send(cell, message, stay),
            Call::Wait { cell } => self.wait(cell),
            Call::Delay { ticks } => self.delay(ticks),
            Call::Transfer { unit, transfer } => self.transfer(unit, transfer),
            Call::Look { at } => self.look(at),
            Call::Tick => self.tick(),
            Call::Service { unit } => self.service(unit),
        }
    }

    // Makes any step: a call of the running task, a tick or a service. Whatever list of steps has brought a monitor newly
    // started over these units to where this one is, all laws hold of that list with this step added.
    pub fn step(&mut self, step: Call<&[u8]>) -> Result<u16, Refusal>
        ensures made { Made (call_with (λ t. t.now) step.entry) self.old self.new result }
        ensures lawful { Lawful (call_with (λ t. t.now) step.entry) }
        ensures laws { GoesOn (call_with (λ t. t.now) step.entry) self.old self.new }
    {
        self.make(step)
    }

    // Makes steps one after the other and keeps the answers, for which there is room.
    fn make_all(&mut self, steps: &[Call<&[u8]>], answers: &mut Vec<Result<u16, Refusal>>)
        requires { vec_len answers.old + length steps.now ≤ vec_capacity answers.old }
        ensures state { self.new ≡ after self.old (steps_of steps.now) }
        ensures answers { answers.new.items ≡ answers.old.items ++ answersOf self.old (steps_of steps.now) }
        ensures lawful { All Lawful (steps_of steps.now) }
    {
        for step in steps {
            answers.push_reserved(self.make(*step));
        }
    }

    // Starts a monitor over four units and makes a list of steps. All laws hold of the whole run and of each front of it. Where
    // memory is wanting, which is before the first step, everything is handed back.
    pub fn perform(
        heap: Global,
        sealed: Sealed,
        units: Units<A, B, C, D>,
        steps: &[Call<&[u8]>],
    ) -> Result<Performance<A, B, C, D>, NotStarted<A, B, C, D>>
        ensures { MatchResult result (λ x. Performed (begin (sealed_tasks sealed) (ticks (sealed_rate sealed)) (media A.Unit B.Unit C.Unit D.Unit units)) (steps_of steps.now) x.monitor x.answers.items) (λ e. (e.sealed ≡ sealed) × (e.units ≡ units)) }
    {
        // As in `start`: a closure would move what the start below needs.
        let Ok(mut answers) = Vec::with_capacity(heap, steps.len()) else {
            return Err(NotStarted { sealed, units });
        };
        let mut monitor = Monitor::start(heap, sealed, units)?;
        monitor.make_all(steps, &mut answers);
        Ok(Performance { monitor, answers })
    }
}
