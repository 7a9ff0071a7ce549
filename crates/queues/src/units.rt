// What can be done with the queues of the four units.

ghost use Rattle.std.specs.Prelude.{◌≡◌, ◌<◌, false, [], set, replicate, IfOk, Some};
ghost use Rattle.chain.specs.Lists.{first, has, rest};
ghost use Rattle.queues.specs.Four.{queue_at, queues, room_of};
ghost use Rattle.queues.specs.Number.{number_of};
ghost use Rattle.queues.specs.View.{advanced, as_request, requests};
ghost use Rattle.rules.specs.Records.{all_askers, askers};
ghost use Rattle.rules.specs.State.{Request};
ghost use Rattle.rules.specs.Transfers.{enqueue};
ghost use Rattle.std.specs.List.{list_any};
ghost use Rattle.std.specs.Option.{option_map};

use crate::{Queue, Queues, UnitNumber, UnitRequest};
use line::Waiting;
use std::alloc::{AllocError, Global};

impl Queues {
    // No requests yet at any unit, of `n` tasks, or an error where memory is wanting.
    pub fn of(heap: Global, n: usize) -> Result<Queues, AllocError>
        ensures queues { IfOk result (λ x. queues x ≡ replicate 4 []) }
        ensures room { IfOk result (λ x. room_of x ≡ n) }
    {
        // Tried as `array::try_from_fn`: the proof did not close.
        let at = [
            Queue::of(heap, n)?,
            Queue::of(heap, n)?,
            Queue::of(heap, n)?,
            Queue::of(heap, n)?,
        ];
        Ok(Queues { at })
    }

    // Whether task `t` waits at any unit.
    pub fn is_asking(&self, t: usize) -> bool
        ensures { result ≡ has t (all_askers (queues self.now)) }
    {
        any_asking(&self.at, t)
    }

    // The first task at a unit and its request, if there is one.
    pub fn first(&self, unit: UnitNumber) -> Option<Waiting<UnitRequest>>
        ensures { option_map as_request result ≡ first (queue_at unit self.now) }
    {
        self.at[usize::from(unit)].first()
    }

    // Task `t`, which waits at no unit, asks a unit for a transfer of at most `size` bytes.
    pub fn join(&mut self, unit: UnitNumber, t: usize, size: u8)
        requires within { t < room_of self.old }
        requires fresh { has t (all_askers (queues self.old)) ≡ false }
        ensures queues { queues self.new ≡ set (queues self.old) (number_of unit) (enqueue (record { task = t; size = size; moved = 0 }) (queue_at unit self.old)) }
        ensures room { room_of self.new ≡ room_of self.old }
    {
        self.at[usize::from(unit)].join(t, size);
    }

    // Ends the first request at a unit.
    pub fn pop(&mut self, unit: UnitNumber)
        ensures queues { queues self.new ≡ set (queues self.old) (number_of unit) (rest (queue_at unit self.old)) }
        ensures room { room_of self.new ≡ room_of self.old }
    {
        let _ = self.at[usize::from(unit)].pop();
    }

    // One more byte of the first request at a unit is moved, of which some were still to be moved.
    pub fn advance(&mut self, unit: UnitNumber)
        requires { (r : Request) → first (queue_at unit self.old) ≡ Some r → r.moved < r.size }
        ensures queues { queues self.new ≡ set (queues self.old) (number_of unit) (advanced (queue_at unit self.old)) }
        ensures room { room_of self.new ≡ room_of self.old }
    {
        self.at[usize::from(unit)].advance();
    }
}

// Whether task `t` is in one of the queues. It stands by itself, so that its promise follows the chain of calls.
fn any_asking(queues: &[Queue], t: usize) -> bool
    ensures { result ≡ list_any (λ q. has t (askers (requests q))) queues.now }
{
    queues.iter().any(|queue| queue.is_asking(t))
}
