// Tests of chains of 0, 1, 2 and 64 records on three kinds of record.

ghost use Rattle.std.specs.Prelude.{◌≡◌, ℕ, ◌<◌, ◌≤◌, true, length, nat_le};
ghost use Rattle.chain.specs.Chains.{Ends, nexts};
ghost use Rattle.std.proofs.Common.{rules};

use chain::{Links, Ranked};
use std::alloc::Global;
use std::process::Abort;
use std::test::Fail;

// A task, ranked by its level.
#[derive(Clone, Copy)]
struct Task {
    level: u8,
}

impl Ranked for Task {
    ghost rank = { λ t. t.level };

    ghost above = { λ x y. nat_le x.level y.level };

    ghost total = { Prim.search rules };

    ghost transitive = { Prim.search rules };

    ghost ranks = { Prim.search rules };

    fn goes_behind(&self, other: &Task) -> bool {
        other.level <= self.level
    }
}

// A clock wait, ranked by the tick at which it is due.
#[derive(Clone, Copy)]
struct ClockWait {
    due: u64,
}

impl Ranked for ClockWait {
    ghost rank = { λ w. w.due };

    ghost above = { λ x y. nat_le x.due y.due };

    ghost total = { Prim.search rules };

    ghost transitive = { Prim.search rules };

    ghost ranks = { Prim.search rules };

    fn goes_behind(&self, other: &ClockWait) -> bool {
        other.due <= self.due
    }
}

// A request at a unit. All rank alike.
#[derive(Clone, Copy)]
struct UnitRequest {
    size: u8,
}

impl Ranked for UnitRequest {
    ghost rank = { λ _. 0 };

    ghost above = { λ _ _. true };

    ghost total = { Prim.search rules };

    ghost transitive = { Prim.search rules };

    ghost ranks = { Prim.search rules };

    fn goes_behind(&self, _other: &UnitRequest) -> bool {
        true
    }
}

// A kind of which record `i` is made for the tests, and number `at(n, place)` stands at a place of the chain of n.
trait Sample {
    fn record(i: usize) -> Self
        requires { i < 64 };

    fn at(n: usize, place: usize) -> usize
        requires { (place < n) × (n ≤ 64) };
}

// Odd numbers have level 0 and even ones level 1: equals keep the order in which they were linked.
impl Sample for Task {
    fn record(i: usize) -> Task {
        Task {
            level: if i % 2 == 0 { 1 } else { 0 },
        }
    }

    fn at(n: usize, place: usize) -> usize {
        if place < n / 2 {
            2 * place + 1
        } else {
            2 * (place - n / 2)
        }
    }
}

// The later a wait is linked, the earlier it is due.
impl Sample for ClockWait {
    fn record(i: usize) -> ClockWait {
        ClockWait {
            due: 1000 - i as u64,
        }
    }

    fn at(n: usize, place: usize) -> usize {
        n - 1 - place
    }
}

impl Sample for UnitRequest {
    fn record(_i: usize) -> UnitRequest {
        UnitRequest { size: 80 }
    }

    fn at(_n: usize, place: usize) -> usize {
        place
    }
}

// Fills the table with records, and links all numbers one after another.
fn link_all<R: Ranked + Sample + Drop>(links: &mut Links<R>) -> Option<usize>
    requires { length (nexts links.old) ≤ 64 }
    ensures { Ends (nexts links.new) result }
{
    let mut head = None;
    for i in 0..links.len() {
        links.replace(i, R::record(i));
        links.link_by_rank(&mut head, i);
    }
    head
}

// Links `n` records, and takes them off in the order that their ranks give.
fn links_in_order<R: Ranked + Sample + Copy + Drop>(
    rt: &impl Abort,
    heap: Global,
    n: usize,
) -> Result<(), Fail>
    requires { n ≤ 64 }
{
    let mut links = Links::of(heap, n, R::record(0))?;
    let mut head = link_all(&mut links);
    assert_eq!(rt; links.number_at(head, n), None);
    for place in 0..n {
        assert_eq!(rt; links.take_first(&mut head), Some(R::at(n, place)));
    }
    assert_eq!(rt; head, None);
    Ok(())
}

#[test]
fn tasks_by_level(rt: HostRuntime) -> Result<(), Fail> {
    links_in_order::<Task>(&rt, rt.alloc(), 0)?;
    links_in_order::<Task>(&rt, rt.alloc(), 1)?;
    links_in_order::<Task>(&rt, rt.alloc(), 2)?;
    links_in_order::<Task>(&rt, rt.alloc(), 64)
}

#[test]
fn clock_waits_by_due_tick(rt: HostRuntime) -> Result<(), Fail> {
    links_in_order::<ClockWait>(&rt, rt.alloc(), 0)?;
    links_in_order::<ClockWait>(&rt, rt.alloc(), 1)?;
    links_in_order::<ClockWait>(&rt, rt.alloc(), 2)?;
    links_in_order::<ClockWait>(&rt, rt.alloc(), 64)
}

#[test]
fn unit_requests_all_alike(rt: HostRuntime) -> Result<(), Fail> {
    links_in_order::<UnitRequest>(&rt, rt.alloc(), 0)?;
    links_in_order::<UnitRequest>(&rt, rt.alloc(), 1)?;
    links_in_order::<UnitRequest>(&rt, rt.alloc(), 2)?;
    links_in_order::<UnitRequest>(&rt, rt.alloc(), 64)
}

// Numbers leave the chain from its middle, its head and its end; one that is not there leaves nothing.
#[test]
fn numbers_leave(rt: HostRuntime) -> Result<(), Fail> {
    let mut links = Links::of(rt.alloc(), 6, UnitRequest { size: 0 })?;
    let mut head = links.link_all_but_first();
    assert_eq!(rt; links.number_at(head, 0), Some(1));
    assert_eq!(rt; links.number_at(head, 4), Some(5));
    links.take_out(&mut head, 3);
    links.take_out(&mut head, 1);
    links.take_out(&mut head, 5);
    links.take_out(&mut head, 0);
    assert!(rt; links.is_on(head, 4) && !links.is_on(head, 5));
    assert_eq!(rt; links.number_at(head, 0), Some(2));
    assert_eq!(rt; links.number_at(head, 1), Some(4));
    assert_eq!(rt; links.number_at(head, 2), None);
    assert_eq!(rt; links.numbers(head).count(), 2);
    Ok(())
}

// A newcomer at the head stands before all.
#[test]
fn newcomer_at_the_head(rt: HostRuntime) -> Result<(), Fail> {
    let mut links = Links::of(rt.alloc(), 2, Task { level: 7 })?;
    let mut head = links.link_all_but_first();
    if links.is_on(head, 0) {
        return Err(Fail::new("0 is not linked yet"));
    }
    links.put_first(&mut head, 0);
    assert_eq!(rt; links.number_at(head, 0), Some(0));
    assert_eq!(rt; links.number_at(head, 1), Some(1));
    assert_eq!(rt; links.record_at(1).level, 7);
    Ok(())
}
