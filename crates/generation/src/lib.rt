// Generation: how a monitor shall be. A draft takes answers; sealing turns it into a sealed generation, which takes none
// and which a monitor starts from.
#![tactic(auto)]

ghost use Rattle.std.specs.Prelude.{◌≤◌};

mod answers;

// How often the clock ticks.
#[derive(Clone, Copy, PartialEq, Eq, Debug)]
pub enum ClockRate {
    // There is no clock.
    NoClock = 0,
    // 10 ticks a second.
    Ten = 1,
    // 100 ticks a second.
    Hundred = 2,
    // 1,000 ticks a second.
    Thousand = 3,
    // As the mains.
    Mains = 4,
}

// The answers: how many tasks there are, and how often the clock ticks.
#[derive(Clone, Copy)]
struct Answered {
    tasks: u8,
    rate: ClockRate,
    ghost some: { 1 ≤ tasks },
    ghost few: { tasks ≤ 64 },
}

// What has been answered so far.
#[derive(Drop)]
pub struct Draft {
    answers: Answered,
}

// A generation that takes no more answers.
#[derive(Drop)]
pub struct Sealed {
    kept: Answered,
}
