// What a draft and a sealed generation do.

ghost use Rattle.generation.specs.Answers.{draft_rate, draft_tasks, lawful_tasks, rate_after, rate_number, rate_of, sealed_rate, sealed_tasks, tasks_after, ticks, told_rate, told_tasks};
ghost use Rattle.generation.specs.declared.ClockRate.TheVariants.{Ten};
ghost use Rattle.std.specs.Prelude.{◌≡◌};

use crate::{Answered, ClockRate, Draft, Sealed};
use calls::Refusal;

// The most tasks that a generation can have.
const MOST_TASKS: u8 = 64;

impl ClockRate {
    // Whether there is a clock.
    pub fn ticks(&self) -> bool
        ensures { result ≡ ticks self.now }
    {
        *self != ClockRate::NoClock
    }
}

// The number by which a draft is answered.
impl From<ClockRate> for u8 {
    ghost from_gives = { λ rate n. n ≡ rate_number rate };

    fn from(rate: ClockRate) -> u8 {
        rate as u8
    }
}

// The rate that has the number.
impl TryFrom<u8> for ClockRate {
    type Error = Refusal;

    ghost try_from_gives = { λ number r. r ≡ rate_of number };

    fn try_from(number: u8) -> Result<ClockRate, Refusal> {
        match number {
            0 => Ok(ClockRate::NoClock),
            1 => Ok(ClockRate::Ten),
            2 => Ok(ClockRate::Hundred),
            3 => Ok(ClockRate::Thousand),
            4 => Ok(ClockRate::Mains),
            _ => Err(Refusal::OutOfRange),
        }
    }
}

impl Draft {
    // A draft with 1 task and clock rate 1.
    pub fn new() -> Draft
        ensures tasks { draft_tasks result ≡ 1 }
        ensures rate { draft_rate result ≡ Ten }
    {
        Draft {
            answers: Answered {
                tasks: 1,
                rate: ClockRate::Ten,
            },
        }
    }

    // Answers how many tasks there are: 1 to 64.
    pub fn answer_tasks(&mut self, tasks: u8) -> Result<(), Refusal>
        ensures told { result ≡ told_tasks tasks }
        ensures tasks { draft_tasks self.new ≡ tasks_after tasks (draft_tasks self.old) }
        ensures rate { draft_rate self.new ≡ draft_rate self.old }
    {
        if !(1..=MOST_TASKS).contains(&tasks) {
            return Err(Refusal::OutOfRange);
        }
        self.answers.tasks = tasks;
        Ok(())
    }

    // Answers how often the clock ticks: rate 0 to 4.
    pub fn answer_rate(&mut self, number: u8) -> Result<(), Refusal>
        ensures told { result ≡ told_rate (rate_of number) }
        ensures rate { draft_rate self.new ≡ rate_after (rate_of number) (draft_rate self.old) }
        ensures tasks { draft_tasks self.new ≡ draft_tasks self.old }
    {
        self.answers.rate = ClockRate::try_from(number)?;
        Ok(())
    }

    pub fn seal(self) -> Sealed
        ensures tasks { sealed_tasks result ≡ draft_tasks self }
        ensures rate { sealed_rate result ≡ draft_rate self }
    {
        Sealed { kept: self.answers }
    }
}

impl Sealed {
    pub fn tasks(&self) -> u8
        ensures { result ≡ sealed_tasks self.now }
    {
        self.kept.tasks
    }

    pub fn rate(&self) -> ClockRate
        ensures { result ≡ sealed_rate self.now }
    {
        self.kept.rate
    }
}
