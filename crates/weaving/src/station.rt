// A station: a task that has rows from somewhere, hands each to a unit or not, and passes it on or not, until there are no more.

use buffer::Buffer;
use calls::{Call, LookedAt, Refusal, Transfer};

// A message is not zero: one that carries a byte has this bit, and the one that tells the end has not.
const BYTE: u16 = 0x100;

const END: u16 = 1;

// How many bytes a row has.
const WIDTH: usize = 8;

// Where a station has its rows from. From a unit a whole row comes with one call, and from a cell a byte, so each stage asks which
// it is.
#[derive(Clone, Copy)]
pub enum Source {
    Unit(u8),
    Cell(u8),
}

// What a station does when it runs next: `call` tells which call that is, and `go_on` what comes after its answer. A place in a row
// outlives a motion, so no loop can count it.
#[derive(Clone, Copy)]
enum Stage {
    Fetch,
    // It looks at what it fetched.
    Look,
    Write { unit: u8 },
    // The frame moves.
    Rest,
    // It passes on the byte of the row at a place.
    Pass { cell: u8, place: usize },
    // It tells that there are no more rows.
    Finish,
    Stop,
}

#[derive(Clone, Copy)]
pub struct Station {
    pub name: &'static str,
    source: Source,
    // the unit that each row is written to, if there is one
    unit: Option<u8>,
    // the cell that each row is passed to, if there is one
    target: Option<u8>,
    // the cell that the end is told to
    end: u8,
    stage: Stage,
    row: Buffer<WIDTH>,
}

impl Station {
    pub fn new(
        name: &'static str,
        source: Source,
        unit: Option<u8>,
        target: Option<u8>,
        end: u8,
    ) -> Station {
        Station {
            name,
            source,
            unit,
            target,
            end,
            stage: Stage::Fetch,
            row: Buffer::new(),
        }
    }

    // The call that it makes when it runs next.
    pub fn call(&self) -> Call<&[u8]> {
        match self.stage {
            Stage::Fetch => match self.source {
                Source::Unit(unit) => Call::Transfer {
                    unit,
                    transfer: Transfer::Read { length: WIDTH },
                },
                Source::Cell(cell) => Call::Wait { cell },
            },
            Stage::Look => Call::Look {
                at: match self.source {
                    Source::Unit(_) => LookedAt::Outcome,
                    Source::Cell(_) => LookedAt::Message,
                },
            },
            Stage::Write { unit } => Call::Transfer {
                unit,
                transfer: Transfer::Write {
                    text: self.row.as_slice(),
                },
            },
            Stage::Rest => Call::Delay { ticks: 1 },
            Stage::Pass { cell, place } => Call::Send {
                cell,
                message: BYTE + self.row.as_slice().get(place).copied().map_or(0, u16::from),
                stay: true,
            },
            Stage::Finish => Call::Send {
                cell: self.end,
                message: END,
                stay: false,
            },
            Stage::Stop => Call::Kill,
        }
    }

    // Goes on behind a call that was answered so; `text` is what its latest read has moved.
    pub fn go_on(&mut self, answer: Result<u16, Refusal>, text: &[u8]) {
        // A refusal stops the station, and is no error for the one who moves it.
        let Ok(value) = answer else {
            self.stage = Stage::Stop;
            return;
        };
        self.stage = match self.stage {
            Stage::Fetch => Stage::Look,
            Stage::Look => match self.source {
                Source::Unit(_) => self.take_row(text),
                Source::Cell(_) => self.take_byte(value),
            },
            Stage::Write { .. } => Stage::Rest,
            Stage::Rest => self.behind_unit(),
            Stage::Pass { cell, place } => self.behind_byte(cell, place),
            Stage::Finish | Stage::Stop => Stage::Stop,
        };
    }

    // A row that was read is the next row, if it is whole; else there are no more.
    fn take_row(&mut self, text: &[u8]) -> Stage {
        if text.len() != WIDTH {
            return Stage::Finish;
        }
        self.row = Buffer::of(text);
        self.with_row()
    }

    // A message is the next byte of the row, or tells that there are no more rows.
    fn take_byte(&mut self, message: u16) -> Stage {
        if message < BYTE || self.row.is_full() {
            return Stage::Finish;
        }
        self.row.push((message % 256) as u8);
        if self.row.is_full() {
            self.with_row()
        } else {
            Stage::Fetch
        }
    }

    // The row is whole.
    fn with_row(&mut self) -> Stage {
        match self.unit {
            Some(unit) => Stage::Write { unit },
            None => self.behind_unit(),
        }
    }

    // The row is where it has to be, and goes on to the next station.
    fn behind_unit(&mut self) -> Stage {
        match self.target {
            Some(cell) => Stage::Pass { cell, place: 0 },
            None => self.next_row(),
        }
    }

    // The byte at a place is passed on.
    fn behind_byte(&mut self, cell: u8, place: usize) -> Stage {
        if place >= WIDTH - 1 {
            return self.next_row();
        }
        Stage::Pass {
            cell,
            place: place + 1,
        }
    }

    fn next_row(&mut self) -> Stage {
        self.row = Buffer::new();
        Stage::Fetch
    }
}
