// A cabinet at work: a monitor over four units, and what its tasks do when they run.
//
// Record 0 makes three stations: one reads rows off the tape, one weaves them, one punches a copy. A row goes from station to
// station byte by byte through a cell, and each byte is taken before the next is sent.

use crate::station::{Source, Station};
use cabinet::Cabinet;
use calls::{Call, Refusal};
use std::io;

// A call names its unit by number.
const READER: u8 = 0;

const PUNCH: u8 = 1;

const NEEDLES: u8 = 2;

// The cells through which rows pass from one station to the next, and that at which the end is told.
const TO_NEEDLES: u8 = 1;

const TO_PUNCH: u8 = 2;

const AT_END: u8 = 3;

// The level of the stations; record 0 ranks above them.
const LEVEL: u8 = 10;

// What record 0 does when it runs next.
#[derive(Clone, Copy)]
enum Control {
    // It makes the station of this number, from 1, which is the id and the start address of its task.
    Make { station: u8 },
    // It waits until the stations are done.
    Wait,
    Stop,
}

#[derive(Drop)]
pub struct Loom {
    pub cabinet: Cabinet,
    control: Control,
    stations: [Station; 3],
}

// A motion of the frame by its number, and where it is told.
#[derive(Drop)]
pub struct Motion<'a, R> {
    pub number: u32,
    pub rt: &'a R,
}

impl<R: Print> Motion<'_, R> {
    // One line: the motion, who makes it, the call and its answer.
    fn tell(&self, name: &str, call: Call<&[u8]>, answer: Result<u16, Refusal>) -> io::Result<()> {
        let number = self.number;
        match answer {
            Ok(value) => println!(self.rt; "{number:>4}  {name:<8} {call}: {value}"),
            Err(refusal) => println!(self.rt; "{number:>4}  {name:<8} {call}: {refusal}"),
        }
    }
}

impl Loom {
    pub fn new(cabinet: Cabinet) -> Loom {
        let stations = [
            Station::new(
                "reader",
                Source::Unit(READER),
                None,
                Some(TO_NEEDLES),
                TO_NEEDLES,
            ),
            Station::new(
                "needles",
                Source::Cell(TO_NEEDLES),
                Some(NEEDLES),
                Some(TO_PUNCH),
                TO_PUNCH,
            ),
            Station::new("punch", Source::Cell(TO_PUNCH), Some(PUNCH), None, AT_END),
        ];
        Loom {
            cabinet,
            control: Control::Make { station: 1 },
            stations,
        }
    }

    // Makes one motion and tells it: the call of the task that runs, or, where none runs, services and a tick. Tells whether
    // anything can still happen.
    pub fn make_motion(&mut self, motion: &Motion<impl Print>) -> io::Result<bool> {
        let Some(record) = self.cabinet.running() else {
            return self.move_units(motion);
        };
        let start = self
            .cabinet
            .task(usize::from(record))
            .map_or(0, |task| task.start);
        // A start address is the number of a station, from 1; record 0 has none.
        match usize::from(start).checked_sub(1) {
            None => self.control(motion)?,
            Some(place) => self.work(motion, place)?,
        }
        Ok(true)
    }

    // Record 0 makes the stations, waits for the end, and is done.
    fn control(&mut self, motion: &Motion<impl Print>) -> io::Result<()> {
        let call: Call<&[u8]> = match self.control {
            Control::Make { station } => Call::Create {
                id: station,
                level: LEVEL,
                start: u16::from(station),
                message: 0,
            },
            Control::Wait => Call::Wait { cell: AT_END },
            Control::Stop => Call::Kill,
        };
        // Behind the last of the three it waits.
        self.control = match self.control {
            Control::Make {
                station: station @ 1..=2,
            } => Control::Make {
                station: station + 1,
            },
            Control::Make { .. } => Control::Wait,
            Control::Wait | Control::Stop => Control::Stop,
        };
        let answer = self.cabinet.step(call);
        motion.tell("control", call, answer)
    }

    // A station makes its next call.
    fn work(&mut self, motion: &Motion<impl Print>, place: usize) -> io::Result<()> {
        let Some(station) = self.stations.get_mut(place) else {
            return Ok(());
        };
        let call = station.call();
        let answer = self.cabinet.step(call);
        motion.tell(station.name, call, answer)?;
        station.go_on(answer, self.cabinet.outcome_text());
        Ok(())
    }

    // No task runs: each unit moves a byte of its first request, if it has one, and the clock ticks.
    fn move_units(&mut self, motion: &Motion<impl Print>) -> io::Result<bool> {
        let mut moved = false;
        for unit in [READER, PUNCH, NEEDLES] {
            if let Ok(ends) = self.cabinet.service(unit) {
                moved = true;
                motion.tell("", Call::Service { unit }, Ok(ends))?;
            }
        }
        let ended = self.cabinet.tick();
        motion.tell("", Call::Tick, ended)?;
        Ok(moved || ended.is_ok_and(|waits| waits > 0))
    }
}
