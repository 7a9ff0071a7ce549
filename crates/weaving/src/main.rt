// Weaves a small lace draft on the needle bank, punches an archive copy of its tape, and tells every motion.
#![tactic(auto)]

mod draft;
mod loom;
mod picture;
mod station;

use anyhow::Result;
use cabinet::start;
use draft::{DRAFT, ROWS};
use loom::{Loom, Motion};
use picture::Picture;
use std::alloc::{AllocError, Global};

// Record 0 and three stations.
const TASKS: u8 = 4;

const RATE: u8 = 1;

// More motions than the draft can need.
const MOST_MOTIONS: u32 = 10_000;

// The tape of a draft: its rows, eight bytes each, the highest first.
fn tape_of(heap: Global, rows: &[u64; ROWS]) -> Result<Vec<u8>, AllocError> {
    let mut tape = Vec::new(heap);
    for row in rows {
        tape.extend_from_slice(&row.to_be_bytes())?;
    }
    Ok(tape)
}

fn main(rt: HostRuntime) -> Result<()> {
    let heap = rt.alloc();
    let tape = tape_of(heap, &DRAFT)?;
    let mut loom = Loom::new(start(heap, TASKS, RATE, tape)?);
    for number in 1..=MOST_MOTIONS {
        if !loom.make_motion(&Motion { number, rt: &rt })? {
            break;
        }
    }
    println!(rt; "woven:")?;
    let units = loom.cabinet.units();
    for row in &units.unit_2.rows()[..ROWS] {
        let picture = Picture(*row);
        println!(rt; "|{picture}|")?;
    }
    let copied = units.unit_1.taken() == units.unit_0.given();
    let punched = units.unit_1.taken().len();
    println!(rt; "punched {punched} bytes, the same as were read: {copied}")?;
    Ok(())
}
