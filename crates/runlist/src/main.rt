// Runs a list of calls on a cabinet: reads the call words from calls.bin and the tape from tape.bin in the current folder, and
// prints each answer word on a line, and last the calls done and why the run stopped.
#![tactic(auto)]

use anyhow::Result;
use cabinet::start;
use files::read_front;
use host::run;
use report::{end_line, word_line};
use std::io::{self, BufWriter, Write};

const TASKS: u8 = 4;

const RATE: u8 = 1;

// The room for answers.
const ROOM: usize = 65_536;

// Prints a line for each word.
fn print_words(out: &mut impl Write, bytes: &[u8]) -> io::Result<()> {
    let (words, _) = bytes.as_chunks::<4>();
    for word in words {
        out.write_all(&word_line(u32::from_be_bytes(*word)))?;
    }
    Ok(())
}

fn main(rt: HostRuntime) -> Result<()> {
    let heap = rt.alloc();
    let calls = read_front(&rt, "calls.bin")?;
    let tape = read_front(&rt, "tape.bin")?;
    let mut cabinet = start(heap, TASKS, RATE, tape)?;
    let mut answers = vec![in heap; 0; ROOM]?;
    let report = run(&mut cabinet, &calls, &mut answers);
    let mut out = BufWriter::new(heap, io::writer(&rt))?;
    print_words(&mut out, &answers[..report.written])?;
    out.write_all(end_line(heap, report.calls, report.stop)?.as_bytes())?;
    out.flush()?;
    Ok(())
}
