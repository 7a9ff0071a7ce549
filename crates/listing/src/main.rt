// Lists a control program: reads call words from calls.bin in the current folder, prints one line a call (its place,
// its words, its name and arguments), writes each call back and compares, and ends with totals.
#![tactic(auto)]

ghost use Rattle.std.specs.Prelude.{◌<◌, length, IfSome, IfOk};

use calls::Call;
use files::read_front;
use std::io;
use words::{LONGEST_TEXT, read_call, write_call};

// The most bytes that the words of a call take: a first word, and data words for 255 bytes of text.
const LONGEST_CALL: usize = 344;

// What a listing counts.
#[derive(Clone, Copy, Default)]
struct Totals {
    calls: usize,
    words: usize,
    // The calls that came out as other words when they were written back.
    changed: usize,
}

// The words of a call in hexadecimal digits, each behind a space.
fn print_words(rt: &impl Print, bytes: &[u8]) -> io::Result<()> {
    let (words, _) = bytes.as_chunks::<4>();
    for word in words {
        let word = u32::from_be_bytes(*word);
        print!(rt; " {word:08X}")?;
    }
    Ok(())
}

// Whether a call, written back, comes out as the bytes that it was read from.
fn comes_out_the_same(call: Call<&[u8]>, from: &[u8], room: &mut [u8]) -> bool {
    write_call(call, room).is_ok_and(|size| room.get(..size) == Some(from))
}

// Prints the line of one call, which was read from `words`.
fn print_call(rt: &impl Print, place: usize, call: Call<&[u8]>, words: &[u8]) -> io::Result<()> {
    print!(rt; "{place:>5} ")?;
    print_words(rt, words)?;
    println!(rt; "  {call}")
}

// Prints the line of the first call and counts it; tells the rest, or `None` at the end and where no call is.
fn list_first<'b>(
    rt: &impl Print,
    bytes: &'b [u8],
    totals: &mut Totals,
) -> io::Result<Option<&'b [u8]>>
    ensures { IfOk result (λ o. IfSome o (λ rest. length rest.now < length bytes.now)) }
{
    let place = totals.words;
    let mut text = [0; LONGEST_TEXT];
    let (call, rest) = match read_call(bytes, &mut text) {
        Ok(Some(found)) => found,
        Ok(None) => return Ok(None),
        // It ends the listing, and not the program.
        Err(_) => {
            println!(rt; "{place:>5}  no lawful call begins here")?;
            return Ok(None);
        }
    };
    let size = bytes.len() - rest.len();
    let words = &bytes[..size];
    print_call(rt, place, call, words)?;
    let mut room = [0; LONGEST_CALL];
    if !comes_out_the_same(call, words, &mut room) {
        totals.changed = totals.changed.saturating_add(1);
    }
    totals.calls = totals.calls.saturating_add(1);
    totals.words = totals.words.saturating_add(size / 4);
    Ok(Some(rest))
}

// Prints a line for each call up to the end or to a place where no call is, and counts.
fn list(rt: &impl Print, bytes: &[u8]) -> io::Result<Totals> {
    let mut totals = Totals::default();
    let mut rest = bytes;
    while let Some(after) = list_first(rt, rest, &mut totals)? {
        rest = after;
    }
    Ok(totals)
}

fn main(rt: HostRuntime) -> io::Result<()> {
    let bytes = read_front(&rt, "calls.bin")?;
    let totals = list(&rt, bytes.as_slice())?;
    let Totals {
        calls,
        words,
        changed,
    } = totals;
    if changed == 0 {
        println!(rt; "written back, all calls came out as the same words")?;
    } else {
        println!(rt; "written back, {changed} calls came out as other words")?;
    }
    println!(rt; "{calls} calls in {words} words")
}
