// A run over call words: each call at the front of the words is made on a monitor, and its answer written as words.
#![tactic(auto)]

ghost use Rattle.calls.specs.Calls.{call_with};
ghost use Rattle.host.specs.Answered.{text_behind};
ghost use Rattle.host.specs.Run.{MakesOne, OneRun, Ran, StopsFor};
ghost use Rattle.std.specs.Prelude.{◌≡◌, ◌+◌, ◌-◌, ◌/◌, ◌<◌, ◌≤◌, length, MatchResult};

use calls::{Call, LookedAt, Stop};
use monitor::Monitor;
use unit::Unit;
use words::{Answer, LONGEST_TEXT, answer_size, read_call, write_answer};

// What a run has done.
#[derive(Clone, Copy, PartialEq, Eq, Debug)]
pub struct Report {
    // the calls made, the refused ones too
    pub calls: usize,
    // the bytes of the answers
    pub written: usize,
    pub stop: Stop,
}

// The bytes that stand behind the answer to a call: after a look at the outcome of a read, those that it has moved. A look changes
// nothing, so they are the same before and after the call.
fn text_behind<'m, A: Unit, B: Unit, C: Unit, D: Unit>(
    monitor: &'m Monitor<A, B, C, D>,
    call: Call<&[u8]>,
) -> &'m [u8]
    ensures { result.now ≡ text_behind (call_with (λ t. t.now) call.entry) monitor.now }
{
    match call {
        Call::Look {
            at: LookedAt::Outcome,
        } => monitor.outcome_text(),
        _ => &[],
    }
}

// Makes the first call of some words and writes its answer to the front of `out`: the words that are left, and how many bytes
// the answer takes. So many words as `place` stand before these; a stop where they begin no lawful call tells it.
fn make_first<'b, A: Unit, B: Unit, C: Unit, D: Unit>(
    monitor: &mut Monitor<A, B, C, D>,
    words: &'b [u8],
    place: usize,
    out: &mut [u8],
) -> Result<(&'b [u8], usize), Stop>
    ensures { MatchResult result (λ p. MakesOne words.now p.0.now monitor.old monitor.new out.old out.new p.1) (λ stop. StopsFor stop place words.now monitor.old (length out.old) × (monitor.new ≡ monitor.old) × (out.new ≡ out.old)) }
{
    let mut text = [0; LONGEST_TEXT];
    let found = read_call(words, &mut text).map_err(|_| Stop::Unlawful { place })?;
    let (call, rest) = found.ok_or(Stop::End)?;
    let size = answer_size(text_behind(monitor, call));
    if out.len() < size {
        return Err(Stop::NoRoom);
    }
    let reply = monitor.step(call);
    let answer = Answer {
        running: monitor.running(),
        reply,
        text: text_behind(monitor, call),
    };
    // It fits: its size was compared with the room before the call.
    let _ = write_answer(answer, out);
    Ok((rest, size))
}

// Makes the calls in some words, one after the other, and writes their answers to `answers`, up to the end, to the first
// place where no lawful call begins, or to the first answer that has no room, whose call is not made.
pub fn run<A: Unit, B: Unit, C: Unit, D: Unit>(
    monitor: &mut Monitor<A, B, C, D>,
    words: &[u8],
    answers: &mut [u8],
) -> Report
    ensures ran { Ran words.now monitor.old monitor.new answers.old answers.new result }
    ensures fits { result.written ≤ length answers.new }
    ensures only { OneRun }
{
    let mut rest = words;
    let mut calls = 0;
    let mut written = 0;
    loop {
        let place = (words.len() - rest.len()) / 4;
        match make_first(monitor, rest, place, &mut answers[written..]) {
            Ok((more, size)) => {
                rest = more;
                calls += 1;
                written += size;
            }
            Err(stop) => {
                return Report {
                    calls,
                    written,
                    stop,
                };
            }
        }
    }
}
