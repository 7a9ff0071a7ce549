// Writing a call: its first word, and the data words that go on with it.

ghost use Rattle.std.specs.Prelude.{◌≡◌, ℕ, ◌+◌, ◌*◌, ◌/◌, ◌^◌, ◌<◌, ◌≤◌, length};
ghost use Rattle.calls.specs.Calls.{call_with};
ghost use Rattle.words.specs.Format.{call_words, data_words, length_in, text_words};
ghost use Rattle.words.specs.Heads.{word_bytes};
ghost use Rattle.words.specs.Reading.{OneCall, Writable};
ghost use Rattle.words.specs.Writing.{laid, left_by, told_call, words_size};

use crate::heads::{first_word, length_in};
use crate::kind::Kind;
use crate::text::{LONGEST_TEXT, text_length};
use crate::word::{word, word_with};
use calls::{Call, Refusal};

// Lays a word over the bytes at a place.
pub(crate) fn put_word(out: &mut [u8], at: usize, word: u32)
    requires { at + 4 ≤ length out.old }
    ensures { out.new ≡ laid at (word_bytes word) out.old }
{
    out[at..at + 4].copy_from_slice(&word.to_be_bytes());
}

// Lays the data words of a text over the bytes from a place on. The text is taken apart by threes: the project has
// fixed that form for a text (docs/DECISIONS.md), so the place is counted beside it.
pub(crate) fn put_text(out: &mut [u8], at: usize, text: &[u8])
    requires { at + length (text_words text.now) ≤ length out.old }
    ensures { out.new ≡ laid at (text_words text.now) out.old }
{
    let mut at = at;
    let mut rest = text;
    while let [a, b, c, more @ ..] = rest {
        put_word(out, at, word(Kind::Data, 0, *a, *b, *c));
        at += 4;
        rest = more;
    }
    match rest {
        [a, b] => put_word(out, at, word(Kind::Data, 0, *a, *b, 0)),
        [a] => put_word(out, at, word(Kind::Data, 0, *a, 0, 0)),
        _ => {}
    }
}

// A call with the length of its text in the place of the text.
fn head(call: Call<&[u8]>) -> Call<usize>
    ensures { result ≡ call_with length (call_with (λ t. t.now) call.entry) }
{
    call.map_text(|text| text.len())
}

// How many bytes the words of a text take.
pub(crate) fn text_size(length: usize) -> usize
    requires { length < 2 ^ 63 }
    ensures { result ≡ (length + 2) / 3 * 4 }
{
    length.div_ceil(3) * 4
}

// How many bytes the words of a call take.
fn size(call: Call<usize>) -> usize
    requires { length_in call ≤ LONGEST_TEXT }
    ensures { result ≡ words_size call }
{
    match call {
        Call::Create { .. } => 12,
        _ => 4 + text_size(text_length(call)),
    }
}

// Lays the data words of a call over the bytes behind its first word.
fn put_data(out: &mut [u8], call: Call<&[u8]>)
    requires { 4 + length (data_words (call_with (λ t. t.now) call)) ≤ length out.old }
    ensures { out.new ≡ laid 4 (data_words (call_with (λ t. t.now) call.entry)) out.old }
{
    if let Call::Create { start, message, .. } = call {
        put_word(out, 4, word_with(Kind::Data, 0, 0, start));
        put_word(out, 8, word_with(Kind::Data, 0, 0, message));
    } else if let Some(text) = call.text() {
        put_text(out, 4, text);
    }
}

// Lays the words of a call over the first bytes.
fn put_call(out: &mut [u8], call: Call<&[u8]>)
    requires short { Writable (call_with (λ t. t.now) call) }
    requires room { length (call_words (call_with (λ t. t.now) call)) ≤ length out.old }
    ensures { out.new ≡ laid 0 (call_words (call_with (λ t. t.now) call.entry)) out.old }
{
    put_word(out, 0, first_word(head(call)));
    put_data(out, call);
}

// Writes the words of a call to the front of `out` and tells how many bytes they take.
#[tactic(auto, using(crate::proofs::CallWords::one_call))]
pub fn write_call(call: Call<&[u8]>, out: &mut [u8]) -> Result<usize, Refusal>
    ensures told { result ≡ told_call (call_with (λ t. t.now) call.entry) out.old }
    ensures leaves { out.new ≡ left_by result (call_words (call_with (λ t. t.now) call.entry)) out.old }
    ensures back { OneCall }
{
    let head = head(call);
    if length_in(head) > LONGEST_TEXT {
        return Err(Refusal::BadLength);
    }
    let size = size(head);
    if out.len() < size {
        return Err(Refusal::NoRoom);
    }
    put_call(out, call);
    Ok(size)
}
