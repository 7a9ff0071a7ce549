// Texts as data words, three bytes a word, the first highest; what is not filled is zero.

ghost use Rattle.std.specs.Prelude.{◌≡◌, ℕ, ◌+◌, ◌-◌, ◌*◌, ◌/◌, ◌%◌, ◌<◌, ◌≤◌, List, ◌++◌, length, take, MatchOption, ◌≢◌};
ghost use Rattle.words.specs.Format.{text_words, word};
ghost use Rattle.words.specs.Heads.{word_bytes};
ghost use Rattle.words.specs.Text.{goes_on, text_length};

use crate::word::{high, low, middle, take_word};
use calls::Call;

// The longest text that a first word can tell of, and so the room that reading a call needs for one.
pub const LONGEST_TEXT: usize = 255;

// Whether a word can hold the next bytes of a text of which `left` bytes are left.
fn holds_text(word: u32, left: usize) -> bool
    requires { 1 ≤ left }
    ensures { result ≡ goes_on word left }
{
    word < 0x100_0000 && (left > 1 || middle(word) == 0) && (left > 2 || low(word) == 0)
}

// The length of a call's text.
pub(crate) fn text_length(call: Call<usize>) -> usize
    ensures { result ≡ text_length call }
{
    call.text().copied().unwrap_or(0)
}

// Takes a text of `size` bytes off the data words at the front of `bytes`, puts it into `text`, and tells it and the
// rest. It writes by place, since a proof knows nothing of what is written through `chunks_mut`.
pub(crate) fn read_text<'b, 't>(
    bytes: &'b [u8],
    size: usize,
    text: &'t mut [u8; LONGEST_TEXT],
) -> Option<(&'t [u8], &'b [u8])>
    requires { size ≤ LONGEST_TEXT }
    ensures { MatchOption result ((t : List ℕ) (more : List ℕ) → length t ≡ size → bytes.now ≢ text_words t ++ more) (λ p. (length p.0.now ≡ size) × (bytes.now ≡ text_words p.0.now ++ p.1.now)) }
{
    let mut rest = bytes;
    for at in (0..size).step_by(3) {
        let (word, after) = take_word(rest)?;
        if !holds_text(word, size - at) {
            return None;
        }
        text[at] = high(word);
        text[at + 1] = middle(word);
        text[at + 2] = low(word);
        rest = after;
    }
    Some((&text[..size], rest))
}
