// Reading a call: its first word, and the data words that go on with it. The place for a text is the caller's and is lent for one
// call, so it is no part of a reader.

ghost use Rattle.std.specs.Prelude.{◌≡◌, ℕ, ◌<◌, ◌≤◌, List, ◌++◌, length, MatchOption, ◌≢◌};
ghost use Rattle.calls.specs.Calls.{call_with};
ghost use Rattle.calls.specs.declared.call.Call.{Call as Calls};
ghost use Rattle.words.specs.Format.{call_words, data_word, data_words, length_in};
ghost use Rattle.words.specs.Heads.{bare};
ghost use Rattle.words.specs.Reading.{CreateRead, OneCall, ReadsCall, Shorter, reading_with};

use crate::heads::call_of;
use crate::text::{LONGEST_TEXT, read_text, text_length};
use crate::word::take_word;
use calls::{Call, Refusal};

// Takes a number of 16 bits off a data word.
fn read_number(bytes: &[u8]) -> Option<(u16, &[u8])>
    ensures { MatchOption result ((n : ℕ) (more : List ℕ) → bytes.now ≢ data_word n ++ more) (λ p. bytes.now ≡ data_word p.0 ++ p.1.now) }
{
    let (word, rest) = take_word(bytes)?;
    let number = u16::try_from(word).ok()?;
    Some((number, rest))
}

// Takes the start address and the message of a create off two data words.
fn read_create<T: Drop>(id: u8, level: u8, bytes: &[u8]) -> Option<(Call<T>, &[u8])>
    ensures { MatchOption result ((start : ℕ) (message : ℕ) (more : List ℕ) → bytes.now ≢ (data_word start ++ data_word message) ++ more) (λ p. CreateRead id level bytes.now p.0 p.1.now) }
{
    let (start, rest) = read_number(bytes)?;
    let (message, rest) = read_number(rest)?;
    Some((
        Call::Create {
            id,
            level,
            start,
            message,
        },
        rest,
    ))
}

// Goes on with the data words of a call whose first word told `head`.
fn read_data<'b, 't>(
    head: Call<usize>,
    bytes: &'b [u8],
    text: &'t mut [u8; LONGEST_TEXT],
) -> Option<(Call<&'t [u8]>, &'b [u8])>
    requires short { length_in head ≤ LONGEST_TEXT }
    requires bare { head ≡ bare head }
    ensures { MatchOption result ((c : Calls (List ℕ)) (more : List ℕ) → bare (call_with length c) ≡ head → bytes.now ≢ data_words c ++ more) (λ p. (bare (call_with length (call_with (λ t. t.now) p.0)) ≡ head) × (bytes.now ≡ data_words (call_with (λ t. t.now) p.0) ++ p.1.now)) }
{
    if let Call::Create { id, level, .. } = head {
        return read_create(id, level, bytes);
    }
    let (text, rest) = read_text(bytes, text_length(head), text)?;
    Some((head.with_text(text), rest))
}

// Takes the first call off a list of words: the call and the rest, or that there are no words. A text is put into
// `text`. Where the words begin with no call, the refusal is `Unlawful`.
#[tactic(auto, using(crate::proofs::CallWords::one_call, crate::proofs::CallWords::shorter))]
pub fn read_call<'b, 't>(
    bytes: &'b [u8],
    text: &'t mut [u8; LONGEST_TEXT],
) -> Result<Option<(Call<&'t [u8]>, &'b [u8])>, Refusal>
    ensures reads { ReadsCall bytes.now (reading_with (call_with (λ t. t.now)) (λ rest. rest.now) result) }
    ensures shorter { Shorter bytes.now (reading_with (call_with (λ t. t.now)) (λ rest. rest.now) result) }
    ensures only { OneCall }
{
    if bytes.is_empty() {
        return Ok(None);
    }
    let (word, rest) = take_word(bytes).ok_or(Refusal::Unlawful)?;
    let head = call_of(word).ok_or(Refusal::Unlawful)?;
    let found = read_data(head, rest, text).ok_or(Refusal::Unlawful)?;
    Ok(Some(found))
}
