// Answers: what a call is answered in words.

ghost use Rattle.std.specs.Prelude.{◌≡◌, ℕ, ◌+◌, ◌%◌, ◌<◌, ◌≤◌, List, length, if◌then◌else◌, Some, None, Option as Options, Result as Results, MatchOption};
ghost use Rattle.calls.specs.declared.refusal.Refusal.{Refusal as Refusals};
ghost use Rattle.words.specs.Answers.{answer_with, answer_words, Named, OneAnswer, ReadsAnswer, reply_size, reply_word, starts_data};
ghost use Rattle.words.specs.Heads.{word_bytes};
ghost use Rattle.words.specs.Reading.{reading_with};
ghost use Rattle.words.specs.Writing.{laid, left_by, told_writing};
ghost use Rattle.words.specs.declared.parts.Answer.{Answer as Answers};

use crate::kind::Kind;
use crate::parts::Answer;
use crate::text::{LONGEST_TEXT, read_text};
use crate::word::{high, kind, number, sub_kind, take_word, word_with};
use crate::write::{put_text, put_word, text_size};
use calls::Refusal;

// What stands in the place of the running record where none runs.
const NO_RECORD: u8 = 255;

// Whether the bytes begin with a data word. Only the first byte is looked at, so one that is cut short counts too.
fn starts_data(bytes: &[u8]) -> bool
    ensures { result ≡ starts_data bytes.now }
{
    bytes
        .first()
        .is_some_and(|first| *first / 16 == u8::from(Kind::Data))
}

// The reply that a word is.
fn reply_of(word: u32) -> Option<(Option<u8>, Result<u16, Refusal>)>
    ensures { MatchOption result ((running : Options ℕ) (reply : Results ℕ Refusals) → Named running → reply_word running reply ≡ word_bytes word → ⊥) (λ p. (reply_word p.0 p.1 ≡ word_bytes word) × Named p.0) }
{
    if sub_kind(word) != 0 {
        return None;
    }
    let record = high(word);
    let running = (record != NO_RECORD).then_some(record);
    match kind(word)? {
        Kind::Granted => Some((running, Ok(number(word)))),
        Kind::Refused => {
            let refusal = Refusal::try_from(number(word)).ok()?;
            Some((running, Err(refusal)))
        }
        _ => None,
    }
}

// The bytes of text that follow a reply: none unless a data word follows, and then as many as the outcome of a read
// tells in bits 6 to 0.
fn following_size(bytes: &[u8], reply: Result<u16, Refusal>) -> usize
    ensures { result ≡ (if starts_data bytes.now then reply_size reply else 0) }
{
    match reply {
        Ok(value) if starts_data(bytes) => usize::from(value % 128),
        _ => 0,
    }
}

// Takes the first answer off a list of words: the answer and the rest, or that there are no words. The bytes of a
// read are put into `text`. Where the words begin with no answer, the refusal is `Unlawful`.
#[tactic(auto, using(crate::proofs::AnswerWords::one_answer))]
pub fn read_answer<'b, 't>(
    bytes: &'b [u8],
    text: &'t mut [u8; LONGEST_TEXT],
) -> Result<Option<(Answer<&'t [u8]>, &'b [u8])>, Refusal>
    ensures reads { ReadsAnswer bytes.now (reading_with (answer_with (λ t. t.now)) (λ rest. rest.now) result) }
    ensures only { OneAnswer }
{
    if bytes.is_empty() {
        return Ok(None);
    }
    let (word, rest) = take_word(bytes).ok_or(Refusal::Unlawful)?;
    let (running, reply) = reply_of(word).ok_or(Refusal::Unlawful)?;
    let size = following_size(rest, reply);
    let (text, after) = read_text(rest, size, text).ok_or(Refusal::Unlawful)?;
    if starts_data(after) {
        return Err(Refusal::Unlawful);
    }
    let answer = Answer {
        running,
        reply,
        text,
    };
    Ok(Some((answer, after)))
}

// A reply's word.
fn word_of(running: Option<u8>, reply: Result<u16, Refusal>) -> u32
    ensures { word_bytes result ≡ reply_word running reply }
{
    let record = running.unwrap_or(NO_RECORD);
    match reply {
        Ok(value) => word_with(Kind::Granted, 0, record, value),
        Err(refusal) => word_with(Kind::Refused, 0, record, u16::from(u8::from(refusal))),
    }
}

// How many bytes the words of an answer take with this text behind it.
pub fn answer_size(text: &[u8]) -> usize
    ensures { (a : Answers (List ℕ)) → a.text ≡ text.now → length (answer_words a) ≡ result }
{
    4 + text_size(text.len())
}

// Writes the words of an answer to the front of `out` and tells how many bytes they take.
#[tactic(auto, using(crate::proofs::AnswerWords::one_answer))]
pub fn write_answer(answer: Answer<&[u8]>, out: &mut [u8]) -> Result<usize, Refusal>
    ensures told { result ≡ told_writing (answer_words (answer_with (λ t. t.now) answer.entry)) out.old }
    ensures leaves { out.new ≡ left_by result (answer_words (answer_with (λ t. t.now) answer.entry)) out.old }
    ensures back { OneAnswer }
{
    let size = answer_size(answer.text);
    if out.len() < size {
        return Err(Refusal::NoRoom);
    }
    put_word(out, 0, word_of(answer.running, answer.reply));
    put_text(out, 4, answer.text);
    Ok(size)
}
