// First words: what the first word of a call tells, both ways. In a call here, the length of a text stands for the text.
// An enum of sub-kinds would repeat `Call`, `ByIdCall` and `Transfer` without what five of their cases hold; a `TryFrom` for `LookedAt`
// would be the same match, with an error that nobody reads. A call may ask to read more bytes than a word has place for, so a length is
// a `usize`, and that it fits is asked where the word is made.

ghost use Rattle.std.specs.Prelude.{◌≡◌, ℕ, ◌+◌, ◌*◌, ◌/◌, ◌%◌, ◌<◌, ◌≤◌, Some, None, MatchOption, ◌≢◌};
ghost use Rattle.calls.specs.declared.call.Call.{Call as Calls};
ghost use Rattle.words.specs.Format.{by_id_level, by_id_sub, first_word, length_in, look_sub, transfer_length, transfer_word, word_with};
ghost use Rattle.words.specs.Heads.{bare, by_id_call, high_of, likely_of, look_call, low_of, middle_of, own_call, sub_of, transfer_call, word_bytes};

use crate::kind::Kind;
use crate::text::{LONGEST_TEXT, text_length};
use crate::word::{high, kind, low, middle, number, sub_kind, word, word_with};
use calls::{ByIdCall, Call, LookedAt, Transfer};

// The length of a call's text or read.
pub(crate) fn length_in(call: Call<usize>) -> usize
    ensures { result ≡ length_in call }
{
    match call {
        Call::Transfer {
            transfer: Transfer::Read { length },
            ..
        } => length,
        _ => text_length(call),
    }
}

fn by_id_word(id: u8, call: ByIdCall) -> u32
    ensures { word_bytes result ≡ first_word (Calls.ById id call) }
{
    match call {
        ByIdCall::Kill => word(Kind::ById, 0, 0, id, 0),
        ByIdCall::Ready => word(Kind::ById, 1, 0, id, 0),
        ByIdCall::Suspend => word(Kind::ById, 2, 0, id, 0),
        ByIdCall::SetLevel { level } => word(Kind::ById, 3, 0, id, level),
        ByIdCall::Status => word(Kind::ById, 4, 0, id, 0),
    }
}

fn look_word(at: LookedAt) -> u32
    ensures { word_bytes result ≡ first_word (Calls.Look at) }
{
    word(Kind::Look, at as u8, 0, 0, 0)
}

fn transfer_word(unit: u8, transfer: Transfer<usize>) -> u32
    requires { transfer_length transfer ≤ LONGEST_TEXT }
    ensures { word_bytes result ≡ transfer_word unit transfer }
{
    match transfer {
        Transfer::Write { text } => word(Kind::Transfer, 0, unit, 0, text as u8),
        Transfer::WriteLine { text } => word(Kind::Transfer, 1, unit, 0, text as u8),
        Transfer::Read { length } => word(Kind::Transfer, 2, unit, 0, length as u8),
        Transfer::ReadLine => word(Kind::Transfer, 3, unit, 0, 0),
    }
}

// The first word of a call.
pub(crate) fn first_word(call: Call<usize>) -> u32
    requires { length_in call ≤ LONGEST_TEXT }
    ensures { word_bytes result ≡ first_word call }
{
    match call {
        Call::Create { id, level, .. } => word(Kind::Create, 0, id, level, 0),
        Call::Kill => word(Kind::Own, 0, 0, 0, 0),
        Call::Suspend => word(Kind::Own, 1, 0, 0, 0),
        Call::SetLevel { level } => word(Kind::Own, 2, 0, 0, level),
        Call::ById { id, call } => by_id_word(id, call),
        Call::Send {
            cell,
            message,
            stay,
        } => word_with(Kind::Send, u8::from(stay), cell, message),
        Call::Wait { cell } => word(Kind::Wait, 0, cell, 0, 0),
        Call::Delay { ticks } => word_with(Kind::Delay, 0, 0, ticks),
        Call::Transfer { unit, transfer } => transfer_word(unit, transfer),
        Call::Look { at } => look_word(at),
        Call::Tick => word(Kind::Tick, 0, 0, 0, 0),
        Call::Service { unit } => word(Kind::Service, 0, unit, 0, 0),
    }
}

fn own_call(word: u32) -> Option<Call<usize>>
    ensures { result ≡ own_call (sub_of word) (low_of word) }
{
    match sub_kind(word) {
        0 => Some(Call::Kill),
        1 => Some(Call::Suspend),
        2 => Some(Call::SetLevel { level: low(word) }),
        _ => None,
    }
}

fn by_id_call(word: u32) -> Option<Call<usize>>
    ensures { result ≡ by_id_call (sub_of word) (middle_of word) (low_of word) }
{
    let call = match sub_kind(word) {
        0 => ByIdCall::Kill,
        1 => ByIdCall::Ready,
        2 => ByIdCall::Suspend,
        3 => ByIdCall::SetLevel { level: low(word) },
        4 => ByIdCall::Status,
        _ => return None,
    };
    Some(Call::ById {
        id: middle(word),
        call,
    })
}

fn transfer_call(word: u32) -> Option<Call<usize>>
    ensures { result ≡ transfer_call (sub_of word) (high_of word) (low_of word) }
{
    let transfer = match sub_kind(word) {
        0 => Transfer::Write {
            text: usize::from(low(word)),
        },
        1 => Transfer::WriteLine {
            text: usize::from(low(word)),
        },
        2 => Transfer::Read {
            length: usize::from(low(word)),
        },
        3 => Transfer::ReadLine,
        _ => return None,
    };
    Some(Call::Transfer {
        unit: high(word),
        transfer,
    })
}

fn look_call(word: u32) -> Option<Call<usize>>
    ensures { result ≡ look_call (sub_of word) }
{
    let at = match sub_kind(word) {
        0 => LookedAt::Message,
        1 => LookedAt::Start,
        2 => LookedAt::Outcome,
        _ => return None,
    };
    Some(Call::Look { at })
}

// The only call whose first word this can be, by its kind and sub-kind.
fn likely_call(word: u32) -> Option<Call<usize>>
    ensures { result ≡ likely_of word }
{
    match kind(word)? {
        Kind::Create => Some(Call::Create {
            id: high(word),
            level: middle(word),
            start: 0,
            message: 0,
        }),
        Kind::Own => own_call(word),
        Kind::ById => by_id_call(word),
        Kind::Send => Some(Call::Send {
            cell: high(word),
            message: number(word),
            stay: sub_kind(word) == 1,
        }),
        Kind::Wait => Some(Call::Wait { cell: high(word) }),
        Kind::Delay => Some(Call::Delay {
            ticks: number(word),
        }),
        Kind::Transfer => transfer_call(word),
        Kind::Service => Some(Call::Service { unit: high(word) }),
        Kind::Tick => Some(Call::Tick),
        Kind::Look => look_call(word),
        Kind::Data | Kind::Granted | Kind::Refused => None,
    }
}

// The call that has this first word, with no start and message yet. A word that differs from it in any bit has none.
pub(crate) fn call_of(word: u32) -> Option<Call<usize>>
    ensures { MatchOption result ((c : Calls ℕ) → first_word c ≢ word_bytes word) (λ c. (first_word c ≡ word_bytes word) × (length_in c ≤ LONGEST_TEXT) × (c ≡ bare c)) }
{
    let call = likely_call(word)?;
    (first_word(call) == word).then_some(call)
}
