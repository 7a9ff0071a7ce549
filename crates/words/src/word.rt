// One word: 32 bits, stored as four bytes, the highest first. Bits 31 to 28 are its kind, 27 to 24 its sub-kind.

ghost use Rattle.std.specs.Prelude.{◌≡◌, ℕ, ◌+◌, ◌-◌, ◌*◌, ◌/◌, ◌%◌, ◌<◌, ◌≤◌, ◌++◌, length, MatchOption};
ghost use Rattle.words.specs.Format.{word, word_with};
ghost use Rattle.words.specs.Heads.{high_of, kind_of, low_of, middle_of, sub_of, word_bytes};
ghost use Rattle.words.specs.Kinds.{kind_number};

use crate::kind::Kind;

// The first word and the rest.
pub(crate) fn take_word(bytes: &[u8]) -> Option<(u32, &[u8])>
    ensures { MatchOption result (length bytes.now < 4) (λ p. bytes.now ≡ word_bytes p.0 ++ p.1.now) }
{
    match bytes {
        [a, b, c, d, rest @ ..] => Some((u32::from_be_bytes([*a, *b, *c, *d]), rest)),
        _ => None,
    }
}

// The word that has these parts.
pub(crate) fn word(kind: Kind, sub: u8, high: u8, middle: u8, low: u8) -> u32
    requires { sub < 16 }
    ensures { word_bytes result ≡ word (kind_number kind) sub high middle low }
{
    u32::from_be_bytes([u8::from(kind) * 16 + sub, high, middle, low])
}

// The word that has a number of 16 bits in bits 15 to 0.
pub(crate) fn word_with(kind: Kind, sub: u8, high: u8, number: u16) -> u32
    requires { sub < 16 }
    ensures { word_bytes result ≡ word_with (kind_number kind) sub high number }
{
    let [middle, low] = number.to_be_bytes();
    word(kind, sub, high, middle, low)
}

// The kind of a word, if it has one. A `TryFrom` of its number would want an error that nobody reads.
pub(crate) fn kind(word: u32) -> Option<Kind>
    ensures { result ≡ kind_of word }
{
    Some(match word >> 28 {
        0 => Kind::Data,
        1 => Kind::Create,
        2 => Kind::Own,
        3 => Kind::ById,
        5 => Kind::Send,
        6 => Kind::Wait,
        7 => Kind::Delay,
        8 => Kind::Transfer,
        9 => Kind::Service,
        10 => Kind::Tick,
        11 => Kind::Look,
        12 => Kind::Granted,
        13 => Kind::Refused,
        _ => return None,
    })
}

pub(crate) fn sub_kind(word: u32) -> u8
    ensures { result ≡ sub_of word }
{
    word.to_be_bytes()[0] % 16
}

// Bits 23 to 16.
pub(crate) fn high(word: u32) -> u8
    ensures { result ≡ high_of word }
{
    word.to_be_bytes()[1]
}

// Bits 15 to 8.
pub(crate) fn middle(word: u32) -> u8
    ensures { result ≡ middle_of word }
{
    word.to_be_bytes()[2]
}

// Bits 7 to 0.
pub(crate) fn low(word: u32) -> u8
    ensures { result ≡ low_of word }
{
    word.to_be_bytes()[3]
}

// Bits 15 to 0.
pub(crate) fn number(word: u32) -> u16
    ensures { result ≡ middle_of word * 256 + low_of word }
{
    u16::from_be_bytes([middle(word), low(word)])
}
