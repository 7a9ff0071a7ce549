// The kinds of words: what stands in bits 31 to 28.

ghost use Rattle.std.specs.Prelude.{◌≡◌, ◌<◌};
ghost use Rattle.words.specs.Kinds.{kind_number};

// A kind, with its number.
#[derive(Clone, Copy)]
pub(crate) enum Kind {
    // A part of a text, or the start address or the message of a create.
    Data = 0,
    Create = 1,
    // A call on the caller.
    Own = 2,
    ById = 3,
    Send = 5,
    Wait = 6,
    Delay = 7,
    Transfer = 8,
    Service = 9,
    Tick = 10,
    Look = 11,
    // The reply to a call that is granted.
    Granted = 12,
    // The reply to a call that is refused.
    Refused = 13,
}

impl From<Kind> for u8 {
    ghost from_gives = { λ kind n. (n ≡ kind_number kind) × (n < 16) };

    fn from(kind: Kind) -> u8 {
        kind as u8
    }
}
