// The calls: everything that a host can hand to the monitor. `T` is how the text of a write is held: a slice in code,
// a list of bytes in the definitions.

ghost use Rattle.calls.specs.Calls.{call_text, call_with, kind_of, MapsText, transfer_text, transfer_with};
ghost use Rattle.std.specs.Prelude.{◌≡◌, IfSome, option_copied};

#[derive(Clone, Copy, PartialEq, Eq, Debug)]
pub enum Call<T> {
    // Makes a task; level 0 stands for the caller's level.
    Create {
        id: u8,
        level: u8,
        start: u16,
        message: u16,
    },
    Kill,
    Suspend,
    // Gives the caller a level; level 0 stands for 1.
    SetLevel {
        level: u8,
    },
    // A call on the task that has the id.
    ById {
        id: u8,
        call: ByIdCall,
    },
    // Sends a message to a cell; a caller who stays waits until it is taken.
    Send {
        cell: u8,
        message: u16,
        stay: bool,
    },
    // Takes a cell's message, or waits for one.
    Wait {
        cell: u8,
    },
    Delay {
        ticks: u16,
    },
    // Asks a unit to move bytes.
    Transfer {
        unit: u8,
        transfer: Transfer<T>,
    },
    // Tells a field of the caller's record.
    Look {
        at: LookedAt,
    },
    Tick,
    // Lets a unit move one byte.
    Service {
        unit: u8,
    },
}

#[derive(Clone, Copy, PartialEq, Eq, Debug)]
pub enum ByIdCall {
    Kill,
    Ready,
    Suspend,
    SetLevel { level: u8 },
    Status,
}

#[derive(Clone, Copy, PartialEq, Eq, Debug)]
pub enum Transfer<T> {
    Write { text: T },
    // Writes up to the first line end, included.
    WriteLine { text: T },
    Read { length: usize },
    // Reads up to a line end, included, or 80 bytes.
    ReadLine,
}

// Which transfer it was, without what it moves: a task's record keeps this of its latest one.
#[derive(Clone, Copy, PartialEq, Eq, Debug)]
pub enum TransferKind {
    Write,
    WriteLine,
    Read,
    ReadLine,
}

#[derive(Clone, Copy, PartialEq, Eq, Debug)]
pub enum LookedAt {
    Message,
    Start,
    Outcome,
}

impl<T: Drop> Transfer<T> {
    // The text that is written, if it is a write.
    pub fn text(&self) -> Option<&T>
        ensures { option_copied result ≡ transfer_text self.now }
    {
        match self {
            Transfer::Write { text } | Transfer::WriteLine { text } => Some(text),
            Transfer::Read { .. } | Transfer::ReadLine => None,
        }
    }

    // The same transfer with what `f` makes of its text, if it has one.
    pub fn map_text<U: Drop, F: FnOnce(T) -> U>(self, f: F) -> Transfer<U>
        requires { IfSome (transfer_text self) (F.pre f) }
        ensures { MapsText transfer_with (F.post f) (transfer_text self) self result }
    {
        match self {
            Transfer::Write { text } => Transfer::Write { text: f(text) },
            Transfer::WriteLine { text } => Transfer::WriteLine { text: f(text) },
            Transfer::Read { length } => Transfer::Read { length },
            Transfer::ReadLine => Transfer::ReadLine,
        }
    }

    // The same transfer with another text in the place of its own, if it has one.
    pub fn with_text<U: Drop>(self, text: U) -> Transfer<U>
        ensures { result ≡ transfer_with (λ _. text) self }
    {
        self.map_text(|_| text)
    }

    // Which transfer it is. That loses its text and length, so it is no conversion.
    pub fn kind(&self) -> TransferKind
        ensures { result ≡ kind_of self.now }
    {
        match self {
            Transfer::Write { .. } => TransferKind::Write,
            Transfer::WriteLine { .. } => TransferKind::WriteLine,
            Transfer::Read { .. } => TransferKind::Read,
            Transfer::ReadLine => TransferKind::ReadLine,
        }
    }
}

impl<T: Drop> Call<T> {
    // The text that is written, if it is a write.
    pub fn text(&self) -> Option<&T>
        ensures { option_copied result ≡ call_text self.now }
    {
        match self {
            Call::Transfer { transfer, .. } => transfer.text(),
            _ => None,
        }
    }

    // The same call with what `f` makes of its text, if it has one.
    pub fn map_text<U: Drop, F: FnOnce(T) -> U>(self, f: F) -> Call<U>
        requires { IfSome (call_text self) (F.pre f) }
        ensures { MapsText call_with (F.post f) (call_text self) self result }
    {
        match self {
            Call::Create {
                id,
                level,
                start,
                message,
            } => Call::Create {
                id,
                level,
                start,
                message,
            },
            Call::Kill => Call::Kill,
            Call::Suspend => Call::Suspend,
            Call::SetLevel { level } => Call::SetLevel { level },
            Call::ById { id, call } => Call::ById { id, call },
            Call::Send {
                cell,
                message,
                stay,
            } => Call::Send {
                cell,
                message,
                stay,
            },
            Call::Wait { cell } => Call::Wait { cell },
            Call::Delay { ticks } => Call::Delay { ticks },
            Call::Transfer { unit, transfer } => Call::Transfer {
                unit,
                transfer: transfer.map_text(f),
            },
            Call::Look { at } => Call::Look { at },
            Call::Tick => Call::Tick,
            Call::Service { unit } => Call::Service { unit },
        }
    }

    // The same call with another text in the place of its own, if it has one.
    pub fn with_text<U: Drop>(self, text: U) -> Call<U>
        ensures { result ≡ call_with (λ _. text) self }
    {
        self.map_text(|_| text)
    }
}
