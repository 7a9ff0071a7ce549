// Calls in readable text: the name and the arguments.

use crate::{ByIdCall, Call, LookedAt, Transfer};
use std::fmt;

// Writes a text in quotes: what can be printed as it is, other bytes as two hexadecimal digits.
fn write_quoted<W: fmt::Write>(f: &mut fmt::Formatter<W>, text: &[u8]) -> fmt::Result {
    f.write_str("\"")?;
    for byte in text {
        match *byte {
            b' '..=b'!' | b'#'..=b'[' | b']'..=b'~' => f.write_char(char::from(*byte))?,
            other => write!(f, "\\x{other:02X}")?,
        }
    }
    f.write_str("\"")
}

impl fmt::Display for ByIdCall {
    fn fmt<W: fmt::Write>(&self, f: &mut fmt::Formatter<W>) -> fmt::Result {
        match self {
            ByIdCall::Kill => f.write_str("kill"),
            ByIdCall::Ready => f.write_str("ready"),
            ByIdCall::Suspend => f.write_str("suspend"),
            ByIdCall::SetLevel { level } => write!(f, "set-level level={level}"),
            ByIdCall::Status => f.write_str("status"),
        }
    }
}

impl fmt::Display for LookedAt {
    fn fmt<W: fmt::Write>(&self, f: &mut fmt::Formatter<W>) -> fmt::Result {
        f.write_str(match self {
            LookedAt::Message => "message",
            LookedAt::Start => "start",
            LookedAt::Outcome => "outcome",
        })
    }
}

impl fmt::Display for Transfer<&[u8]> {
    fn fmt<W: fmt::Write>(&self, f: &mut fmt::Formatter<W>) -> fmt::Result {
        match self {
            Transfer::Write { text } => {
                f.write_str("write text=")?;
                write_quoted(f, text)
            }
            Transfer::WriteLine { text } => {
                f.write_str("write-line text=")?;
                write_quoted(f, text)
            }
            Transfer::Read { length } => write!(f, "read length={length}"),
            Transfer::ReadLine => f.write_str("read-line"),
        }
    }
}

impl fmt::Display for Call<&[u8]> {
    fn fmt<W: fmt::Write>(&self, f: &mut fmt::Formatter<W>) -> fmt::Result {
        match self {
            Call::Create {
                id,
                level,
                start,
                message,
            } => {
                write!(
                    f,
                    "create id={id} level={level} start={start} message={message}"
                )
            }
            Call::Kill => f.write_str("kill"),
            Call::Suspend => f.write_str("suspend"),
            Call::SetLevel { level } => write!(f, "set-level level={level}"),
            Call::ById { id, call } => write!(f, "by-id id={id} {call}"),
            Call::Send {
                cell,
                message,
                stay,
            } => write!(f, "send cell={cell} message={message} stay={stay}"),
            Call::Wait { cell } => write!(f, "wait cell={cell}"),
            Call::Delay { ticks } => write!(f, "delay ticks={ticks}"),
            Call::Transfer { unit, transfer } => write!(f, "transfer unit={unit} {transfer}"),
            Call::Look { at } => write!(f, "look {at}"),
            Call::Tick => f.write_str("tick"),
            Call::Service { unit } => write!(f, "service unit={unit}"),
        }
    }
}
