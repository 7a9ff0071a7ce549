// Texts and their lines.

ghost use Rattle.std.specs.Prelude.{◌≡◌, ◌<◌, ◌≤◌, length, position, if◌then◌else◌, IfSome, Some, None};
ghost use Rattle.rules.specs.Transfers.{has_line_end, line, line_end};

use buffer::Buffer;
use tasks::MOST_BYTES;

// Whether a byte ends a line.
pub fn is_line_end(byte: u8) -> bool
    ensures { result ≡ line_end byte }
{
    byte == 0 || byte == 12 || byte == 13
}

// The place of a text's first line end, if it has one.
fn first_line_end(text: &[u8]) -> Option<usize>
    ensures first { result ≡ position line_end text.now }
    ensures within { IfSome result (λ end. end < length text.now) }
{
    text.iter().position(|byte| is_line_end(*byte))
}

// The bytes of a text up to its first line end, included; none where no byte ends a line.
pub fn by_line(text: &[u8]) -> Option<Buffer<MOST_BYTES>>
    requires { length text.now ≤ MOST_BYTES }
    ensures { result ≡ (if has_line_end text.now then Some (line text.now) else None) }
{
    let end = first_line_end(text)?;
    Some(Buffer::of(&text[..=end]))
}
