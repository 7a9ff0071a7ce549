// The text lines of a run's report.
#![tactic(auto)]

ghost use Rattle.std.specs.Prelude.{◌≡◌, ℕ, ◌+◌, ◌<◌, IfOk, string_bytes};
ghost use Rattle.calls.specs.Numbers.{stop_number};
ghost use Rattle.report.specs.Lines.{end_text, hex_byte, hex_digit, word_line};

use calls::Stop;
use std::alloc::{AllocError, Global};

// The character of a digit: 0 to 9, then A to F.
fn hex_digit(digit: u8) -> u8
    requires { digit < 16 }
    ensures { result ≡ hex_digit digit }
{
    match digit {
        0..=9 => b'0' + digit,
        _ => b'A' + (digit - 10),
    }
}

// The two digits of a byte.
fn hex_byte(byte: u8) -> [u8; 2]
    ensures { result ≡ hex_byte byte }
{
    [hex_digit(byte / 16), hex_digit(byte % 16)]
}

// A word's line: eight capital hexadecimal digits and byte 10. It takes no heap, so it cannot fail as `format!` can.
pub fn word_line(word: u32) -> [u8; 9]
    ensures { result ≡ word_line word }
{
    let [[a, b], [c, d], [e, f], [g, h]] = word.to_be_bytes().map(hex_byte);
    [a, b, c, d, e, f, g, h, b'\n']
}

// A run's last line: `end`, the calls done and the stop's number.
pub fn end_line(heap: Global, calls: usize, stop: Stop) -> Result<String, AllocError>
    ensures { IfOk result (λ line. string_bytes line ≡ end_text calls (stop_number stop)) }
{
    let number = stop.number();
    format!(in heap; "end {calls} {number}\n")
}
