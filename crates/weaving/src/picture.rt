// A woven row as a picture: a dot for each needle that knits, a blank for each that does not. A number prints as its digits, so a
// picture is a type of its own.

use std::fmt;

#[derive(Clone, Copy)]
pub struct Picture(pub u64);

impl fmt::Display for Picture {
    fn fmt<W: fmt::Write>(&self, f: &mut fmt::Formatter<W>) -> fmt::Result {
        for byte in self.0.to_be_bytes() {
            for place in (0..8u32).rev() {
                f.write_char(if byte >> place & 1 == 1 { '.' } else { ' ' })?;
            }
        }
        Ok(())
    }
}
