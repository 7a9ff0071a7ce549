// Input files: a program uses the first 65,536 bytes of each.
#![tactic(auto)]

ghost use Rattle.std.specs.Prelude.{◌≤◌, IfOk, vec_len};

use std::alloc::AllocGlobal;
use std::fs::{self, Files};
use std::io::{self, Read};

// How much of a file is used.
pub const LONGEST_FILE: usize = 65_536;

// The first bytes of a file in the current folder; what cannot be read is told on standard error.
pub fn read_front(rt: &(impl Files + Eprint + AllocGlobal), name: &str) -> io::Result<Vec<u8>>
    ensures { IfOk result (λ bytes. vec_len bytes ≤ 65536) }
{
    let bytes = front(rt, name);
    if let Err(error) = &bytes {
        eprintln!(rt; "cannot read {name}: {error}")?;
    }
    bytes
}

fn front(rt: &(impl Files + AllocGlobal), name: &str) -> io::Result<Vec<u8>>
    ensures { IfOk result (λ bytes. vec_len bytes ≤ 65536) }
{
    let file = fs::open(rt, name)?;
    let mut bytes = Vec::new(rt.alloc());
    file.take(LONGEST_FILE as u64).read_to_end(&mut bytes)?;
    bytes.truncate(LONGEST_FILE);
    Ok(bytes)
}
