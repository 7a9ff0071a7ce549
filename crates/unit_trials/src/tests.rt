// Each expected value is reckoned from the rules by hand.

use needles::NeedleBank;
use std::alloc::{AllocError, Global};
use std::test::Fail;
use tape::{Console, Punch, Reader};
use unit::{TransferFault, Unit, UnitFault, copy};

// A tape of `size` bytes: zeros, and 7 at `mark`.
fn marked(heap: Global, size: usize, mark: usize) -> Result<Vec<u8>, AllocError> {
    let mut bytes = Vec::with_capacity(heap, size)?;
    for i in 0..size {
        let byte = if i == mark { 7 } else { 0 };
        bytes.push(byte)?;
    }
    Ok(bytes)
}

// Hands the unit 1, 2, 3 and so on, `size` bytes in all; tells how many were taken.
fn count_up<U: Unit>(unit: &mut U, size: u16) -> u16 {
    for i in 0..size {
        if unit.take(((i + 1) % 256) as u8).is_err() {
            return i;
        }
    }
    size
}

#[test]
fn tape_of_none(rt: HostRuntime) {
    let mut reader = Reader::new(Vec::new(rt.alloc()));
    assert_eq!(rt; reader.give(), Err(UnitFault::End));
    assert_eq!(rt; reader.given().len(), 0);
}

#[test]
fn tape_of_one(rt: HostRuntime) -> Result<(), Fail> {
    let mut reader = Reader::new(marked(rt.alloc(), 1, 0)?);
    assert_eq!(rt; reader.take(1), Err(UnitFault::Full));
    assert_eq!(rt; reader.give(), Ok(7));
    assert_eq!(rt; reader.give(), Err(UnitFault::End));
    assert_eq!(rt; reader.given(), [7].as_slice());
    Ok(())
}

#[test]
fn tape_too_long(rt: HostRuntime) -> Result<(), Fail> {
    let mut reader = Reader::new(marked(rt.alloc(), 65_537, 65_535)?);
    for _ in 0..65_535 {
        assert_eq!(rt; reader.give(), Ok(0));
    }
    assert_eq!(rt; reader.give(), Ok(7));
    assert_eq!(rt; reader.give(), Err(UnitFault::End));
    assert_eq!(rt; reader.given().len(), 65_536);
    Ok(())
}

#[test]
fn punch_filled(rt: HostRuntime) {
    let mut punch = Punch::new();
    assert_eq!(rt; count_up(&mut punch, 4_095), 4_095);
    assert_eq!(rt; punch.take(9), Ok(()));
    assert_eq!(rt; punch.take(1), Err(UnitFault::Full));
    assert_eq!(rt; punch.give(), Err(UnitFault::End));
    let tape = punch.taken();
    assert!(rt; tape.len() == 4_096);
    assert_eq!(rt; &tape[..3], [1, 2, 3].as_slice());
    assert_eq!(rt; &tape[4_093..], [254, 255, 9].as_slice());
}

#[test]
fn rows_of_the_bank(rt: HostRuntime) {
    let mut bank = NeedleBank::new();
    assert_eq!(rt; &bank.rows()[..2], [0, 0].as_slice());
    assert_eq!(rt; count_up(&mut bank, 1), 1);
    assert_eq!(rt; &bank.rows()[..2], [0x0100_0000_0000_0000, 0].as_slice());
    assert_eq!(rt; bank.count(), 1);
}

#[test]
fn rows_of_eight_and_nine(rt: HostRuntime) {
    let mut bank = NeedleBank::new();
    assert_eq!(rt; count_up(&mut bank, 8), 8);
    assert_eq!(rt; &bank.rows()[..2], [0x0102_0304_0506_0708, 0].as_slice());
    assert_eq!(rt; bank.take(0xAB), Ok(()));
    assert_eq!(rt;
        &bank.rows()[..2],
        [0x0102_0304_0506_0708, 0xAB00_0000_0000_0000].as_slice()
    );
    assert_eq!(rt; bank.taken_at(8), Some(0xAB));
    assert_eq!(rt; bank.taken_at(9), None);
}

#[test]
fn rows_of_a_full_bank(rt: HostRuntime) {
    let mut bank = NeedleBank::new();
    assert_eq!(rt; count_up(&mut bank, 4_097), 4_096);
    assert_eq!(rt; bank.take(1), Err(UnitFault::Full));
    let rows = bank.rows();
    assert_eq!(rt; rows.len(), 512);
    assert_eq!(rt;
        &rows[..2],
        [0x0102_0304_0506_0708, 0x090A_0B0C_0D0E_0F10].as_slice()
    );
    assert_eq!(rt; &rows[511..], [0xF9FA_FBFC_FDFE_FF00].as_slice());
}

#[test]
fn console_both_ways(rt: HostRuntime) -> Result<(), Fail> {
    let mut console = Console::new(marked(rt.alloc(), 2, 1)?);
    assert_eq!(rt; console.give(), Ok(0));
    assert_eq!(rt; console.take(65), Ok(()));
    assert_eq!(rt; console.give(), Ok(7));
    assert_eq!(rt; console.give(), Err(UnitFault::End));
    assert_eq!(rt; console.given(), [0, 7].as_slice());
    assert_eq!(rt; console.taken(), [65].as_slice());
    Ok(())
}

#[test]
fn device_codes(rt: HostRuntime) {
    assert_eq!(rt; Console::CODE, 0o11);
    assert_eq!(rt; Reader::CODE, 0o12);
    assert_eq!(rt; Punch::CODE, 0o13);
    assert_eq!(rt; NeedleBank::CODE, 0o40);
}

#[test]
fn copy_to_the_end(rt: HostRuntime) -> Result<(), Fail> {
    let mut reader = Reader::new(marked(rt.alloc(), 3, 2)?);
    let mut punch = Punch::new();
    assert_eq!(rt; copy(&mut reader, &mut punch), None);
    assert_eq!(rt; reader.given(), [0, 0, 7].as_slice());
    assert_eq!(rt; punch.taken(), [0, 0, 7].as_slice());
    Ok(())
}

#[test]
fn copy_until_full(rt: HostRuntime) -> Result<(), Fail> {
    let mut reader = Reader::new(marked(rt.alloc(), 5_000, 4_096)?);
    let mut bank = NeedleBank::new();
    assert_eq!(rt; copy(&mut reader, &mut bank), Some(7));
    assert_eq!(rt; reader.given().len(), 4_097);
    assert_eq!(rt; bank.count(), 4_096);
    Ok(())
}

#[test]
fn faults_keep_their_cause(rt: HostRuntime) {
    assert_eq!(rt; u8::from(UnitFault::Full), 2);
    assert_eq!(rt; u8::from(UnitFault::End), 3);
    let fault = TransferFault::from(UnitFault::End);
    assert_eq!(rt;
        fault,
        TransferFault {
            fault: UnitFault::End,
            moved: 0,
        }
    );
    assert_eq!(rt;
        fault.after(80),
        TransferFault {
            fault: UnitFault::End,
            moved: 80,
        }
    );
}
