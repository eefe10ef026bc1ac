// What the program prints of an answer.
use planner::Refusal;
use std::io::{self, Write};
use streams::print_number;

// Why a call refuses.
pub fn refused(out: &mut impl Write, refusal: Refusal) -> io::Result<()> {
    print_number(out, b" refused ", u64::from(refusal.number()))
}

// A check's answer.
pub fn checked(out: &mut impl Write, given: Result<(), Refusal>) -> io::Result<()> {
    match given {
        Ok(()) => out.write_all(b" accepted"),
        Err(refusal) => refused(out, refusal),
    }
}

// An answer with a total.
pub fn answer(out: &mut impl Write, given: Result<u32, Refusal>) -> io::Result<()> {
    match given {
        Ok(total) => print_number(out, b" total ", u64::from(total)),
        Err(refusal) => refused(out, refusal),
    }
}

// The bytes of a list.
pub fn list(out: &mut impl Write, bytes: &[u8]) -> io::Result<()> {
    for byte in bytes {
        print_number(out, b" ", u64::from(*byte))?;
    }
    Ok(())
}

// A buffer after a call.
pub fn buffer(out: &mut impl Write, word: &[u8], bytes: &[u8]) -> io::Result<()> {
    out.write_all(word)?;
    list(out, bytes)
}
