// Document 02, C-11: variable-length integers, the borders of their widths, and 81, 83, 84.
use crate::show::{integer_in, wrote};
use integers::{MAX_INTEGER, write_integer};
use std::io;

pub(crate) fn all(rt: &impl Print) -> io::Result<()> {
    read(rt)?;
    shortest(rt)?;
    refused(rt)
}

fn read(rt: &impl Print) -> io::Result<()> {
    integer_in(rt, b"\x25")?;
    integer_in(rt, b"\x40\x25")?;
    integer_in(rt, b"\x7b\xbd")?;
    integer_in(rt, b"\x9d\x7f\x3e\x7d")?;
    integer_in(rt, b"\xc2\x19\x7c\x5e\xff\x14\xe8\x8c")?;
    integer_in(rt, b"\x25\xff")
}

// The buffer has bytes more than the integer. They keep their values.
fn shortest(rt: &impl Print) -> io::Result<()> {
    for value in [
        37,
        15293,
        63,
        64,
        16383,
        16384,
        1073741823,
        1073741824,
        MAX_INTEGER,
    ] {
        integer_to_write(rt, value, &mut [0xee; 9])?;
    }
    Ok(())
}

fn refused(rt: &impl Print) -> io::Result<()> {
    integer_in(rt, b"")?;
    integer_in(rt, b"\x7b")?;
    integer_to_write(rt, MAX_INTEGER + 1, &mut [0xee])?;
    integer_to_write(rt, 15293, &mut [0xee])
}

fn integer_to_write(rt: &impl Print, value: u64, buffer: &mut [u8]) -> io::Result<()> {
    print!(rt; "integer {value}")?;
    wrote(rt, " to write: ", write_integer(value, buffer), buffer)
}
