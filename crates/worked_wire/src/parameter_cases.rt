// Document 02, C-11: a sequence of transport parameters, read and written, and 80, 81, 82, 84, 85.
use crate::show::{carried, wrote};
use parameters::{MAX_PARAMETERS, MAX_SEQUENCE};
use parameters_writer::write_parameters;
use std::io;

// One more than a sequence may have, of three bytes each.
const MANY: usize = MAX_PARAMETERS + 1;

const MANY_BYTES: usize = 3 * MANY;
// The bytes of as many as it may have.
const MOST_BYTES: usize = 3 * MAX_PARAMETERS;

pub(crate) fn all(rt: &impl Print) -> io::Result<()> {
    read(rt)?;
    read_refused(rt)?;
    written(rt)?;
    write_refused(rt)
}

// Identifier 1 with value aa, ours with value bb cc, identifier 5 with value dd, which is not in the shortest form.
fn read(rt: &impl Print) -> io::Result<()> {
    carried(rt, "parameters in no bytes: ", b"")?;
    carried(
        rt,
        "parameters in 01 01 aa 11 02 bb cc 40 05 40 01 dd: ",
        b"\x01\x01\xaa\x11\x02\xbb\xcc\x40\x05\x40\x01\xdd",
    )?;
    carried(rt, "parameters in 01 01 aa: ", b"\x01\x01\xaa")?;
    carried(rt, "parameters in 40 11 00: ", b"\x40\x11\0")?;
    let mut longest = [0u8; MAX_SEQUENCE];
    longest[..5].copy_from_slice(b"\x01\x80\0\x3f\xfb");
    carried(rt, "parameters in 16384 bytes, one of them: ", &longest)?;
    let many = distinct();
    carried(rt, "64 parameters: ", most(&many))
}

fn read_refused(rt: &impl Print) -> io::Result<()> {
    let long = [0u8; MAX_SEQUENCE + 1];
    carried(rt, "parameters in 16385 bytes: ", &long)?;
    carried(rt, "parameters in 01 02 aa: ", b"\x01\x02\xaa")?;
    carried(
        rt,
        "parameters in 01 00 01 00 02, a repeat and a cut tail: ",
        b"\x01\0\x01\0\x02",
    )?;
    carried(rt, "parameters in 05 00 40 05 00: ", b"\x05\0\x40\x05\0")?;
    let mut many = distinct();
    carried(rt, "65 parameters: ", &many)?;
    many[1] = many[MANY_BYTES - 2];
    carried(rt, "65 parameters, the first as the last: ", &many)
}

// The buffer has bytes more than the sequence. They keep their values.
fn written(rt: &impl Print) -> io::Result<()> {
    let mut buffer = [0xeeu8; 12];
    wrote(
        rt,
        "01 01 aa 11 02 bb cc 40 05 40 01 dd with value ff: ",
        write_parameters(
            b"\x01\x01\xaa\x11\x02\xbb\xcc\x40\x05\x40\x01\xdd",
            b"\xff",
            &mut buffer,
        ),
        &buffer,
    )?;
    let mut short = [0xeeu8; 6];
    wrote(
        rt,
        "40 05 00 with value ff: ",
        write_parameters(b"\x40\x05\0", b"\xff", &mut short),
        &short,
    )?;
    let mut shorter = [0xeeu8; 3];
    wrote(
        rt,
        "no parameters with an empty value: ",
        write_parameters(b"", b"", &mut shorter),
        &shorter,
    )
}

fn write_refused(rt: &impl Print) -> io::Result<()> {
    let mut buffer = [0xeeu8; 4];
    let long = [0u8; MAX_SEQUENCE];
    wrote(
        rt,
        "no parameters with a value of 16384 bytes: ",
        write_parameters(b"", &long, &mut buffer),
        &buffer,
    )?;
    wrote(
        rt,
        "01 02 aa with value ff: ",
        write_parameters(b"\x01\x02\xaa", b"\xff", &mut buffer),
        &buffer,
    )?;
    wrote(
        rt,
        "05 00 05 00 with value ff: ",
        write_parameters(b"\x05\0\x05\0", b"\xff", &mut buffer),
        &buffer,
    )?;
    wrote(
        rt,
        "40 05 00 with value ff for a buffer of 4: ",
        write_parameters(b"\x40\x05\0", b"\xff", &mut buffer),
        &buffer,
    )?;
    let many = distinct();
    wrote(
        rt,
        "65 parameters with value ff: ",
        write_parameters(&many, b"\xff", &mut buffer),
        &buffer,
    )?;
    wrote(
        rt,
        "64 parameters, none ours, with value ff for a buffer of 4: ",
        write_parameters(most(&many), b"\xff", &mut buffer),
        &buffer,
    )?;
    let mut room = [0xeeu8; MANY_BYTES];
    wrote(
        rt,
        "64 parameters, none ours, with value ff: ",
        write_parameters(most(&many), b"\xff", &mut room),
        &room,
    )
}

// Parameters with the identifiers from 64 on and no value, one more than a sequence may have.
fn distinct() -> [u8; MANY_BYTES] {
    let mut bytes = [0u8; MANY_BYTES];
    for k in 0..MANY {
        bytes[3 * k] = 0x40;
        // (`as`: Rust has no From between these widths; that the value fits is proved.)
        bytes[3 * k + 1] = 64 + k as u8;
    }
    bytes
}

// As many of them as a sequence may have.
fn most(many: &[u8]) -> &[u8] {
    many.get(..MOST_BYTES).unwrap_or(many)
}
