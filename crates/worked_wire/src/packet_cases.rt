// "The packet the box sends back": the whole case, alone and as document 02 has it (C-13), and the longest packet.
use crate::show::{Written, wrote};
use invariants::MAX_CONNECTION_ID;
use lists::VERSION_BYTES;
use negotiation::{MIN_ANSWERED_DATAGRAM, write_version_negotiation};
use std::{array, io};
use versions::{MAX_RESERVED, MAX_TABLE};

// The bytes of the longest packet: two of the longest connection IDs, a full table offered, all reserved numbers.
const LONGEST: usize = 7 + 2 * MAX_CONNECTION_ID + VERSION_BYTES * (MAX_TABLE + MAX_RESERVED);
// One entry more than a table may have.
const ENTRIES: usize = MAX_TABLE + 1;

pub(crate) fn all(rt: &impl Print) -> io::Result<()> {
    whole_case(rt)?;
    longest(rt)
}

// The buffer has two bytes more than the packet. They keep their values.
fn whole_case(rt: &impl Print) -> io::Result<()> {
    let mut buffer = [0xeeu8; 24];
    wrote(
        rt,
        "packet for c0 00 00 00 0c 02 aa bb 01 cc ff alone, offered 14, 13, 10, bits 64: ",
        write_version_negotiation(
            b"\xc0\0\0\0\x0c\x02\xaa\xbb\x01\xcc\xff",
            &[14, 13, 10],
            &[],
            64,
            &mut buffer,
        ),
        &buffer,
    )?;
    let datagram = padded_case();
    wrote(
        rt,
        "packet for the same followed by zeros up to 1200 bytes: ",
        write_version_negotiation(&datagram, &[14, 13, 10], &[], 64, &mut buffer),
        &buffer,
    )
}

// The whole case, which has version 12, followed by zeros up to the fewest bytes that are answered.
pub(crate) fn padded_case() -> [u8; MIN_ANSWERED_DATAGRAM] {
    let mut datagram = [0u8; MIN_ANSWERED_DATAGRAM];
    datagram[..11].copy_from_slice(b"\xc0\0\0\0\x0c\x02\xaa\xbb\x01\xcc\xff");
    datagram
}

// Each byte of the datagram is 255, and so is the length of each connection ID. The buffer has no byte more than the
// longest packet.
fn longest(rt: &impl Print) -> io::Result<()> {
    let offered = counted();
    let most = offered.get(..MAX_TABLE).unwrap_or(&offered);
    count_only(
        rt,
        "packet for connection IDs of 255 bytes, a full table offered: ",
        most,
        &[],
    )?;
    count_only(
        rt,
        "packet for the same, with four reserved numbers: ",
        most,
        &[0x1a2a3a4a, 0x0a0a0a0a, 0xfafafafa, 0x5a6a7a8a],
    )?;
    count_only(
        rt,
        "packet for the same, a table with one entry more offered: ",
        &offered,
        &[],
    )
}

fn count_only(rt: &impl Print, label: &str, offered: &[u32], reserved: &[u32]) -> io::Result<()> {
    let datagram = [255u8; MIN_ANSWERED_DATAGRAM];
    let mut buffer = [0u8; LONGEST];
    println!(rt;
        "{label}{}",
        Written(write_version_negotiation(&datagram, offered, reserved, 127, &mut buffer))
    )
}

// The versions 1, 2, 3 and so on, one more than a table may have.
fn counted() -> [u32; ENTRIES] {
    // (`as`: Rust has no From between these widths; that the value fits is proved.)
    array::from_fn(|place| place as u32 + 1)
}
