// "What a datagram may hold": a header of each form, and the longest Version Negotiation packet.
use crate::show::{header, header_of};
use std::io;

pub(crate) fn all(rt: &impl Print) -> io::Result<()> {
    header_of(rt, b"\xc0\0\0\0\x0c\x02\xaa\xbb\x01\xcc\xff", 0)?;
    header_of(rt, b"\x80\0\0\0\x01\0\0", 0)?;
    header_of(rt, b"\x40\xaa\xbb\xff", 2)?;
    header_of(rt, b"\x80\0\0\0\0\x01\xcc\x02\xaa\xbb\0\0\0\x0e", 0)?;
    longest(rt)
}

fn longest(rt: &impl Print) -> io::Result<()> {
    let mut datagram = [0u8; 65535];
    datagram[0] = 0x80;
    header(
        rt,
        "header of 65535 bytes, version 0, 16382 entries: ",
        &datagram,
        0,
    )
}
