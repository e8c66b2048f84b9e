// "When the desk says no", 11 to 37, with document 02's 20: the header reader, the packet writer, Version Information.
use crate::packet_cases::padded_case;
use crate::show::{header, received, wrote};
use information::{Sender, write_information};
use negotiation::{MIN_ANSWERED_DATAGRAM, write_version_negotiation};
use std::io;

pub(crate) fn all(rt: &impl Print) -> io::Result<()> {
    of_datagrams(rt)?;
    of_the_packet_to_answer(rt)?;
    of_the_packet_to_send(rt)?;
    of_the_length(rt)?;
    of_what_was_read(rt)?;
    of_the_room(rt)
}

fn of_datagrams(rt: &impl Print) -> io::Result<()> {
    let long = [0u8; 65536];
    header(rt, "header of 65536 bytes: ", &long, 0)?;
    header(rt, "header of no bytes: ", &[], 0)?;
    header(
        rt,
        "header of version 0 with no list: ",
        b"\x80\0\0\0\0\0\0",
        0,
    )
}

fn of_the_packet_to_answer(rt: &impl Print) -> io::Result<()> {
    let mut buffer = [0xeeu8; 4];
    let small = [0x40u8; MIN_ANSWERED_DATAGRAM - 1];
    wrote(
        rt,
        "packet for 1199 bytes: ",
        write_version_negotiation(&small, &[14], &[], 0, &mut buffer),
        &buffer,
    )?;
    let short = [0x40u8; MIN_ANSWERED_DATAGRAM];
    wrote(
        rt,
        "packet for a short form of 1200 bytes: ",
        write_version_negotiation(&short, &[14], &[], 0, &mut buffer),
        &buffer,
    )?;
    let mut negotiation = [0u8; MIN_ANSWERED_DATAGRAM];
    negotiation[0] = 0x80;
    wrote(
        rt,
        "packet for Version Negotiation of 1200 bytes: ",
        write_version_negotiation(&negotiation, &[14], &[], 0, &mut buffer),
        &buffer,
    )
}

// The datagram has version 12.
fn of_the_packet_to_send(rt: &impl Print) -> io::Result<()> {
    let datagram = padded_case();
    let mut buffer = [0xeeu8; 4];
    wrote(
        rt,
        "packet that offers 14, 14: ",
        write_version_negotiation(&datagram, &[14, 14], &[], 0, &mut buffer),
        &buffer,
    )?;
    wrote(
        rt,
        "packet for version 12 that offers 14, 12: ",
        write_version_negotiation(&datagram, &[14, 12], &[], 0, &mut buffer),
        &buffer,
    )?;
    wrote(
        rt,
        "packet with unused bits 128: ",
        write_version_negotiation(&datagram, &[14, 13, 10], &[], 128, &mut buffer),
        &buffer,
    )?;
    let mut short = [0xeeu8; 21];
    wrote(
        rt,
        "packet of 22 bytes for a buffer of 21: ",
        write_version_negotiation(&datagram, &[14, 13, 10], &[], 64, &mut short),
        &short,
    )
}

fn of_the_length(rt: &impl Print) -> io::Result<()> {
    received(rt, "information of 1 byte: ", Sender::Server, &[1])?;
    received(
        rt,
        "information of 6 bytes: ",
        Sender::Server,
        b"\0\0\0\x03\0\0",
    )?;
    let available = [3u32; 256];
    let mut buffer = [0xeeu8; 4];
    wrote(
        rt,
        "information to send with 256 entries: ",
        write_information(Sender::Server, 3, &available, &mut buffer),
        &buffer,
    )
}

fn of_what_was_read(rt: &impl Print) -> io::Result<()> {
    received(
        rt,
        "information from a server, Chosen 0, Available 3: ",
        Sender::Server,
        b"\0\0\0\0\0\0\0\x03",
    )?;
    received(
        rt,
        "information from a server, Chosen 3, Available 3, 0: ",
        Sender::Server,
        b"\0\0\0\x03\0\0\0\x03\0\0\0\0",
    )?;
    received(
        rt,
        "information from a client, Chosen 3, Available 4: ",
        Sender::Client,
        b"\0\0\0\x03\0\0\0\x04",
    )
}

fn of_the_room(rt: &impl Print) -> io::Result<()> {
    let mut buffer = [0xeeu8; 11];
    wrote(
        rt,
        "information to send of 12 bytes for a buffer of 11: ",
        write_information(Sender::Client, 3, &[3, 4], &mut buffer),
        &buffer,
    )
}
