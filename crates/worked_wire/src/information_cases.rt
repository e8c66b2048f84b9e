// "Version Information": what is written and read.
use crate::show::{received, wrote};
use information::{Sender, write_information};
use std::io;

pub(crate) fn all(rt: &impl Print) -> io::Result<()> {
    written(rt)?;
    read(rt)
}

// The buffer has two bytes more than the information. They keep their values.
fn written(rt: &impl Print) -> io::Result<()> {
    let mut buffer = [0xeeu8; 14];
    wrote(
        rt,
        "information to send as a client, Chosen 3, Available 3, 4: ",
        write_information(Sender::Client, 3, &[3, 4], &mut buffer),
        &buffer,
    )?;
    let mut short = [0xeeu8; 6];
    wrote(
        rt,
        "information to send as a server, Chosen 3, Available empty: ",
        write_information(Sender::Server, 3, &[], &mut short),
        &short,
    )
}

fn read(rt: &impl Print) -> io::Result<()> {
    received(
        rt,
        "information from a client, Chosen 3, Available 3, 4: ",
        Sender::Client,
        b"\0\0\0\x03\0\0\0\x03\0\0\0\x04",
    )?;
    received(
        rt,
        "information from a server, Chosen 3, Available 4: ",
        Sender::Server,
        b"\0\0\0\x03\0\0\0\x04",
    )?;
    received(
        rt,
        "information from a server, Chosen 3, Available empty: ",
        Sender::Server,
        b"\0\0\0\x03",
    )?;
    received(
        rt,
        "information from a client, Chosen and Available 0x1a2a3a4a (reserved): ",
        Sender::Client,
        b"\x1a\x2a\x3a\x4a\x1a\x2a\x3a\x4a",
    )
}
