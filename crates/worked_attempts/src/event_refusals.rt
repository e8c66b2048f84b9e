// "When the desk says no", 61 to 75: events. Our destination connection ID is aa bb, our source connection ID cc.
use crate::records;
use crate::show_client::{datagram, missing, outcome};
use std::io;

pub(crate) fn all(rt: &impl Print) -> io::Result<()> {
    of_datagrams(rt)?;
    of_lists(rt)?;
    of_chosen_versions(rt)?;
    of_available_versions(rt)
}

fn of_datagrams(rt: &impl Print) -> io::Result<()> {
    datagram(
        rt,
        "datagram of the long form, version 12: ",
        records::plain(),
        b"\xc0\0\0\0\x0c\x01\xcc\x02\xaa\xbb\xff",
    )?;
    datagram(
        rt,
        "packet 10, after a packet was processed: ",
        records::after_packet(records::plain()),
        b"\x80\0\0\0\0\x01\xcc\x02\xaa\xbb\0\0\0\x0a",
    )?;
    datagram(
        rt,
        "packet 10, connection IDs not swapped: ",
        records::plain(),
        b"\x80\0\0\0\0\x02\xaa\xbb\x01\xcc\0\0\0\x0a",
    )
}

fn of_lists(rt: &impl Print) -> io::Result<()> {
    datagram(
        rt,
        "Original 12, packet 10, 12: ",
        records::plain(),
        b"\x80\0\0\0\0\x01\xcc\x02\xaa\xbb\0\0\0\x0a\0\0\0\x0c",
    )?;
    datagram(
        rt,
        "table 14, 12, 10, packet 13, 9: ",
        records::plain(),
        b"\x80\0\0\0\0\x01\xcc\x02\xaa\xbb\0\0\0\x0d\0\0\0\x09",
    )
}

fn of_chosen_versions(rt: &impl Print) -> io::Result<()> {
    missing(
        rt,
        "acted with 14, information missing: ",
        records::acted_with_14(),
        14,
    )?;
    outcome(
        rt,
        "acted with 14, own list 14, Chosen and in use 10: ",
        records::acted_with_14(),
        10,
        b"\0\0\0\x0a\0\0\0\x0a",
    )?;
    outcome(
        rt,
        "attempted 12, Chosen 12, in use 14: ",
        records::plain(),
        14,
        b"\0\0\0\x0c\0\0\0\x0c",
    )
}

fn of_available_versions(rt: &impl Print) -> io::Result<()> {
    outcome(
        rt,
        "acted with 4, Chosen and in use 4, Available empty: ",
        records::acted_with_4(),
        4,
        b"\0\0\0\x04",
    )?;
    outcome(
        rt,
        "acted with 4, table 3, 4, 1, 2, Chosen and in use 4, Available 4, 3: ",
        records::acted_with_4(),
        4,
        b"\0\0\0\x04\0\0\0\x04\0\0\0\x03",
    )
}
