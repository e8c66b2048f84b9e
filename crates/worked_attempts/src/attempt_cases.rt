// "How a version is chosen": by the client.
use crate::records;
use crate::show_client::{begin, datagram, missing, outcome, own, processed};
use std::io;

pub(crate) fn all(rt: &impl Print) -> io::Result<()> {
    starts(rt)?;
    own_lists(rt)?;
    outcomes(rt)?;
    attempt_with_pairs(rt)
}

fn starts(rt: &impl Print) -> io::Result<()> {
    begin(
        rt,
        "start with table 14, 12, 10, Original 12, empty connection IDs: ",
        &[],
        &[],
        12,
        &[],
        &[],
    )?;
    let id = [7u8; 20];
    begin(
        rt,
        "start with two equal connection IDs of 20 bytes: ",
        &[],
        &[],
        12,
        &id,
        &id,
    )
}

fn own_lists(rt: &impl Print) -> io::Result<()> {
    own(
        rt,
        "own list for 12, table 14, 12, 10, no pairs:",
        records::plain(),
    )?;
    own(
        rt,
        "own list for 1, table 3, 4, 1, 2, pairs 1 to 2 and 3 to 4:",
        records::paired(),
    )?;
    own(
        rt,
        "own list for 3, table 3, 4, 1, 2, pairs 1 to 2 and 3 to 4:",
        records::acted_with_3(),
    )
}

// Attempts that never acted, and the stand-in for missing information of one that did.
fn outcomes(rt: &impl Print) -> io::Result<()> {
    processed(
        rt,
        "attempted 12, a packet was processed: ",
        records::plain(),
    )?;
    missing(
        rt,
        "attempted and in use 12, never acted, information missing: ",
        records::plain(),
        12,
    )?;
    processed(
        rt,
        "a packet was processed after that end: ",
        records::after_missing(records::plain(), 12),
    )?;
    outcome(
        rt,
        "attempted 12, outcome with information of 5 bytes: ",
        records::plain(),
        12,
        b"\0\0\0\x0c\0",
    )?;
    missing(
        rt,
        "acted with 1, information missing, in use 14: ",
        records::acted_with_1(),
        14,
    )
}

// Table 3, 4, 1, 2, pairs 1 to 2 and 3 to 4, Original 1.
fn attempt_with_pairs(rt: &impl Print) -> io::Result<()> {
    outcome(
        rt,
        "with pairs, attempted 1, never acted, Chosen and in use 2, Available empty: ",
        records::paired(),
        2,
        b"\0\0\0\x02",
    )?;
    datagram(
        rt,
        "with pairs, attempted 1, packet 4: ",
        records::paired(),
        b"\x80\0\0\0\0\x01\xcc\x02\xaa\xbb\0\0\0\x04",
    )?;
    outcome(
        rt,
        "with pairs, acted with 4, Chosen and in use 4, Available 4: ",
        records::acted_with_4(),
        4,
        b"\0\0\0\x04\0\0\0\x04",
    )
}
