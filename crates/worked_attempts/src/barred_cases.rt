// Pairs barred for an attempt's flights (document 02, C-17). Table 3, 4, 1, 2, pairs 1 to 2 and 3 to 4, Original 1, as in P10.
use crate::records;
use crate::show_client::{begin, outcome, own};
use std::io;
use versions::MAX_PAIRS;

pub(crate) fn all(rt: &impl Print) -> io::Result<()> {
    starts(rt)?;
    own_lists(rt)?;
    outcomes(rt)
}

fn starts(rt: &impl Print) -> io::Result<()> {
    begin(
        rt,
        "start with barred pair 12 to 12: ",
        &[],
        &[[12, 12]],
        12,
        &[],
        &[],
    )?;
    let most = [[14u32, 10]; MAX_PAIRS];
    begin(
        rt,
        "start with as many barred pairs as there may be: ",
        &[],
        &most,
        12,
        &[],
        &[],
    )?;
    let more = [[14u32, 10]; MAX_PAIRS + 1];
    begin(
        rt,
        "start with one barred pair more, Original 13: ",
        &[],
        &more,
        13,
        &[],
        &[],
    )
}

fn own_lists(rt: &impl Print) -> io::Result<()> {
    own(rt, "own list for 1, 3 to 4 barred:", records::barring())?;
    own(
        rt,
        "own list for 3, 3 to 4 barred:",
        records::after_4_and_3(records::barring()),
    )?;
    own(
        rt,
        "own list for 3, 4 to 3 and 1 to 4 barred:",
        records::after_4_and_3(records::barring_others()),
    )
}

fn outcomes(rt: &impl Print) -> io::Result<()> {
    outcome(
        rt,
        "acted with 3, 3 to 4 barred, Chosen and in use 4, Available 4, 3: ",
        records::after_4_and_3(records::barring()),
        4,
        b"\0\0\0\x04\0\0\0\x04\0\0\0\x03",
    )?;
    outcome(
        rt,
        "acted with 3, 3 to 4 barred, Chosen and in use 3, Available 4, 3: ",
        records::after_4_and_3(records::barring()),
        3,
        b"\0\0\0\x03\0\0\0\x04\0\0\0\x03",
    )?;
    outcome(
        rt,
        "acted with 3, 4 to 3 and 1 to 4 barred, Chosen and in use 4, Available 4, 3: ",
        records::after_4_and_3(records::barring_others()),
        4,
        b"\0\0\0\x04\0\0\0\x04\0\0\0\x03",
    )
}
