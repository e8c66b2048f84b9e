// By the server: "How a version is chosen", "When the desk says no" (51), and the calls "from both sides of the line"
// that are not marked P.
use crate::show::{decision, flight};
use std::io;

pub(crate) fn all(rt: &impl Print) -> io::Result<()> {
    by_the_server(rt)?;
    of_the_server(rt)?;
    calls(rt)
}

fn by_the_server(rt: &impl Print) -> io::Result<()> {
    decision(
        rt,
        "reads 3, accepts 4, 3, first flight in 9, malformed information: ",
        &[4, 3],
        &[],
        &[],
        9,
        Some(&[]),
    )?;
    decision(
        rt,
        "reads 3, accepts 4, 3, first flight in 3, information missing: ",
        &[4, 3],
        &[],
        &[],
        3,
        None,
    )?;
    decision(
        rt,
        "reads 3, accepts 4, first flight in 3, information missing: ",
        &[4],
        &[],
        &[],
        3,
        None,
    )
}

fn of_the_server(rt: &impl Print) -> io::Result<()> {
    decision(
        rt,
        "reads 3, accepts 4, 3, first flight in 3, Chosen 4, Available 4, 3: ",
        &[4, 3],
        &[],
        &[],
        3,
        Some(b"\0\0\0\x04\0\0\0\x04\0\0\0\x03"),
    )
}

fn calls(rt: &impl Print) -> io::Result<()> {
    flight(
        rt,
        "reads 3, first flight in 3, Chosen 3, Available 3, 4, accepting 4, 3, pair 3 to 4: ",
        &[4, 3],
        &[[3, 4]],
        &[],
    )?;
    flight(
        rt,
        "reads 3, first flight in 3, Chosen 3, Available 3, 4, accepting 4, 3, pair 4 to 3: ",
        &[4, 3],
        &[[4, 3]],
        &[],
    )?;
    flight(
        rt,
        "reads 3, first flight in 3, Chosen 3, Available 3, 4, accepting 4, 3, no pair: ",
        &[4, 3],
        &[],
        &[],
    )?;
    flight(
        rt,
        "reads 3, first flight in 3, Chosen 3, Available 3, 4, accepting 4, no pair: ",
        &[4],
        &[],
        &[],
    )
}
