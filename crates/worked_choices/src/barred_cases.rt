// Versions barred for the flight at hand (document 02, C-17). The server reads 3, and its pair is 3 to 4.
use crate::show::{decision, flight};
use server::MAX_BARRED;
use std::io;

pub(crate) fn all(rt: &impl Print) -> io::Result<()> {
    flight(
        rt,
        "reads 3, first flight in 3, Chosen 3, Available 3, 4, accepting 4, 3, pair 3 to 4, 4 barred: ",
        &[4, 3],
        &[[3, 4]],
        &[4],
    )?;
    flight(
        rt,
        "the same with 3 barred, which is Chosen: ",
        &[4, 3],
        &[[3, 4]],
        &[3],
    )?;
    flight(
        rt,
        "the same with 3, 4 barred: ",
        &[4, 3],
        &[[3, 4]],
        &[3, 4],
    )?;
    flight(
        rt,
        "the same with 0, 0, 0x1a2a3a4a, 99 barred: ",
        &[4, 3],
        &[[3, 4]],
        &[0, 0, 0x1a2a3a4a, 99],
    )?;
    flight(rt, "accepting 4 alone, 4 barred: ", &[4], &[[3, 4]], &[4])?;
    decision(
        rt,
        "accepting 4, 3, 3, 4 barred, information missing: ",
        &[4, 3],
        &[[3, 4]],
        &[3, 4],
        3,
        None,
    )?;
    at_the_limit(rt)
}

// As many as there may be, and one more.
fn at_the_limit(rt: &impl Print) -> io::Result<()> {
    let barred = [4u32; MAX_BARRED + 1];
    flight(
        rt,
        "accepting 4, 3, 64 times 4 barred: ",
        &[4, 3],
        &[[3, 4]],
        &barred[..MAX_BARRED],
    )?;
    flight(
        rt,
        "accepting 4, 3, 65 times 4 barred: ",
        &[4, 3],
        &[[3, 4]],
        &barred,
    )?;
    decision(
        rt,
        "first flight in 9, which is not readable, 65 times 4 barred: ",
        &[4, 3],
        &[[3, 4]],
        &barred,
        9,
        Some(&[]),
    )
}
