// The lists that a server is configured with, tested: the safe rule, and each of its parts broken.
use both_ends::{Finding, judge_configuration};
use information::MAX_AVAILABLE;
use std::io;

pub(crate) fn all(rt: &impl Print) -> io::Result<()> {
    println!(rt; "A server's lists, readable / accepted / offered / Available:")?;
    safe(rt)?;
    broken(rt)?;
    refused(rt)
}

fn safe(rt: &impl Print) -> io::Result<()> {
    finding(
        rt,
        "3, 4, 9 / 4, 3 / 3, 4 / 4, 3, 4: ",
        &[3, 4, 9],
        &[4, 3],
        &[3, 4],
        &[4, 3, 4],
    )
}

// One part alone; in the last case the first part that is broken is answered.
fn broken(rt: &impl Print) -> io::Result<()> {
    finding(rt, "2, 1 / 2, 1 / 1 / 1: ", &[2, 1], &[2, 1], &[1], &[1])?;
    finding(
        rt,
        "1, 2 / 1 / 1, 2 / 1, 2: ",
        &[1, 2],
        &[1],
        &[1, 2],
        &[1, 2],
    )?;
    finding(rt, "1 / 2 / 2 / 2: ", &[1], &[2], &[2], &[2])?;
    finding(rt, "1 / 1 / 1 / 1, 0: ", &[1], &[1], &[1], &[1, 0])?;
    finding(
        rt,
        "4, 3 / 4, 3 / 4, 3 / 4: ",
        &[4, 3],
        &[4, 3],
        &[4, 3],
        &[4],
    )?;
    finding(
        rt,
        "1 / 1, 2, 3 / 3, 2, 1 / none: ",
        &[1],
        &[1, 2, 3],
        &[3, 2, 1],
        &[],
    )
}

// 33 and 41, of both the lower.
fn refused(rt: &impl Print) -> io::Result<()> {
    let many = [1u32; MAX_AVAILABLE + 1];
    finding(
        rt,
        "1 / 1 / 1 / 255 times 1: ",
        &[1],
        &[1],
        &[1],
        &many[..MAX_AVAILABLE],
    )?;
    finding(rt, "none / 1 / 1 / 256 times 1: ", &[], &[1], &[1], &many)?;
    finding(rt, "1 / 0 / 1 / 1: ", &[1], &[0], &[1], &[1])
}

// With the pair 3 to 4.
fn finding(
    rt: &impl Print,
    label: &str,
    readable: &[u32],
    accepted: &[u32],
    offered: &[u32],
    available: &[u32],
) -> io::Result<()> {
    print!(rt; "{label}")?;
    match judge_configuration(readable, accepted, offered, available, &[[3, 4]]) {
        Err(refusal) => println!(rt; "refused {}", u32::from(refusal)),
        Ok(Finding::Safe) => println!(rt; "safe"),
        Ok(Finding::AcceptedNotOffered(found)) => println!(rt; "accepted but not offered: {found}"),
        Ok(Finding::OfferedNotAccepted(found)) => println!(rt; "offered but not accepted: {found}"),
        Ok(Finding::OfferedNotReadable(found)) => println!(rt; "offered but not readable: {found}"),
        Ok(Finding::AvailableNotOffered(found)) => println!(rt;
            "Available but not offered: {found}"
        ),
        Ok(Finding::OfferedNotAvailable(found)) => println!(rt;
            "offered but not Available: {found}"
        ),
    }
}
