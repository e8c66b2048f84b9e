// The client's Version Information with reserved numbers, each at its place in the list as sent (document 02, C-18). Table
// 3, 4, 1, 2, pairs 1 to 2 and 3 to 4, as in P10: own list 3, 4 where 3 is attempted. 0x1a2a3a4a is 438975050, and 0x0a0a0a0a
// is 168430090.
use crate::records;
use crate::show_client::{outcome, sent};
use std::io;

pub(crate) fn all(rt: &impl Print) -> io::Result<()> {
    written(rt)?;
    refused(rt)?;
    answered(rt)
}

fn written(rt: &impl Print) -> io::Result<()> {
    let mut short = [0u8; 12];
    sent(
        rt,
        "information of the client that attempts 3:",
        records::acted_with_3(),
        &[],
        &mut short,
    )?;
    sent(
        rt,
        "of an attempt that has ended, with 0x0a0a0a0a at 1:",
        records::after_missing(records::plain(), 12),
        &[[0x0a0a0a0a, 1]],
        &mut short,
    )?;
    let mut buffer = [0u8; 20];
    sent(
        rt,
        "of the client that attempts 3, with 0x1a2a3a4a at 0:",
        records::acted_with_3(),
        &[[0x1a2a3a4a, 0]],
        &mut buffer,
    )?;
    sent(
        rt,
        "with 0x1a2a3a4a at 3 and 0x0a0a0a0a at 1:",
        records::acted_with_3(),
        &[[0x1a2a3a4a, 3], [0x0a0a0a0a, 1]],
        &mut buffer,
    )
}

fn refused(rt: &impl Print) -> io::Result<()> {
    let mut short = [0u8; 15];
    sent(
        rt,
        "with one at 3, past the end, for a buffer of 15:",
        records::acted_with_3(),
        &[[0x1a2a3a4a, 3]],
        &mut short,
    )?;
    let mut buffer = [0u8; 32];
    sent(
        rt,
        "with one at 3, past the end:",
        records::acted_with_3(),
        &[[0x1a2a3a4a, 3]],
        &mut buffer,
    )?;
    sent(
        rt,
        "with two at 1:",
        records::acted_with_3(),
        &[[0x1a2a3a4a, 1], [0x0a0a0a0a, 1]],
        &mut buffer,
    )?;
    sent(
        rt,
        "with 0x0a0a0a0a twice:",
        records::acted_with_3(),
        &[[0x0a0a0a0a, 0], [0x0a0a0a0a, 1]],
        &mut buffer,
    )?;
    sent(
        rt,
        "with 0x0a0a0a0b, which is not reserved:",
        records::acted_with_3(),
        &[[0x0a0a0a0b, 0]],
        &mut buffer,
    )?;
    sent(
        rt,
        "with five:",
        records::acted_with_3(),
        &[
            [0x1a2a3a4a, 0],
            [0x0a0a0a0a, 1],
            [0xfafafafa, 2],
            [0x5a6a7a8a, 3],
            [0x2a2a2a2a, 4],
        ],
        &mut buffer,
    )
}

// What was sent is not what may be answered.
fn answered(rt: &impl Print) -> io::Result<()> {
    outcome(
        rt,
        "acted with 3, Chosen and in use 0x1a2a3a4a, Available 4, 3: ",
        records::acted_with_3(),
        0x1a2a3a4a,
        b"\x1a\x2a\x3a\x4a\0\0\0\x04\0\0\0\x03",
    )
}
