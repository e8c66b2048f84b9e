// "When the desk says no", 43 to 45: starts. 43 also at the limit (document 02, C-14): as many pairs as there may be, and
// one more.
use crate::show_client::begin;
use std::io;
use versions::MAX_PAIRS;

pub(crate) fn all(rt: &impl Print) -> io::Result<()> {
    begin(
        rt,
        "start with pair 12 to 12: ",
        &[[12, 12]],
        &[],
        12,
        &[0xaa],
        &[0xcc],
    )?;
    let most = [[14u32, 10]; MAX_PAIRS];
    begin(
        rt,
        "start with as many pairs as there may be: ",
        &most,
        &[],
        12,
        &[],
        &[],
    )?;
    let more = [[14u32, 10]; MAX_PAIRS + 1];
    begin(rt, "start with one pair more: ", &more, &[], 12, &[], &[])?;
    begin(
        rt,
        "start with table 14, 12, 10, Original 13: ",
        &[],
        &[],
        13,
        &[0xaa],
        &[0xcc],
    )?;
    let long = [0xaau8; 21];
    begin(
        rt,
        "start with a connection ID of 21 bytes: ",
        &[],
        &[],
        12,
        &long,
        &[0xcc],
    )
}
