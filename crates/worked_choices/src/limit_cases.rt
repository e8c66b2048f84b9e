// Tables and pairs at their limits (document 02, C-14): as many as there may be, and one more.
use crate::show::{choice, flight};
use std::{array, io};
use versions::{MAX_PAIRS, MAX_TABLE};

// One entry more than a table may have, and one pair more.
const ENTRIES: usize = MAX_TABLE + 1;

const PAIRS: usize = MAX_PAIRS + 1;

pub(crate) fn all(rt: &impl Print) -> io::Result<()> {
    let versions = counted();
    let last = versions[MAX_TABLE - 1];
    println!(rt; "most entries of a table: {last}")?;
    choice(
        rt,
        "table with as many, list its last entry: ",
        most(&versions),
        &[last],
    )?;
    choice(
        rt,
        "table with one entry more, list the same: ",
        &versions,
        &[last],
    )?;
    println!(rt; "most pairs: {MAX_PAIRS}")?;
    let pairs = [[3u32, 4]; PAIRS];
    flight(
        rt,
        "reads 3, first flight in 3, Chosen 3, Available 3, 4, accepting 4, 3, as many pairs 3 to 4: ",
        &[4, 3],
        &pairs[..MAX_PAIRS],
        &[],
    )?;
    flight(rt, "the same with one pair more: ", &[4, 3], &pairs, &[])
}

// The versions 1, 2, 3 and so on.
pub(crate) fn counted() -> [u32; ENTRIES] {
    // (`as`: Rust has no From between these widths; that the value fits is proved.)
    array::from_fn(|place| place as u32 + 1)
}

// As many of them as a table may have.
pub(crate) fn most(versions: &[u32]) -> &[u32] {
    versions.get(..MAX_TABLE).unwrap_or(versions)
}
