// "How a version is chosen": from a list.
use crate::show::choice;
use std::io;

pub(crate) fn all(rt: &impl Print) -> io::Result<()> {
    choice(
        rt,
        "table 14, 12, 10, list 10, 12: ",
        &[14, 12, 10],
        &[10, 12],
    )?;
    choice(
        rt,
        "table 14, 12, 10, list 0, 10: ",
        &[14, 12, 10],
        &[0, 10],
    )?;
    let longest = [10u32; 16382];
    choice(
        rt,
        "table 14, 12, 10, list of 16382 times 10: ",
        &[14, 12, 10],
        &longest,
    )
}
