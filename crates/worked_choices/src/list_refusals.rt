// "When the desk says no", 40 to 42: the choice from a list.
use crate::show::choice;
use std::io;

pub(crate) fn all(rt: &impl Print) -> io::Result<()> {
    let long = [14u32; 16383];
    choice(rt, "list of 16383 entries: ", &[14], &long)?;
    choice(rt, "table 14, 14, list 14: ", &[14, 14], &[14])?;
    choice(
        rt,
        "table 14, 12, 10, list 13, 9: ",
        &[14, 12, 10],
        &[13, 9],
    )
}
