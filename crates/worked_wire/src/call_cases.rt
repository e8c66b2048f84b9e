// "Calls from both sides of the line", Version Information: how long it may be.
use crate::show::received;
use information::Sender;
use std::io;

pub(crate) fn all(rt: &impl Print) -> io::Result<()> {
    short_information(rt)?;
    long_information(rt)
}

fn short_information(rt: &impl Print) -> io::Result<()> {
    received(rt, "information of 0 bytes: ", Sender::Client, &[])?;
    received(rt, "information of 3 bytes: ", Sender::Client, &[1, 1, 1])?;
    received(
        rt,
        "information of 5 bytes: ",
        Sender::Client,
        &[1, 1, 1, 1, 1],
    )
}

fn long_information(rt: &impl Print) -> io::Result<()> {
    let longest = [1u8; 1024];
    received(rt, "information of 1024 bytes: ", Sender::Client, &longest)?;
    let uneven = [1u8; 1026];
    received(rt, "information of 1026 bytes: ", Sender::Client, &uneven)?;
    let long = [1u8; 1028];
    received(rt, "information of 1028 bytes: ", Sender::Client, &long)
}
