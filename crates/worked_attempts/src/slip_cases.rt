// "Slips the old code made, or nearly", in the attempt: what the right answers are.
use crate::records;
use crate::show_client::{datagram, outcome};
use negotiation::{MIN_ANSWERED_DATAGRAM, write_version_negotiation};
use std::io;

pub(crate) fn all(rt: &impl Print) -> io::Result<()> {
    version_in_use_is_added(rt)?;
    attempted_is_compared(rt)?;
    ids_are_swapped(rt)
}

fn version_in_use_is_added(rt: &impl Print) -> io::Result<()> {
    outcome(
        rt,
        "acted with 14, Chosen and in use 14, Available 13 alone: ",
        records::acted_with_14(),
        14,
        b"\0\0\0\x0e\0\0\0\x0d",
    )
}

fn attempted_is_compared(rt: &impl Print) -> io::Result<()> {
    outcome(
        rt,
        "acted with 3, pair 3 to 4, Chosen and in use 4, Available 3, 4: ",
        records::acted_with_3(),
        4,
        b"\0\0\0\x04\0\0\0\x03\0\0\0\x04",
    )
}

// The packet that the server sends is for the client that sent the datagram.
fn ids_are_swapped(rt: &impl Print) -> io::Result<()> {
    let mut received = [0u8; MIN_ANSWERED_DATAGRAM];
    received[..11].copy_from_slice(b"\xc0\0\0\0\x0c\x02\xaa\xbb\x01\xcc\xff");
    let mut packet = [0u8; 22];
    let _ = write_version_negotiation(&received, &[14, 13, 10], &[], 64, &mut packet);
    datagram(
        rt,
        "the client whose datagram it answers gets that packet: ",
        records::plain(),
        &packet,
    )
}
