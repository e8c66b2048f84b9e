// "Slips the old code made, or nearly", on the wire: what the right answer is.
use crate::packet_cases::padded_case;
use crate::show::header_of;
use negotiation::write_version_negotiation;
use std::io;

// The connection IDs are swapped: the packet is for the client that sent the datagram.
pub(crate) fn all(rt: &impl Print) -> io::Result<()> {
    let received = padded_case();
    let mut packet = [0u8; 22];
    let _ = write_version_negotiation(&received, &[14, 13, 10], &[], 64, &mut packet);
    header_of(rt, &packet, 0)
}
