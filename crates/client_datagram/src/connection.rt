// Whether a Version Negotiation packet is of the attempt's connection.
ghost use Rattle.std.specs.Prelude.{◌≡◌};
ghost use Rattle.attempt.specs.Attempt.{destination_of, source_of};
ghost use Rattle.attempt.specs.Step.{same, other_connection};

use crate::packet::Packet;
use client_verdict::Fitting;

// Whether the packet's connection IDs are not ours, swapped.
pub(crate) fn is_other_connection(fitting: Fitting, packet: Packet) -> bool
    ensures { result ≡ other_connection (destination_of fitting.attempt) (source_of fitting.attempt) packet.entry.datagram.now }
{
    let ours = fitting.attempt.source;
    let ours_len = fitting.attempt.source_len;
    if !is_same(packet.destination_id(), &ours[..ours_len]) {
        return true;
    }
    let theirs = fitting.attempt.destination;
    let theirs_len = fitting.attempt.destination_len;
    !is_same(packet.source_id(), &theirs[..theirs_len])
}

// Whether two byte strings are equal. It is no `==` of slices: with that call on the way of an event the compiler copies the
// record.
fn is_same(left: &[u8], right: &[u8]) -> bool
    ensures { result ≡ same left.now right.now }
{
    if left.len() != right.len() {
        return false;
    }
    for i in 0..left.len() {
        if left[i] != right[i] {
            return false;
        }
    }
    true
}
