// RFC 8999 section 6: the Version Negotiation packet that answers a received datagram. The writer answers for
// every input.
#![tactic(auto)]

ghost use Rattle.std.specs.Prelude.{◌≡◌, ◌∷◌, suc, ◌≤◌, length};
ghost use Rattle.refusals.specs.Reply.{Reply.answered};
ghost use Rattle.refusals.specs.Rule.{judged};
ghost use Rattle.refusals.specs.declared.Call.TheVariants.{Writing};
ghost use Rattle.refusals.specs.Written.{written_reply, counted, leaves};
ghost use Rattle.lists.specs.Wire.{bytes_of};
ghost use Rattle.invariants.specs.Limits.{max_connection_id};
ghost use Rattle.negotiation.specs.Limits.{max_unused_bits};
ghost use Rattle.negotiation.specs.Packet.{list_sent, offer_rules, negotiation_packet};
ghost use Rattle.negotiation.specs.Parts.{count_of, packet_of, offer_answer};

use invariants::Header;
use invariants::reader::read_header;
use lists::{VERSION_BYTES, put_list, put_values};
use refusals::Refusal;
use versions::table::{are_reserved, contains, is_table};

// The fewest bytes of a datagram that is answered: in version 1 no smaller one opens a connection (RFC 9000 section 14.1).
pub const MIN_ANSWERED_DATAGRAM: usize = 1200;

// The largest value of the unused bits of a Version Negotiation packet's first byte.
pub const MAX_UNUSED_BITS: u8 = 127;

// Writes the packet at the buffer's front and answers its byte count, at most `max_packet`: first byte 128 plus
// the unused bits, version 0, the received source connection ID as destination, the received destination
// connection ID as source (each behind its length), the offered table in its order, then the reserved numbers in
// theirs, big endian. Bytes of the buffer past the count keep their values. Refusals, in order, each of which leaves
// the buffer as found:
// 11 (the datagram has over invariants::MAX_DATAGRAM bytes), 12 (it is empty, or a field of its long form
// runs past the end), 20 (it has under MIN_ANSWERED_DATAGRAM bytes), 21 (it has the short form), 22 (it has
// version 0), 23 (the offered table breaks its rule), 24 (the received version is in it), 25 (the unused bits
// are over MAX_UNUSED_BITS), 26 (the buffer is shorter than the packet, with all reserved numbers that are given),
// 28 (there are over versions::MAX_RESERVED of them, one is not reserved or is there twice, or the received version
// is among them). So a packet is never longer than the datagram that it answers.
#[tactic(auto, unfolding(crate::specs::Packet::negotiation_packet, invariants::specs::Header::read_header))]
pub fn write_version_negotiation(
    received: &[u8],
    offered: &[u32],
    reserved: &[u32],
    unused_bits: u8,
    buffer: &mut [u8],
) -> Result<usize, Refusal>
    ensures answer { written_reply result ≡ counted
        (negotiation_packet received.now offered.now reserved.now unused_bits (length buffer.old)) }
    ensures left { buffer.new ≡ leaves
        (negotiation_packet received.now offered.now reserved.now unused_bits (length buffer.old))
        buffer.old }
{
    // Told length 0: a short form is a 12 only where it is empty. 13 is the header reader's alone: it has version 0.
    let header = read_header(received, 0);
    match header {
        Err(refusal) if refusal != Refusal::LIST_NOT_WHOLE => Err(refusal),
        _ if received.len() < MIN_ANSWERED_DATAGRAM => Err(Refusal::DATAGRAM_TOO_SMALL),
        Ok(Header::Short { .. }) => Err(Refusal::SHORT_FORM),
        Err(_) | Ok(Header::VersionNegotiation { .. }) => {
            Err(Refusal::VERSION_NEGOTIATION_RECEIVED)
        }
        Ok(
            Header::Long {
                version,
                destination,
                source,
                ..
            },
        ) => {
            let answer = Answer {
                destination: &received[destination.start..destination.end],
                source: &received[source.start..source.end],
                offered,
                reserved,
                unused_bits,
            };
            answer.write(version, buffer)
        }
    }
}

// What the packet that answers a long form is made of: the received connection IDs, and what the caller offers.
#[derive(Clone, Copy)]
struct Answer<'a> {
    destination: &'a [u8],
    source: &'a [u8],
    offered: &'a [u32],
    reserved: &'a [u32],
    unused_bits: u8,
    ghost destination_short: { length destination.now ≤ max_connection_id },
    ghost source_short: { length source.now ≤ max_connection_id },
}

impl<'a> Answer<'a> {
    // Answers a long form of this version: judges 23 to 28, then puts the packet.
    #[tactic(auto, using(crate::proofs::Writing::offer_answers, crate::proofs::Writing::count_clear, crate::proofs::Writing::refused_leaves))]
    fn write(&self, version: u32, buffer: &mut [u8]) -> Result<usize, Refusal>
        ensures answer { written_reply result ≡ counted
            (offer_answer version self.now.destination.now self.now.source.now self.now.offered.now self.now.reserved.now
            self.now.unused_bits (length buffer.old)) }
        ensures left { buffer.new ≡ leaves
            (offer_answer version self.now.destination.now self.now.source.now self.now.offered.now self.now.reserved.now
            self.now.unused_bits (length buffer.old))
            buffer.old }
    {
        let count = self.judge(version, buffer.len())?;
        self.put(buffer);
        Ok(count)
    }

    // The packet's byte count, or the first of the refusals 23 to 28.
    #[tactic(auto, using(crate::proofs::Writing::table_short))]
    fn judge(&self, version: u32, room: usize) -> Result<usize, Refusal>
        ensures { written_reply result ≡ judged Writing
            (offer_rules version
            (count_of self.now.destination.now self.now.source.now self.now.offered.now self.now.reserved.now)
            self.now.offered.now self.now.reserved.now self.now.unused_bits room)
            (answered (count_of self.now.destination.now self.now.source.now self.now.offered.now self.now.reserved.now)) }
    {
        if !is_table(self.offered) {
            return Err(Refusal::BAD_OFFERED_TABLE);
        }
        if contains(self.offered, version) {
            return Err(Refusal::RECEIVED_VERSION_OFFERED);
        }
        if MAX_UNUSED_BITS < self.unused_bits {
            return Err(Refusal::UNUSED_BITS_TOO_LARGE);
        }
        let ids = self.destination.len() + self.source.len();
        let count = 7 + (ids + VERSION_BYTES * (self.offered.len() + self.reserved.len()));
        if room < count {
            return Err(Refusal::NO_ROOM_FOR_PACKET);
        }
        if !are_reserved(self.reserved) || contains(self.reserved, version) {
            return Err(Refusal::BAD_RESERVED_IN_PACKET);
        }
        Ok(count)
    }

    // Puts the packet at the buffer's front, part by part: IDs swapped, each behind its length. (There is room for
    // all, so `put_list` answers true.)
    fn put(&self, buffer: &mut [u8])
        requires bits { self.now.unused_bits ≤ max_unused_bits }
        requires room { count_of self.now.destination.now self.now.source.now self.now.offered.now self.now.reserved.now
            ≤ length buffer.old }
        ensures { buffer.new ≡ leaves
            (answered
            (packet_of self.now.destination.now self.now.source.now
            (list_sent self.now.offered.now self.now.reserved.now) self.now.unused_bits))
            buffer.old }
    {
        let second_id = 6 + self.source.len();
        let list = 7 + self.source.len() + self.destination.len();
        let behind = list + VERSION_BYTES * self.offered.len();
        put_front(128 + self.unused_bits, buffer);
        put_id(self.source, &mut buffer[5..]);
        put_id(self.destination, &mut buffer[second_id..]);
        put_list(self.offered, &mut buffer[list..]);
        put_list(self.reserved, &mut buffer[behind..]);
    }
}

// Puts the first byte and version 0 at the buffer's front.
fn put_front(first: u8, buffer: &mut [u8])
    requires { 5 ≤ length buffer.old }
    ensures { buffer.new ≡ leaves (answered (first ∷ bytes_of 0)) buffer.old }
{
    buffer[..5].copy_from_slice(&[first, 0, 0, 0, 0]);
}

// Puts a connection ID, behind its length, at the buffer's front. (There is room for it, so `put_values` answers true.)
fn put_id(id: &[u8], buffer: &mut [u8])
    requires short { length id.now ≤ max_connection_id }
    requires room { suc (length id.now) ≤ length buffer.old }
    ensures { buffer.new ≡ leaves (answered (length id.now ∷ id.now)) buffer.old }
{
    // (`as`: Rust has no From between these widths; that the value fits is proved.)
    buffer[0] = id.len() as u8;
    put_values(id, &mut buffer[1..]);
}
