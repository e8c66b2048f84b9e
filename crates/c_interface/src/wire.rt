// Headers, Version Negotiation packets and Version Information as numbers and buffers.
ghost use Rattle.std.specs.Prelude.{[], ◌∷◌, ◌≡◌, length};
ghost use Rattle.refusals.specs.Written.{leaves};
ghost use Rattle.invariants.specs.Header.{read_header};
ghost use Rattle.negotiation.specs.Packet.{negotiation_packet};
ghost use Rattle.c_interface.specs.Numbers.{returned, leaving, form_number, form_version, leaving_places};
ghost use Rattle.c_interface.specs.Numbers.{read_information_of, information_to_write_of, chosen_in, start_in, end_in};

use crate::handing::{hand_over, named};
use c_record::NOT_VALID;
use information::{Sender, read_information, write_information};
use invariants::Header;
use invariants::reader::read_header;
use lists::Span;
use negotiation::write_version_negotiation;

// Reads a header. Refusals: 11, 12, 13, which leave all as found; else 0. `form` is 1 long, 2 short, 3 Version
// Negotiation; `version` is a long form's, else 0; `places` are start and end of the destination ID, the source ID
// (0 and 0 for a short form) and the rest. `told` is the length of a short form's destination ID.
#[unsafe(no_mangle)]
pub extern "C" fn qv_read_header(
    datagram: &[u8],
    told: usize,
    form: &mut u32,
    version: &mut u32,
    places: &mut [usize; 6],
) -> u32
    ensures answer { result ≡ returned (read_header datagram.now told) }
    ensures form { form.new ≡ leaving form_number (read_header datagram.now told) form.old }
    ensures version { version.new ≡ leaving form_version (read_header datagram.now told) version.old }
    ensures places { places.new ≡ leaving_places (read_header datagram.now told) places.old }
{
    match read_header(datagram, told) {
        Err(refusal) => u32::from(refusal),
        Ok(
            Header::Long {
                version: number,
                destination,
                source,
                rest,
            },
        ) => {
            let found = places_of(destination, source, rest);
            *form = 1;
            *version = number;
            *places = found;
            0
        }
        Ok(Header::Short { destination, rest }) => {
            let found = places_of(destination, Span { start: 0, end: 0 }, rest);
            *form = 2;
            *version = 0;
            *places = found;
            0
        }
        Ok(
            Header::VersionNegotiation {
                destination,
                source,
                list,
            },
        ) => {
            let found = places_of(destination, source, list);
            *form = 3;
            *version = 0;
            *places = found;
            0
        }
    }
}

// Start and end of three parts, in their order.
fn places_of(first: Span, second: Span, third: Span) -> [usize; 6]
    ensures { result ≡ first.start ∷ first.end ∷ second.start ∷ second.end ∷ third.start ∷ third.end ∷ [] }
{
    [
        first.start,
        first.end,
        second.start,
        second.end,
        third.start,
        third.end,
    ]
}

// Writes the Version Negotiation packet that answers a received datagram; it ends with the reserved numbers, in the order
// given. Refusals: 11, 12, 20 to 26, 28, which leave buffer and count as found; else 0, and `count` bytes of the buffer are
// written.
#[unsafe(no_mangle)]
pub extern "C" fn qv_write_version_negotiation(
    received: &[u8],
    offered: &[u32],
    reserved: &[u32],
    unused_bits: u8,
    buffer: &mut [u8],
    count: &mut usize,
) -> u32
    ensures answer { result ≡ returned
        (negotiation_packet received.now offered.now reserved.now unused_bits (length buffer.old)) }
    ensures left { buffer.new ≡ leaves
        (negotiation_packet received.now offered.now reserved.now unused_bits (length buffer.old))
        buffer.old }
    ensures counted { count.new ≡ leaving length
        (negotiation_packet received.now offered.now reserved.now unused_bits (length buffer.old))
        count.old }
{
    let answer = write_version_negotiation(received, offered, reserved, unused_bits, buffer);
    hand_over(answer, count)
}

// Reads Version Information; `sender` is 0 for a client's, 1 for a server's. Refusals: 255 (another sender), 31 to 36,
// which leave all as found; else 0, the Chosen Version, and where the Available Versions lie.
#[unsafe(no_mangle)]
pub extern "C" fn qv_read_information(
    sender: u32,
    bytes: &[u8],
    chosen: &mut u32,
    start: &mut usize,
    end: &mut usize,
) -> u32
    ensures answer { result ≡ returned (read_information_of sender bytes.now) }
    ensures chosen { chosen.new ≡ leaving chosen_in (read_information_of sender bytes.now) chosen.old }
    ensures start { start.new ≡ leaving start_in (read_information_of sender bytes.now) start.old }
    ensures end { end.new ≡ leaving end_in (read_information_of sender bytes.now) end.old }
{
    let Some(from) = named(Sender::Client, Sender::Server, sender) else {
        return NOT_VALID;
    };
    match read_information(from, bytes) {
        Ok(information) => {
            *chosen = information.chosen;
            *start = information.available.start;
            *end = information.available.end;
            0
        }
        Err(refusal) => u32::from(refusal),
    }
}

// Writes Version Information. Refusals: 255 (another sender), 33 to 37, which leave buffer and count as found; else 0,
// and `count` bytes of the buffer are written.
#[unsafe(no_mangle)]
pub extern "C" fn qv_write_information(
    sender: u32,
    chosen: u32,
    available: &[u32],
    buffer: &mut [u8],
    count: &mut usize,
) -> u32
    ensures answer { result ≡ returned
        (information_to_write_of sender chosen available.now (length buffer.old)) }
    ensures left { buffer.new ≡ leaves
        (information_to_write_of sender chosen available.now (length buffer.old))
        buffer.old }
    ensures counted { count.new ≡ leaving length
        (information_to_write_of sender chosen available.now (length buffer.old))
        count.old }
{
    let Some(by) = named(Sender::Client, Sender::Server, sender) else {
        return NOT_VALID;
    };
    hand_over(write_information(by, chosen, available, buffer), count)
}
