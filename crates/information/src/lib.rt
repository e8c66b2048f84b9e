// Version Information (RFC 9368 section 3): reader and writer. Every function answers for every input.
#![tactic(auto)]

ghost use Rattle.std.specs.Prelude.{◌≡◌, true, ◌++◌, ◌≤◌, length, drop, Some, MatchResult};
ghost use Rattle.refusals.specs.Rule.{clear, number_given};
ghost use Rattle.refusals.specs.Written.{written_reply, counted, leaves};
ghost use Rattle.information.specs.Information.{version_rules, read_information, information_reply, information_bytes, information_length, information_to_write};

use lists::{OnWire, Span, VERSION_BYTES, Versions, put_list};
use refusals::Refusal;

// The most bytes of Version Information: the Chosen Version and MAX_AVAILABLE Available Versions.
pub const MAX_INFORMATION: usize = 1024;
// The most Available Versions.
pub const MAX_AVAILABLE: usize = 255;

// Who sends Version Information. From a client, the Chosen Version must be among the Available Versions.
#[derive(Clone, Copy, PartialEq, Eq)]
pub enum Sender {
    Client,
    Server,
}

// What the reader finds: the Chosen Version, and where the Available Versions lie.
#[derive(Clone, Copy)]
pub struct Information {
    pub chosen: u32,
    pub available: Span,
}

// Reads Version Information that came from a sender. Refusals, in order: 31 (under 4 bytes), 32 (not a multiple
// of four), 33 (over MAX_INFORMATION bytes), 34 (the Chosen Version is 0), 35 (an Available Version is 0), 36
// (from a client: the Chosen Version is not among the Available Versions). It changes nothing.
#[tactic(auto, unfolding(crate::specs::Information::read_information))]
pub fn read_information(sender: Sender, bytes: &[u8]) -> Result<Information, Refusal>
    ensures { information_reply result ≡ read_information sender bytes.now }
{
    let Some((chosen, rest)) = bytes.split_first_chunk::<VERSION_BYTES>() else {
        return Err(Refusal::INFORMATION_TOO_SHORT);
    };
    if bytes.len() % VERSION_BYTES != 0 {
        return Err(Refusal::INFORMATION_NOT_IN_FOURS);
    }
    if MAX_INFORMATION < bytes.len() {
        return Err(Refusal::INFORMATION_TOO_LONG);
    }
    let chosen = u32::from_be_bytes(*chosen);
    judge_versions(sender, chosen, OnWire(rest))?;
    Ok(Information {
        chosen,
        available: Span {
            start: VERSION_BYTES,
            end: bytes.len(),
        },
    })
}

// Writes Version Information that a sender is to send, and answers the byte count. Refusals, in order: 33 (over
// MAX_AVAILABLE entries), 34 (the Chosen Version is 0), 35 (an Available Version is 0), 36 (from a client: the
// Chosen Version is not among the Available Versions), 37 (the buffer is too short). A refusal leaves the buffer
// as found; else its bytes past the count keep their values.
#[tactic(auto, unfolding(crate::specs::Information::information_to_write))]
pub fn write_information(
    sender: Sender,
    chosen: u32,
    available: &[u32],
    buffer: &mut [u8],
) -> Result<usize, Refusal>
    ensures answer { written_reply result ≡ counted (information_to_write sender chosen available.now (length buffer.old)) }
    ensures left { buffer.new ≡ leaves (information_to_write sender chosen available.now (length buffer.old)) buffer.old }
{
    if MAX_AVAILABLE < available.len() {
        return Err(Refusal::INFORMATION_TOO_LONG);
    }
    judge_versions(sender, chosen, available)?;
    let count = VERSION_BYTES + VERSION_BYTES * available.len();
    if buffer.len() < count {
        return Err(Refusal::NO_ROOM_FOR_INFORMATION);
    }
    put_information(chosen, available, buffer);
    Ok(count)
}

// Judges what the reader and the writer share, in order: 34 (the Chosen Version is 0), 35 (an Available Version is 0), 36
// (from a client: the Chosen Version is not among the Available Versions).
fn judge_versions<V: Versions>(sender: Sender, chosen: u32, available: V) -> Result<(), Refusal>
    ensures { MatchResult result (λ _. clear (version_rules sender chosen (V.versions available)) ≡ true)
        (λ r. number_given (version_rules sender chosen (V.versions available)) ≡ Some r.0) }
{
    if chosen == 0 {
        return Err(Refusal::CHOSEN_IS_ZERO);
    }
    if available.holds(0) {
        return Err(Refusal::AVAILABLE_HOLDS_ZERO);
    }
    if sender == Sender::Client && !available.holds(chosen) {
        return Err(Refusal::CHOSEN_NOT_AVAILABLE);
    }
    Ok(())
}

// Puts the Chosen Version and the Available Versions at the front of a buffer that has room for them.
#[tactic(auto, using(crate::proofs::Bytes::put_both))]
fn put_information(chosen: u32, available: &[u32], buffer: &mut [u8])
    requires { information_length available.now ≤ length buffer.old }
    ensures { buffer.new ≡ information_bytes chosen available.now ++ drop (information_length available.now) buffer.old }
{
    put_list(&[chosen], buffer);
    put_list(available, &mut buffer[VERSION_BYTES..]);
}
