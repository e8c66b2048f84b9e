// The writer of a sequence of transport parameters (RFC 9000 section 18). It answers for every input.
#![tactic(auto)]

ghost use Rattle.std.specs.Prelude.{true, not, ◌≡◌, length};
ghost use Rattle.refusals.specs.Rule.{clear};
ghost use Rattle.refusals.specs.Written.{written_reply, counted, leaves};
ghost use Rattle.parameters.specs.Reading.{sequence_rules};
ghost use Rattle.parameters.specs.Writing.{contents_of, holds_ours, parameters_to_write};

mod putting; // the new sequence put into the buffer
mod renewal; // what the new sequence is made of
mod size; // the bytes of the new sequence

use crate::putting::put_sequence;
use crate::renewal::Renewal;
use crate::size::size_of;
use parameters::{MAX_PARAMETERS, MAX_SEQUENCE, Parameters};
use parameters_reader::read_parameters;
use refusals::Refusal;

// Writes the old sequence with Version Information of this value, which takes the place of the old one, or goes last where
// there is none, and answers the byte count. Every identifier and length is written in the shortest form; the other values
// and the order stay. Refusals, in order: of the old sequence 80 (over MAX_SEQUENCE bytes), 81 (a field runs past the
// end), 82 (an identifier occurs twice), 85 (over MAX_PARAMETERS parameters); of the new one 80, 84 (the buffer is too
// short), 85. A refusal leaves the buffer as found; else its bytes past the count keep their values.
pub fn write_parameters(old: &[u8], value: &[u8], buffer: &mut [u8]) -> Result<usize, Refusal>
    ensures answer { written_reply result ≡ counted (parameters_to_write old.now value.now (length buffer.old)) }
    ensures left { buffer.new ≡ leaves (parameters_to_write old.now value.now (length buffer.old)) buffer.old }
{
    let last = read_parameters(old)?.is_none();
    let old = Parameters::of(old)?;
    write_new(old, value, last, buffer)
}

// Writes the new sequence, where the old one is read. `last`: there is no Version Information in it yet.
fn write_new(old: Parameters, value: &[u8], last: bool, buffer: &mut [u8]) -> Result<usize, Refusal>
    requires start { old.at ≡ 0 }
    requires read { clear (sequence_rules old.sequence.now) ≡ true }
    requires last { last ≡ not (holds_ours (contents_of old.sequence.now)) }
    ensures answer { written_reply result ≡ counted (parameters_to_write old.entry.sequence.now value.now (length buffer.old)) }
    ensures left { buffer.new ≡ leaves (parameters_to_write old.entry.sequence.now value.now (length buffer.old)) buffer.old }
{
    if MAX_SEQUENCE < value.len() {
        return Err(Refusal::SEQUENCE_TOO_LONG);
    }
    let renewal = Renewal { old, value, last };
    let size = size_of(renewal);
    if MAX_SEQUENCE < size.bytes {
        return Err(Refusal::SEQUENCE_TOO_LONG);
    }
    if buffer.len() < size.bytes {
        return Err(Refusal::NO_ROOM_TO_WRITE);
    }
    if MAX_PARAMETERS < size.count {
        return Err(Refusal::TOO_MANY_PARAMETERS);
    }
    put_sequence(renewal, buffer);
    Ok(size.bytes)
}
