// The walk over a sequence: how many parameters there are, where Version Information lies, the first identifiers.
ghost use Rattle.std.specs.Prelude.{◌≡◌, length};
ghost use Rattle.refusals.specs.Reply.{read_reply};
ghost use Rattle.parameters.specs.Limits.{max_parameters};
ghost use Rattle.parameters.specs.Sequence.{field_at, fields_of};
ghost use Rattle.parameters_reader.specs.Walking.{Noted, carried_there, noted, or_here, passage_of};

use lists::Span;
use parameters::{Parameter, Parameters, VERSION_INFORMATION, read_parameter};
use refusals::Refusal;

// What the walk tells: how many parameters there are, and where the value of Version Information lies.
#[derive(Clone, Copy)]
pub(crate) struct Walked {
    pub count: usize,
    pub value: Option<Span>,
}

// Walks over a sequence, and notes the first identifiers, as many as there is room for. Refusal: 81. (It keeps the place
// where Version Information begins, a number: an Option kept over the turns was copied through memory at each of them.)
pub(crate) fn walk(parameters: Parameters, ids: &mut [u64]) -> Result<Walked, Refusal>
    requires start { parameters.at ≡ 0 }
    requires room { length ids.old ≡ max_parameters }
    ensures answer { read_reply result ≡ passage_of (fields_of parameters.entry.sequence.now) }
    ensures noted { Noted (fields_of parameters.entry.sequence.now) ids.new }
{
    let sequence = parameters.sequence;
    let end = sequence.len();
    let mut at = 0;
    let mut count = 0;
    let mut ours = end;
    for Parameter { id, value } in parameters {
        note(ids, count, id);
        ours = or_here(ours, end, id, at);
        count += 1;
        at = value.end;
    }
    if at < end {
        return Err(Refusal::RUNS_PAST_THE_END);
    }
    let value = carried_at(sequence, ours);
    Ok(Walked { count, value })
}

// Puts an identifier at a place, if there is such a place.
fn note(ids: &mut [u64], place: usize, id: u64)
    ensures { ids.new ≡ noted ids.old place id }
{
    if place < ids.len() {
        ids[place] = id;
    }
}

// Where Version Information begins: where it did, or else, if this is it, at this place.
fn or_here(ours: usize, missing: usize, id: u64, at: usize) -> usize
    ensures { result ≡ or_here ours missing id at }
{
    if ours != missing {
        return ours;
    }
    if id != VERSION_INFORMATION {
        return missing;
    }
    at
}

// What is carried, where Version Information begins at a place, or is missing where the place is the end.
fn carried_at(sequence: &[u8], ours: usize) -> Option<Span>
    ensures { result ≡ carried_there (field_at sequence.now ours) }
{
    Some(read_parameter(sequence, ours).ok()?.value)
}
