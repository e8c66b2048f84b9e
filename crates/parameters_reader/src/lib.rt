// The reader of a sequence of transport parameters (RFC 9000 section 18). It answers for every input.
#![tactic(auto)]

ghost use Rattle.std.specs.Prelude.{◌≡◌, cond};
ghost use Rattle.refusals.specs.Reply.{read_reply};
ghost use Rattle.parameters.specs.Reading.{read_parameters};
ghost use Rattle.parameters.specs.Sequence.{repeats};
ghost use Rattle.parameters_reader.specs.Sizes.{ids_left};

mod identifiers; // whether an identifier occurs twice
mod sort; // a sort that finds what occurs twice
mod walk; // the walk over a sequence

use crate::identifiers::{few_repeat, many_repeat};
use crate::walk::walk;
use lists::Span;
use parameters::{MAX_PARAMETERS, Parameters};
use refusals::Refusal;

// Where Version Information lies in a sequence, or that it is missing; its value is not judged. Refusals, in order: 80
// (over MAX_SEQUENCE bytes), 81 (a field runs past the end), 82 (an identifier occurs twice), 85 (over MAX_PARAMETERS
// parameters). It changes nothing.
pub fn read_parameters(sequence: &[u8]) -> Result<Option<Span>, Refusal>
    ensures { read_reply result ≡ read_parameters sequence.now }
{
    let parameters = Parameters::of(sequence)?;
    let mut ids = [0u64; MAX_PARAMETERS];
    let walked = walk(parameters, &mut ids)?;
    if MAX_PARAMETERS < walked.count {
        return Err(refusal_of_many(parameters));
    }
    if few_repeat(&ids[..walked.count]) {
        return Err(Refusal::IDENTIFIER_REPEATED);
    }
    Ok(walked.value)
}

// The refusal of a sequence with too many parameters: 82 comes before 85.
fn refusal_of_many(parameters: Parameters) -> Refusal
    ensures { result.0 ≡ cond (repeats (ids_left parameters.entry)) 82 85 }
{
    if many_repeat(parameters) {
        return Refusal::IDENTIFIER_REPEATED;
    }
    Refusal::TOO_MANY_PARAMETERS
}
