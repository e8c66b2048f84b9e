// Transport parameters (RFC 9000 section 18): what a sequence of them is, one parameter of it, and the walk over them. The
// reader of a whole sequence is in parameters_reader, the writer in parameters_writer.
#![tactic(auto)]

ghost use Rattle.std.specs.Prelude.{ℕ, ◌≡◌, ◌≤◌, ◌<◌, length, get_or};
ghost use Rattle.std.specs.Result.{MatchResult};
ghost use Rattle.std.specs.Iterator.{YieldsFirst, item_count};
ghost use Rattle.parameters.specs.Items.{items_left};
ghost use Rattle.parameters.specs.Limits.{max_sequence};
ghost use Rattle.refusals.specs.Reply.{read_reply};
ghost use Rattle.parameters.specs.Sequence.{field_at};

use integers::read_integer;
use lists::Span;
use refusals::Refusal;

// The most bytes of a sequence.
pub const MAX_SEQUENCE: usize = 16384;
// The most parameters of a sequence.
pub const MAX_PARAMETERS: usize = 64;
// The identifier of version_information (RFC 9368 section 10.1).
pub const VERSION_INFORMATION: u64 = 0x11;

// A parameter where it lies in a sequence: its identifier, and where its value lies.
#[derive(Clone, Copy)]
pub struct Parameter {
    pub id: u64,
    pub value: Span,
}

// Reads the parameter that begins at a place of a sequence. Refusal: 81 (a field of it runs past the end, or the place is
// at the end or past it). It changes nothing.
#[inline(always)]
#[tactic(auto, using(crate::proofs::Places::reading), unfolding(crate::specs::Sequence::field_at, crate::specs::Sequence::behind_id))]
pub fn read_parameter(sequence: &[u8], at: usize) -> Result<Parameter, Refusal>
    ensures { read_reply result ≡ field_at sequence.now at }
{
    if sequence.len() <= at {
        return Err(Refusal::RUNS_PAST_THE_END);
    }
    let id = read_integer(&sequence[at..])?;
    let behind_id = at + id.width;
    let length = read_integer(&sequence[behind_id..])?;
    let start = behind_id + length.width;
    // (`as`: Rust has no From between these widths; that the value fits is proved.)
    let room = (sequence.len() - start) as u64;
    if room < length.value {
        return Err(Refusal::RUNS_PAST_THE_END);
    }
    // (`as`: Rust has no From between these widths; that the value fits is proved.)
    let end = start + length.value as usize;
    Ok(Parameter {
        id: id.value,
        value: Span { start, end },
    })
}

// The parameters of a sequence, in their order. It ends where the sequence does, or at a parameter that cannot be read.
#[derive(Clone, Copy)]
pub struct Parameters<'a> {
    pub sequence: &'a [u8],
    pub at: usize,
    ghost short: { length sequence.now ≤ max_sequence },
    ghost bytes: { (i : ℕ) → get_or sequence.now i 0 < 256 },
}

impl<'a> Parameters<'a> {
    // Refusal: 80 (over MAX_SEQUENCE bytes).
    pub fn of(sequence: &'a [u8]) -> Result<Parameters<'a>, Refusal>
        ensures { MatchResult result (λ p. (p.sequence.now ≡ sequence.now) × (p.at ≡ 0)) (λ r. (r.0 ≡ 80) × (max_sequence < length sequence.now)) }
    {
        if MAX_SEQUENCE < sequence.len() {
            return Err(Refusal::SEQUENCE_TOO_LONG);
        }
        Ok(Parameters { sequence, at: 0 })
    }
}

impl<'a> Iterator for Parameters<'a> {
    type Item = Parameter;

    ghost next_gives = { YieldsFirst (λ p. items_left p.sequence.now p.at) };

    ghost remaining = { item_count (λ p. items_left p.sequence.now p.at) };

    #[inline(always)]
    #[tactic(auto, using(crate::proofs::Items::items))]
    fn next(&mut self) -> Option<Parameter> {
        let parameter = read_parameter(self.sequence, self.at).ok()?;
        self.at = parameter.value.end;
        Some(parameter)
    }
}
