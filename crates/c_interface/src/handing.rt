// What C hands over as a number, and a result handed over to C.
ghost use Rattle.std.specs.Prelude.{◌≡◌};
ghost use Rattle.std.specs.Result.{result_unwrap_or};
ghost use Rattle.refusals.specs.Reply.{refusal_of, read_reply};
ghost use Rattle.c_interface.specs.Numbers.{named};

use refusals::Refusal;

// The value of an answer goes into a lent place, and 0 is returned; a refusal leaves the place as found, and its number is
// returned.
pub(crate) fn hand_over<T: Copy>(answer: Result<T, Refusal>, place: &mut T) -> u32
    ensures returned { result ≡ refusal_of (read_reply answer) }
    ensures left { place.new ≡ result_unwrap_or answer place.old }
{
    match answer {
        Ok(value) => {
            *place = value;
            0
        }
        Err(refusal) => u32::from(refusal),
    }
}

// The kind that a number names: 0 the first, 1 the second, another number none.
#[tactic(auto, unfolding(crate::specs::Numbers::named))]
pub(crate) fn named<K: Copy>(first: K, second: K, number: u32) -> Option<K>
    ensures { result ≡ named first second number }
{
    match number {
        0 => Some(first),
        1 => Some(second),
        _ => None,
    }
}
