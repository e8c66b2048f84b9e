// Whether an identifier occurs twice. Few are compared each with each. Of many, those below SMALL are marked in an array,
// and the others are sorted, so that no choice of identifiers makes the search slow.
ghost use Rattle.std.specs.Prelude.{false, cond, ◌≡◌, length, replicate, take};
ghost use Rattle.parameters.specs.Sequence.{repeats};
ghost use Rattle.parameters_reader.specs.Sizes.{ids_left, below, from_on, large, max_large, is_seen, seeing};

use crate::sort::sort;
use parameters::{Parameter, Parameters};

// Identifiers below this are marked: those that fit in two bytes.
const SMALL: u64 = 16384;
// As many places as there are identifiers below SMALL.
const PLACES: usize = 16384;
// The most other identifiers of a sequence: each takes four bytes, and its length another one.
const MAX_LARGE: usize = 3276;
// Room for half of them.
const HALF: usize = 1638;

// Whether a number occurs twice; each is compared with those before it.
pub(crate) fn few_repeat(ids: &[u64]) -> bool
    ensures { result ≡ repeats ids.now }
{
    for (i, id) in ids.iter().enumerate() {
        if ids[..i].contains(id) {
            return true;
        }
    }
    false
}

// Whether an identifier of a sequence occurs twice.
pub(crate) fn many_repeat(parameters: Parameters) -> bool
    ensures { result ≡ repeats (ids_left parameters.entry) }
{
    side_repeats(parameters, false) || side_repeats(parameters, true)
}

// Whether one below SMALL does, or, if `above`, one of the others. It stays a function of its own, so that only a sequence
// with too many parameters takes the stack of the searches.
#[inline(never)]
fn side_repeats(parameters: Parameters, above: bool) -> bool
    ensures { result ≡ repeats (cond above
        (from_on large (ids_left parameters.entry))
        (below large (ids_left parameters.entry))) }
{
    if above {
        return large_repeat(parameters);
    }
    small_repeat(parameters)
}

// Whether one below SMALL does.
fn small_repeat(parameters: Parameters) -> bool
    ensures { result ≡ repeats (below large (ids_left parameters.entry)) }
{
    let mut seen = [false; PLACES];
    mark_each(parameters, &mut seen)
}

// Marks each identifier below SMALL in places that have no mark, and answers whether one was marked before. (A `for`: the
// closure of a chain would write to what it captures, and a proof then knows nothing of it.)
fn mark_each(parameters: Parameters, seen: &mut [bool]) -> bool
    requires { seen.old ≡ replicate large false }
    ensures { result ≡ repeats (below large (ids_left parameters.entry)) }
{
    for Parameter { id, .. } in parameters {
        if see(seen, id) {
            return true;
        }
    }
    false
}

// Marks an identifier, if it is below SMALL, and answers whether it was marked before.
fn see(seen: &mut [bool], id: u64) -> bool
    requires { length seen.old ≡ large }
    ensures answer { result ≡ is_seen seen.old id }
    ensures left { seen.new ≡ seeing seen.old id }
{
    if id < SMALL {
        // (`as`: Rust has no From between these widths; that the value fits is proved.)
        let place = id as usize;
        let before = seen[place];
        seen[place] = true;
        return before;
    }
    false
}

// Whether one from SMALL on does. They are sorted.
fn large_repeat(parameters: Parameters) -> bool
    ensures { result ≡ repeats (from_on large (ids_left parameters.entry)) }
{
    let mut numbers = [0u64; MAX_LARGE];
    let mut scratch = [0u64; HALF];
    let count = large_ids(parameters, &mut numbers);
    sort(&mut numbers[..count], &mut scratch)
}

// Puts the identifiers from SMALL on at the front of the numbers, and answers how many they are.
fn large_ids(parameters: Parameters, numbers: &mut [u64]) -> usize
    requires { length numbers.old ≡ max_large }
    ensures count { result ≡ length (from_on large (ids_left parameters.entry)) }
    ensures left { take result numbers.new ≡ from_on large (ids_left parameters.entry) }
{
    let mut count = 0;
    for Parameter { id, .. } in parameters {
        if SMALL <= id {
            numbers[count] = id;
            count += 1;
        }
    }
    count
}
