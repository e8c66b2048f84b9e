// The factor of the slots. No answer rests on it: two words in one slot cost another round over the list.
ghost use Rattle.std.specs.Prelude.{◌<◌};
ghost use Rattle.slots.specs.Limits.{slot_count};

use crate::rounds::Mark;
use crate::slot::Factor;
use lists::turned;

// The factors: the first 32 bits of the fractions of the square roots of the first eight primes, the last bit set, since
// an odd factor sends no two words to one product.
const FACTORS: [Factor; 8] = [
    Factor { value: 0x6a09e667 },
    Factor { value: 0xbb67ae85 },
    Factor { value: 0x3c6ef373 },
    Factor { value: 0xa54ff53b },
    Factor { value: 0x510e527f },
    Factor { value: 0x9b05688d },
    Factor { value: 0x1f83d9ab },
    Factor { value: 0x5be0cd19 },
];
// So many words have a bit for each slot.
const WORDS: usize = 64;

// The first factor under which no two entries that are not judged yet share a slot; where there is none, the first of
// those under which the fewest do.
pub(crate) fn best_factor(table: &[u32], marks: &[Mark]) -> Factor {
    let mut best = FACTORS[0];
    let mut least = usize::MAX;
    for factor in FACTORS {
        let count = clashes(table, marks, factor);
        if count == 0 {
            return factor;
        }
        if count < least {
            least = count;
            best = factor;
        }
    }
    best
}

// How many entries that are not judged yet have a slot under the factor that one before them has.
fn clashes(table: &[u32], marks: &[Mark], factor: Factor) -> usize {
    let mut taken = [0u64; WORDS];
    let mut count = 0;
    for (version, mark) in table.iter().zip(marks) {
        if *mark != Mark::Absent && take(&mut taken, factor.slot_of(turned(*version))) {
            count += 1;
        }
    }
    count
}

// Takes a slot. Whether it was taken before.
fn take(taken: &mut [u64; WORDS], slot: usize) -> bool
    requires { slot < slot_count }
{
    let place = slot / 64;
    let bit = 1u64 << (slot % 64);
    let word = taken[place];
    taken[place] = word | bit;
    word & bit != 0
}
