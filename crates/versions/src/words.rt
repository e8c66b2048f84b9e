// Sets of table entries as words: bit j of a word tells whether table entry j is in the set.
ghost use Rattle.std.specs.Prelude.{◌≡◌, take};
ghost use Rattle.versions.specs.Words.{marked, word_bits};

use crate::WORD_BITS;
use crate::table::place_of;

// The word with the bit set of the version's first place in the table. A version that is not among the first WORD_BITS
// entries leaves the word as it is. All other bits stay as they are, those past the table too.
pub fn mark(table: &[u32], version: u32, word: u64) -> u64
    ensures { result ≡ marked (take word_bits table.now) version word }
{
    let Some(place) = place_of(table, version) else {
        return word;
    };
    if WORD_BITS <= place {
        return word;
    }
    word | (1u64 << place)
}
