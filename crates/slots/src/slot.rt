// Words and their slots. A word is a version turned, as an entry of a list is read by one load.
ghost use Rattle.std.specs.Prelude.{◌≡◌, ◌<◌, ◌≤◌, ◌/◌, ◌^◌, eqb, length, get_or};
ghost use Rattle.lists.specs.Wire.{entries, turned, version_bytes};
ghost use Rattle.slots.specs.Limits.{slot_count};
ghost use Rattle.slots.specs.Slots.{slot_of, filler_of, Emptied, IsFactor};

use lists::{VERSION_BYTES, big_endian};

// How many slots there are.
const SLOTS: usize = 4096;

// What a word is multiplied by, for its slot: 1 has another slot than 0.
#[derive(Clone, Copy)]
pub(crate) struct Factor {
    pub(crate) value: u32,
    ghost kept: { IsFactor value },
}

impl Factor {
    // The slot of a word under the factor.
    #[tactic(auto, unfolding(crate::specs::Slots::slot_of))]
    pub(crate) fn slot_of(self, word: u32) -> usize
        ensures { (result ≡ slot_of word self.value) × (result < slot_count) }
    {
        let product = u64::from(word) * u64::from(self.value);
        // (`as`: Rust has no From between these widths; that the value fits is proved.)
        (product / 0x100000 % (SLOTS as u64)) as usize
    }
}

// The slots, and the factor that gives words their slots.
#[derive(Drop)]
pub(crate) struct Slots {
    pub(crate) words: [u32; SLOTS],
    pub(crate) factor: Factor,
    ghost size: { length words ≡ slot_count },
}

impl Slots {
    // Slots with nothing put into them.
    pub(crate) fn new(factor: Factor) -> Self {
        Slots {
            words: [0; SLOTS],
            factor,
        }
    }

    // Puts a word into its slot.
    pub(crate) fn put(&mut self, word: u32) {
        let slot = self.factor.slot_of(word);
        self.words[slot] = word;
    }

    // Whether a word stands in its slot.
    pub(crate) fn stands(&self, word: u32) -> bool
        ensures { result ≡ eqb (get_or self.now.words (slot_of word self.now.factor.value) 0) word }
    {
        let slot = self.factor.slot_of(word);
        self.words[slot] == word
    }

    // Empties the slot of a word.
    pub(crate) fn empty(&mut self, word: u32)
        ensures emptied { Emptied self.old.words self.new.words (slot_of word self.old.factor.value) }
        ensures kept { self.new.factor ≡ self.old.factor }
    {
        let slot = self.factor.slot_of(word);
        self.words[slot] = filler(slot);
    }
}

// The entry at a place of a list on the wire, turned. (`lists` has the same for itself: no public function requires
// anything, so it is not lent.)
pub(crate) fn word_at(bytes: &[u8], place: usize) -> u32
    requires { place < length bytes.now / version_bytes }
    ensures { (result ≡ turned (get_or (entries bytes.now) place 0)) × (get_or (entries bytes.now) place 0 < 2 ^ 32) }
{
    let at = place * VERSION_BYTES;
    big_endian(bytes[at + 3], bytes[at + 2], bytes[at + 1], bytes[at])
}

// What an empty slot holds: a word that has another slot.
fn filler(slot: usize) -> u32
    ensures { result ≡ filler_of slot }
{
    if slot == 0 { 1 } else { 0 }
}
