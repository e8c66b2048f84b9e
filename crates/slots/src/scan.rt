// A list on the wire looked up in the slots.
ghost use Rattle.std.specs.Prelude.{false, ◌≡◌, ◌*◌, ◌≤◌, length, drop};
ghost use Rattle.lists.specs.Wire.{entries, version_bytes};
ghost use Rattle.slots.specs.Limits.{group};
ghost use Rattle.slots.specs.Slots.{FromHit, Passed, Scanned};

use crate::FEW;
use crate::slot::{Slots, word_at};
use lists::{VERSION_BYTES, turned};

// The entries that are looked up at a time.
const GROUP: usize = 16;
// The bytes that they take.
const GROUP_BYTES: usize = GROUP * VERSION_BYTES;

// Looks the list's entries up and empties the slot of each that stands there. It answers the part of the list that it has
// not looked up: no entry, or what follows one of the table's first entries, since passes for the entries before that one
// are then quicker. (A `loop`, since each step goes as far as the next hit.)
#[tactic(auto, using(crate::proofs::Laws::scan_on, crate::proofs::Lists::list_rules))]
pub(crate) fn scan<'a>(slots: &mut Slots, table: &[u32], bytes: &'a [u8]) -> &'a [u8]
    ensures scanned { Scanned slots.old.words slots.new.words (entries bytes.now) (entries result.now) slots.old.factor.value }
    ensures kept { slots.new.factor ≡ slots.old.factor }
{
    let mut rest = bytes;
    loop {
        let hit = from_hit(&*slots, rest);
        if hit.len() < VERSION_BYTES {
            return hit;
        }
        let word = word_at(hit, 0);
        slots.empty(word);
        rest = &hit[VERSION_BYTES..];
        if is_among_first(table, word) {
            return rest;
        }
    }
}

// Whether the word is that of one of the table's first entries.
fn is_among_first(table: &[u32], word: u32) -> bool {
    table
        .iter()
        .take(FEW)
        .any(|version| turned(*version) == word)
}

// The list from its first entry on that stands in its slot; no entry where none does. (A `while`, since a step is of GROUP
// entries, from any place on.)
fn from_hit<'a>(slots: &Slots, bytes: &'a [u8]) -> &'a [u8]
    ensures { FromHit slots.now.words (entries bytes.now) (entries result.now) slots.now.factor.value }
{
    let mut rest = bytes;
    while GROUP_BYTES <= rest.len() && !has_hit(slots, rest) {
        rest = &rest[GROUP_BYTES..];
    }
    from_hit_in_rest(slots, rest)
}

// Whether one of the list's first GROUP entries stands in its slot. So many lookups are one piece of code without a loop,
// and with one way out.
#[tactic(auto, using(crate::proofs::Laws::pass_over, crate::proofs::Lists::list_rules))]
fn has_hit(slots: &Slots, bytes: &[u8]) -> bool
    requires { group * version_bytes ≤ length bytes.now }
    ensures { result ≡ false → Passed slots.now.words (entries bytes.now) (drop group (entries bytes.now)) slots.now.factor.value }
{
    for k in 0..GROUP {
        if slots.stands(word_at(bytes, k)) {
            return true;
        }
    }
    false
}

// The same as `from_hit`, entry by entry.
#[tactic(auto, using(crate::proofs::Laws::pass_over, crate::proofs::Lists::list_rules))]
fn from_hit_in_rest<'a>(slots: &Slots, bytes: &'a [u8]) -> &'a [u8]
    ensures { FromHit slots.now.words (entries bytes.now) (entries result.now) slots.now.factor.value }
{
    let count = bytes.len() / VERSION_BYTES;
    for i in 0..count {
        if slots.stands(word_at(bytes, i)) {
            return &bytes[i * VERSION_BYTES..];
        }
    }
    &bytes[count * VERSION_BYTES..]
}
