// The first entry of a table that occurs in a list on the wire. Of a long list and a large table the entries are looked
// up in slots, so that the time grows with list plus table and not with their product.
#![tactic(auto)]

ghost use Rattle.std.specs.Prelude.{false, ◌≡◌, ◌<◌, get_or};
ghost use Rattle.lists.specs.Wire.{entries};
ghost use Rattle.versions.specs.Table.{elem};
ghost use Rattle.slots.specs.First.{place_found};

mod factors; // which factor sends the words of a table to slots of their own
mod rounds; // the search by slots
mod scan; // a list looked up in the slots
mod slot; // words and their slots

use crate::rounds::by_slots;
use lists::{VERSION_BYTES, contains_in_bytes};
use versions::MAX_TABLE;

// So many entries, of a table or left by a round, are sought each by a pass over the list. So many of the table's first
// are judged in the first round.
const FEW: usize = 6;
// So many comparisons take no longer than to make the slots.
const CHEAP: usize = 2048;

// The place of the first entry of the table that occurs in a list on the wire, counted from 0; none where none does. It
// judges neither of them.
#[tactic(auto, using(crate::proofs::Laws::first_is), unfolding(crate::specs::First::place_found))]
pub fn first_in_bytes(table: &[u32], bytes: &[u8]) -> Option<usize>
    ensures { result ≡ place_found table.now (entries bytes.now) }
{
    if is_quick(table.len(), bytes.len() / VERSION_BYTES) {
        return by_passes(table, bytes);
    }
    let first = table[0];
    if contains_in_bytes(bytes, first) {
        return Some(0);
    }
    in_parts(table, bytes)
}

// Whether passes over the list are as quick as slots are.
fn is_quick(table: usize, list: usize) -> bool
    ensures { result ≡ false → 0 < table }
{
    table <= FEW || list <= CHEAP / table
}

// The same by slots, where the table's first entry is not in the list. Of a table that is longer than the marks, which no
// choice takes, the front goes by slots and the rest by passes.
#[tactic(auto, using(crate::proofs::Laws::found_inside, crate::proofs::Laws::found_in_front))]
fn in_parts(table: &[u32], bytes: &[u8]) -> Option<usize>
    requires { elem (get_or table.now 0 0) (entries bytes.now) ≡ false }
    ensures { result ≡ place_found table.now (entries bytes.now) }
{
    let (front, rest) = table.split_at(table.len().min(MAX_TABLE));
    if let Some(place) = by_slots(front, bytes) {
        return Some(place);
    }
    by_passes(rest, bytes).map(|place| front.len() + place)
}

// The place of the first entry of the table that occurs in the list, by a pass over the list for each entry.
fn by_passes(table: &[u32], bytes: &[u8]) -> Option<usize>
    ensures { result ≡ place_found table.now (entries bytes.now) }
{
    table
        .iter()
        .position(|version| contains_in_bytes(bytes, *version))
}
