// The choice of a version: the first entry of the table that occurs in the list.
#![tactic(auto)]

ghost use Rattle.std.specs.Prelude.{◌≡◌};
ghost use Rattle.refusals.specs.Reply.{read_reply};
ghost use Rattle.choosing.specs.Choice.{choose, preferred};

use lists::{MAX_LIST, OnWire, Versions};
use refusals::Refusal;
use slots::first_in_bytes;
use versions::table::is_table;

// A list that is searched for the most preferred entry of a table.
pub trait Searched: Versions {
    // The first entry of any table that occurs in the list, or none. It judges neither of them.
    fn first_of(self, table: &[u32]) -> Option<u32>
        ensures { result ≡ preferred table.now (Self.versions self) };
}

impl<'a> Searched for &'a [u32] {
    fn first_of(self, table: &[u32]) -> Option<u32> {
        for version in table {
            if self.holds(*version) {
                return Some(*version);
            }
        }
        None
    }
}

impl<'a, const N: usize> Searched for &'a [u32; N] {
    fn first_of(self, table: &[u32]) -> Option<u32> {
        let numbers: &[u32] = self;
        numbers.first_of(table)
    }
}

impl<'a> Searched for OnWire<'a> {
    #[tactic(auto, using(slots::proofs::Laws::found_inside, crate::proofs::Chosen::preferred_found))]
    fn first_of(self, table: &[u32]) -> Option<u32> {
        let place = first_in_bytes(table, self.0)?;
        Some(table[place])
    }
}

// The first entry of any table that occurs in the list, or none. It judges neither of them.
pub fn prefer<L: Searched>(table: &[u32], list: L) -> Option<u32>
    ensures { result ≡ preferred table.now (L.versions list) }
{
    list.first_of(table)
}

// The choice from a list. Refusals, in order: 40 (over MAX_LIST entries), 41 (the table breaks its rule),
// 42 (nothing of the table is in the list).
#[tactic(auto, using(crate::proofs::Chosen::found_or_nothing), unfolding(crate::specs::Choice::choose))]
pub fn choose_from<L: Searched>(table: &[u32], list: L) -> Result<u32, Refusal>
    ensures { read_reply result ≡ choose table.now (L.versions list) }
{
    if MAX_LIST < list.count() {
        return Err(Refusal::LIST_TOO_LONG);
    }
    if !is_table(table) {
        return Err(Refusal::BAD_TABLE);
    }
    prefer(table, list).ok_or(Refusal::NOTHING_IN_COMMON)
}
