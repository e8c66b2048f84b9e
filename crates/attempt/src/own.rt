// The own list of an attempt: every table entry that is the attempted version, or is paired from it by a pair that is not
// barred.
ghost use Rattle.std.specs.Prelude.{◌≡◌, length, take};
ghost use Rattle.versions.specs.Limits.{max_table};
ghost use Rattle.versions.specs.Table.{elem};
ghost use Rattle.versions.specs.Words.{members};
ghost use Rattle.attempt.specs.Attempt.{over, own_list_of};
ghost use Rattle.attempt.specs.OwnList.{own_in, word_of};

use crate::{Attempt, OwnList};
use versions::MAX_TABLE;

// The own list of an attempt, for any record value. It refuses nothing; a count past the table's array counts
// as the whole array.
pub fn own_list(attempt: Attempt) -> OwnList
    ensures { result ≡ own_list_of attempt }
{
    let table = attempt.table;
    let rows = attempt.rows;
    let count = attempt.table_len.min(MAX_TABLE);
    let word = word_of(&table[..count], &rows, attempt.attempted);
    let mut versions = [0u32; MAX_TABLE];
    let found = put_members(&table[..count], word, &mut versions);
    OwnList {
        versions,
        count: found,
    }
}

// Puts the table entries whose bits are set in the word at the front of the places, and answers how many they are. Of a
// table with more than MAX_TABLE entries it reads the first MAX_TABLE. Bits at or past the table's length add nothing. It
// refuses nothing; the places past the last entry keep their values.
pub fn put_members(table: &[u32], word: u64, places: &mut [u32; MAX_TABLE]) -> usize
    ensures counted { result ≡ length (members word (take max_table table.now)) }
    ensures left { places.new ≡ over (members word (take max_table table.now)) places.old }
{
    let count = table.len().min(room_of(*places));
    let mut found = 0;
    let mut rest = word;
    // No index is counted here: each turn goes to the next set bit, so that unset ones cost nothing.
    while 0 < rest {
        // (`as`: Rust has no From between these widths; that the value fits is proved.)
        let lowest = rest.trailing_zeros() as usize;
        if count <= lowest {
            return found;
        }
        places[found] = table[lowest];
        found += 1;
        // Without its lowest bit.
        rest &= rest - 1;
    }
    found
}

// How many places there are. The array comes by value, since the length of one behind a reference is not known to the
// proof; the compiler leaves the copy out.
fn room_of(places: [u32; MAX_TABLE]) -> usize
    ensures named { result ≡ max_table }
    ensures counted { result ≡ length places }
{
    MAX_TABLE
}

// Whether a version is in the own list for an attempted one, read from a table and the words of its entries. It
// refuses nothing; an entry without a word has an empty own list, and bits at or past the table's length add nothing.
pub fn is_own<'a>(table: &'a [u32], rows: &'a [u64], attempted: u32, version: u32) -> bool
    ensures { result ≡ elem version (own_in table.now rows.now attempted) }
{
    let word = word_of(table, rows, attempted);
    is_member(table, word, version)
}

// Whether the version is a table entry whose bit is set in the word.
fn is_member(table: &[u32], word: u64, version: u32) -> bool
    ensures { result ≡ elem version (members word table.now) }
{
    let mut rest = word;
    for entry in table {
        if rest % 2 == 1 {
            if *entry == version {
                return true;
            }
        }
        rest /= 2;
    }
    false
}

// The word of a version: that of its first place in the table, 0 where it has none.
fn word_of<'a>(table: &'a [u32], rows: &'a [u64], version: u32) -> u64
    ensures { result ≡ word_of table.now rows.now version }
{
    for (entry, word) in table.iter().zip(rows) {
        if *entry == version {
            return *word;
        }
    }
    0
}
