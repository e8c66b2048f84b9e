// Own lists as words: bit j of an entry's word tells whether table entry j may be answered.
ghost use Rattle.std.specs.Prelude.{true, [], ◌≡◌};
ghost use Rattle.versions.specs.Limits.{max_table};
ghost use Rattle.versions.specs.Pairs.{pairs_keep_rule};
ghost use Rattle.attempt.specs.Attempt.{padded};
ghost use Rattle.attempt.specs.OwnList.{rows_for};

use versions::MAX_TABLE;
use versions::table::{Table, place_of};
use versions::words::mark;

// Puts the words of all table entries, in table order, in place of zeros. It goes over the pairs once and over the barred
// pairs once: the word of a barred pair's first member loses the bit of its second. No entry loses its own, since the two
// differ. (In place: with the words by value a start held further copies of them on the stack.)
pub(crate) fn put_rows(
    rows: &mut [u64; MAX_TABLE],
    table: Table,
    pairs: &[[u32; 2]],
    barred: &[[u32; 2]],
)
    requires { (rows.old ≡ padded max_table []) × (pairs_keep_rule barred.now ≡ true) }
    ensures { rows.new ≡ padded max_table (rows_for table.entry.versions.now table.entry.versions.now pairs.now barred.now) }
{
    let versions = table.versions;
    mark_own(&mut *rows, table);
    mark_pairs(&mut *rows, table, pairs);
    for excluded in barred.iter().rev() {
        if let Some(from) = place_of(versions, excluded[0]) {
            let bit = mark(versions, excluded[1], 0);
            rows[from] = (rows[from] | bit) ^ bit;
        }
    }
}

// Where nothing is barred: the word of a pair's first member gets the bit of its second.
fn mark_pairs(rows: &mut [u64; MAX_TABLE], table: Table, pairs: &[[u32; 2]])
    requires { rows.old ≡ padded max_table (rows_for table.versions.now table.versions.now [] []) }
    ensures { rows.new ≡ padded max_table (rows_for table.entry.versions.now table.entry.versions.now pairs.now []) }
{
    let versions = table.versions;
    for pair in pairs.iter().rev() {
        if let Some(from) = place_of(versions, pair[0]) {
            rows[from] = mark(versions, pair[1], rows[from]);
        }
    }
}

// Where there are no pairs: each entry has its own bit.
fn mark_own(rows: &mut [u64; MAX_TABLE], table: Table)
    requires { rows.old ≡ padded max_table [] }
    ensures { rows.new ≡ padded max_table (rows_for table.entry.versions.now table.entry.versions.now [] []) }
{
    let versions = table.versions;
    for (i, version) in versions.iter().enumerate() {
        rows[i] = mark(versions, *version, 0);
    }
}
