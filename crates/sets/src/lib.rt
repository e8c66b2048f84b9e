// Lists as words, and a second way to choose: bit j of a word tells whether table entry j occurs in the list. It answers
// as the plain way does, on every table and list.
#![tactic(auto)]

ghost use Rattle.std.specs.Prelude.{◌≡◌};
ghost use Rattle.refusals.specs.Reply.{Reply.answered, read_reply};
ghost use Rattle.refusals.specs.Rule.{judged};
ghost use Rattle.refusals.specs.declared.Call.TheVariants.{Reading};
ghost use Rattle.versions.specs.Words.{members};
ghost use Rattle.choosing.specs.Choice.{choice_rules, choose, or_nothing_in_common, preferred};
ghost use Rattle.sets.specs.Sets.{held_word, list_word, count_held, choose_from_word};
ghost use Rattle.sets.specs.Judging.{table_reply};

use lists::{MAX_LIST, Versions};
use refusals::Refusal;
use versions::table::Table;

// The word of a list: bit j is set where table entry j occurs in the list, so it is 0 where nothing is in common.
// Refusals, in order: 40 (over MAX_LIST entries), 41 (the table breaks its rule).
pub fn list_word<L: Versions>(table: &[u32], list: L) -> Result<u64, Refusal>
    ensures { read_reply result ≡ list_word table.now (L.versions list) }
{
    let table = judge(table, list)?;
    Ok(word_in(table, list))
}

// The choice from a list by its word: the answer of `choosing::choose_from`. Refusals, in order: 40, 41, 42 (the word is
// 0).
pub fn choose_by_word<L: Versions>(table: &[u32], list: L) -> Result<u32, Refusal>
    ensures { read_reply result ≡ choose table.now (L.versions list) }
{
    let table = judge(table, list)?;
    at_lowest(table, word_in(table, list))
}

// The choice from a word, such as several lists' joined: the entry at its lowest set place. Bits at or past the table's
// length change nothing. Refusals, in order: 41 (the table breaks its rule), 42 (no bit of a table entry is set).
#[tactic(auto, unfolding(crate::specs::Sets::choose_from_word))]
pub fn choose_from_word(table: &[u32], word: u64) -> Result<u32, Refusal>
    ensures { read_reply result ≡ choose_from_word table.now word }
{
    let Some(table) = Table::of(table) else {
        return Err(Refusal::BAD_TABLE);
    };
    at_lowest(table, word)
}

// How many table entries occur in the list, each counted once. Refusals, in order: 40 (over MAX_LIST entries), 41 (the
// table breaks its rule). Nothing in common is no refusal, and the count 0.
pub fn count_held<L: Versions>(table: &[u32], list: L) -> Result<usize, Refusal>
    ensures { read_reply result ≡ count_held table.now (L.versions list) }
{
    let table = judge(table, list)?;
    // (`as`: Rust has no From between these widths; that the value fits is proved.)
    Ok(word_in(table, list).count_ones() as usize)
}

// The table, where neither is refused: 40 (over MAX_LIST entries), 41 (the table breaks its rule).
fn judge<'a, L: Versions>(table: &'a [u32], list: L) -> Result<Table<'a>, Refusal>
    ensures { table_reply result ≡ judged Reading (choice_rules table.now (L.versions list)) (answered table.now) }
{
    if MAX_LIST < list.count() {
        return Err(Refusal::LIST_TOO_LONG);
    }
    Table::of(table).ok_or(Refusal::BAD_TABLE)
}

// The table entry at the lowest set place of a word, which is the most preferred of its members. No table has an entry at
// place 64, which is that of the word 0.
fn at_lowest(table: Table, word: u64) -> Result<u32, Refusal>
    ensures { read_reply result ≡ or_nothing_in_common (preferred table.entry.versions.now (members word table.entry.versions.now)) }
{
    // (`as`: Rust has no From between these widths; that the value fits is proved.)
    let lowest = word.trailing_zeros() as usize;
    let found = table.versions.get(lowest).copied();
    found.ok_or(Refusal::NOTHING_IN_COMMON)
}

// The word of a list, from the last table entry down: each one's bit comes below those of the entries after it.
fn word_in<L: Versions>(table: Table, list: L) -> u64
    ensures { result ≡ held_word table.entry.versions.now (L.versions list) }
{
    let mut word = 0;
    for i in (0..table.versions.len()).rev() {
        word = word * 2 + u64::from(list.holds(table.versions[i]));
    }
    word
}
