// Lists as words, and the second way to choose, as numbers.
ghost use Rattle.std.specs.Prelude.{◌≡◌};
ghost use Rattle.choosing.specs.Choice.{choose};
ghost use Rattle.lists.specs.Wire.{entries};
ghost use Rattle.sets.specs.Sets.{list_word, count_held, choose_from_word};
ghost use Rattle.c_interface.specs.Numbers.{returned, leaving, itself};

use crate::handing::hand_over;
use lists::OnWire;
use sets::{choose_by_word, choose_from_word, count_held, list_word};

// The word of a list, bit j for table entry j: 40, 41, which leave `word` as found; else 0 and the word.
#[unsafe(no_mangle)]
pub extern "C" fn qv_list_word(table: &[u32], list: &[u32], word: &mut u64) -> u32
    ensures answer { result ≡ returned (list_word table.now list.now) }
    ensures left { word.new ≡ leaving itself (list_word table.now list.now) word.old }
{
    hand_over(list_word(table, list), word)
}

// The word of a list as it lies on the wire. Refusals as `qv_list_word`'s.
#[unsafe(no_mangle)]
pub extern "C" fn qv_list_word_from_bytes(table: &[u32], bytes: &[u8], word: &mut u64) -> u32
    ensures answer { result ≡ returned (list_word table.now (entries bytes.now)) }
    ensures left { word.new ≡ leaving itself (list_word table.now (entries bytes.now)) word.old }
{
    hand_over(list_word(table, OnWire(bytes)), word)
}

// The choice from a list by its word, with the answer of `qv_choose`: 40, 41, 42, which leave `version` as found; else 0
// and the chosen version.
#[unsafe(no_mangle)]
pub extern "C" fn qv_choose_by_word(table: &[u32], list: &[u32], version: &mut u32) -> u32
    ensures answer { result ≡ returned (choose table.now list.now) }
    ensures left { version.new ≡ leaving itself (choose table.now list.now) version.old }
{
    hand_over(choose_by_word(table, list), version)
}

// The same from a list as it lies on the wire, with the answer of `qv_choose_from_bytes`.
#[unsafe(no_mangle)]
pub extern "C" fn qv_choose_by_word_from_bytes(
    table: &[u32],
    bytes: &[u8],
    version: &mut u32,
) -> u32
    ensures answer { result ≡ returned (choose table.now (entries bytes.now)) }
    ensures left { version.new ≡ leaving itself (choose table.now (entries bytes.now)) version.old }
{
    hand_over(choose_by_word(table, OnWire(bytes)), version)
}

// The choice from a word; bits at or past the table's length change nothing. 41, 42, which leave `version` as found; else
// 0 and the chosen version.
#[unsafe(no_mangle)]
pub extern "C" fn qv_choose_from_word(table: &[u32], word: u64, version: &mut u32) -> u32
    ensures answer { result ≡ returned (choose_from_word table.now word) }
    ensures left { version.new ≡ leaving itself (choose_from_word table.now word) version.old }
{
    hand_over(choose_from_word(table, word), version)
}

// How many table entries occur in the list: 40, 41, which leave `count` as found; else 0 and the count.
#[unsafe(no_mangle)]
pub extern "C" fn qv_count_held(table: &[u32], list: &[u32], count: &mut usize) -> u32
    ensures answer { result ≡ returned (count_held table.now list.now) }
    ensures left { count.new ≡ leaving itself (count_held table.now list.now) count.old }
{
    hand_over(count_held(table, list), count)
}

// The same of a list as it lies on the wire. Refusals as `qv_count_held`'s.
#[unsafe(no_mangle)]
pub extern "C" fn qv_count_held_from_bytes(table: &[u32], bytes: &[u8], count: &mut usize) -> u32
    ensures answer { result ≡ returned (count_held table.now (entries bytes.now)) }
    ensures left { count.new ≡ leaving itself (count_held table.now (entries bytes.now)) count.old }
{
    hand_over(count_held(table, OnWire(bytes)), count)
}
