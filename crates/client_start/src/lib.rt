// The start of a client's attempt.
#![tactic(auto)]

ghost use Rattle.std.specs.Prelude.{true, ◌++◌, ◌≡◌, ◌≤◌, length, drop};
ghost use Rattle.attempt.specs.Events.{Reachable};
ghost use Rattle.refusals.specs.Reply.{Reply.answered};
ghost use Rattle.refusals.specs.Rule.{judged};
ghost use Rattle.refusals.specs.declared.Call.TheVariants.{Reading};
ghost use Rattle.attempt.specs.Start.{input_of, start_rules, is_accepted, shown_start, start_of, opened};
ghost use Rattle.client_start.specs.Inputs.{given, given_reply};

mod input; // what a start is given
mod words; // the words that the record keeps own lists as

use crate::input::Input;
use crate::words::put_rows;
use attempt::{Attempt, End, MAX_ID};
use journal::empty;
use refusals::Refusal;
use versions::MAX_TABLE;
use versions::pairs::are_pairs;
use versions::table::{Table, contains};

// Starts an attempt with a table, pairs, the pairs that are barred for its flights, the Original Version and our two
// connection IDs. Refusals, in order: 41 (the table breaks its rule), 43 (the pairs or the barred pairs break theirs),
// 44 (the Original Version is not in the table), 45 (a connection ID has over MAX_ID bytes). Else the attempt is open and
// attempts the Original Version.
pub fn start(
    table: &[u32],
    pairs: &[[u32; 2]],
    barred: &[[u32; 2]],
    original: u32,
    destination: &[u8],
    source: &[u8],
) -> Result<Attempt, Refusal>
    ensures shown { shown_start result ≡ start_of (input_of table.now pairs.now barred.now original destination.now source.now) }
    ensures opens { is_accepted (input_of table.now pairs.now barred.now original destination.now source.now) ≡ true →
        Reachable (shown_start result).attempt }
{
    let input = judge(table, pairs, barred, original, destination, source)?;
    Ok(open(input))
}

// What a start is given, or the first of its refusals, in order.
fn judge<'a>(
    table: &'a [u32],
    pairs: &'a [[u32; 2]],
    barred: &'a [[u32; 2]],
    original: u32,
    destination: &'a [u8],
    source: &'a [u8],
) -> Result<Input<'a>, Refusal>
    ensures { given_reply result ≡
        judged Reading (start_rules (input_of table.now pairs.now barred.now original destination.now source.now))
        (answered (input_of table.now pairs.now barred.now original destination.now source.now)) }
{
    let Some(table) = Table::of(table) else {
        return Err(Refusal::BAD_TABLE);
    };
    if !are_pairs(pairs) {
        return Err(Refusal::BAD_PAIRS);
    }
    if !are_pairs(barred) {
        return Err(Refusal::BAD_PAIRS);
    }
    if !contains(table.versions, original) {
        return Err(Refusal::ORIGINAL_NOT_IN_TABLE);
    }
    if MAX_ID < destination.len() {
        return Err(Refusal::CONNECTION_ID_TOO_LONG);
    }
    if MAX_ID < source.len() {
        return Err(Refusal::CONNECTION_ID_TOO_LONG);
    }
    Ok(Input {
        table,
        pairs,
        barred,
        original,
        destination,
        source,
    })
}

// The attempt of an input.
fn open(input: Input) -> Attempt
    ensures { result ≡ opened (given input.entry) }
{
    let places = padded([0u32; MAX_TABLE], input.table.versions);
    let mut rows = [0u64; MAX_TABLE];
    put_rows(&mut rows, input.table, input.pairs, input.barred);
    let destination_places = padded([0u8; MAX_ID], input.destination);
    let source_places = padded([0u8; MAX_ID], input.source);
    Attempt {
        table: places,
        table_len: input.table.versions.len(),
        rows,
        destination: destination_places,
        destination_len: input.destination.len(),
        source: source_places,
        source_len: input.source.len(),
        original: input.original,
        attempted: input.original,
        acted: false,
        heard: false,
        end: End::Open,
        journal: empty(),
    }
}

// A list at the front of an array; the places past it stay as they are.
#[inline(always)]
fn padded<T: Copy, const N: usize>(mut places: [T; N], list: &[T]) -> [T; N]
    requires { length list.now ≤ length places }
    ensures { result ≡ list.now ++ drop (length list.now) places }
{
    places[..list.len()].copy_from_slice(list);
    places
}
