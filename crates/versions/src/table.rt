// Reserved numbers, tables and lists of versions.
ghost use Rattle.std.specs.Prelude.{true, ◌≡◌, ◌≤◌, ◌+◌, length, drop};
ghost use Rattle.std.specs.Option.{option_map};
ghost use Rattle.versions.specs.Reserved.{reserved_keep_rule};
ghost use Rattle.versions.specs.Table.{elem, place_in, place_of, table_if, table_keeps_rule};
ghost use Rattle.versions.specs.Version.{reserved, usable};

use crate::{MAX_RESERVED, MAX_TABLE};

// What is kept of a version to tell whether it is reserved: the low half of each of its four bytes.
const LOW_HALVES: u32 = 0x0f0f_0f0f;
// What is kept of a reserved version, and of no other: 10 in each low half.
const RESERVED_LOW_HALVES: u32 = 0x0a0a_0a0a;

// Whether the low half of each byte of the version is 10 (0x?a?a?a?a, RFC 9000 section 15).
pub fn is_reserved(version: u32) -> bool
    ensures { result ≡ reserved version }
{
    (version & LOW_HALVES) == RESERVED_LOW_HALVES
}

// Whether a table or a pair may hold the version: it is neither 0 nor reserved.
#[tactic(auto, unfolding(crate::specs::Version::usable))]
pub fn is_usable(version: u32) -> bool
    ensures { result ≡ usable version }
{
    version != 0 && !is_reserved(version)
}

// Whether the version occurs in the list.
#[tactic(auto, using(crate::proofs::Searched::elem_any))]
pub fn contains(list: &[u32], version: u32) -> bool
    ensures { result ≡ elem version list.now }
{
    list.contains(&version)
}

// How many entries the search for a place compares at a time.
const GROUP: usize = 8;

// The first place of the version in the list, counted from 0; none where it does not occur. Whole groups without the version
// are passed over first.
pub fn place_of(list: &[u32], version: u32) -> Option<usize>
    ensures { result ≡ place_in version list.now }
{
    for i in passed_over(list, version)..list.len() {
        if list[i] == version {
            return Some(i);
        }
    }
    None
}

// The entries of the groups at the front that do not have the version: the place in the whole list is that many more than
// the one in the rest.
fn passed_over(list: &[u32], version: u32) -> usize
    ensures inside { result ≤ length list.now }
    ensures searched { place_of version list.now ≡ result + place_of version (drop result list.now) }
{
    let groups = list.len() / GROUP;
    for i in 0..groups {
        let from = i * GROUP;
        if contains(&list[from..from + GROUP], version) {
            return from;
        }
    }
    groups * GROUP
}

// Whether a table of versions keeps its rule: 1 to MAX_TABLE entries, none 0, none reserved, none twice.
#[tactic(auto, unfolding(crate::specs::Table::table_keeps_rule))]
pub fn is_table(table: &[u32]) -> bool
    ensures { result ≡ table_keeps_rule table.now }
{
    if table.is_empty() || MAX_TABLE < table.len() {
        return false;
    }
    for i in 0..table.len() {
        if !is_usable(table[i]) {
            return false;
        }
        if contains(&table[i + 1..], table[i]) {
            return false;
        }
    }
    true
}

// A table of versions that keeps its rule, best first.
#[derive(Clone, Copy)]
pub struct Table<'a> {
    pub versions: &'a [u32],
    ghost rule: { table_keeps_rule versions.now ≡ true },
}

impl<'a> Table<'a> {
    // The versions as a table; none where they break its rule.
    pub fn of(versions: &'a [u32]) -> Option<Table<'a>>
        ensures { option_map (λ table. table.versions.now) result ≡ table_if versions.now }
    {
        if is_table(versions) {
            Some(Table { versions })
        } else {
            None
        }
    }
}

// Whether reserved numbers to send keep their rule: at most MAX_RESERVED, each reserved, none twice. Of more than that it
// reads none. (The loop is `is_table`'s but for the test of an entry. To share it the test would go in as a closure, with
// clauses longer than the loop; the argument is shared: `Once`, proofs/Lists.antt.)
#[tactic(auto, unfolding(crate::specs::Reserved::reserved_keep_rule))]
pub fn are_reserved(numbers: &[u32]) -> bool
    ensures { result ≡ reserved_keep_rule numbers.now }
{
    if MAX_RESERVED < numbers.len() {
        return false;
    }
    for i in 0..numbers.len() {
        if !is_reserved(numbers[i]) {
            return false;
        }
        if contains(&numbers[i + 1..], numbers[i]) {
            return false;
        }
    }
    true
}
