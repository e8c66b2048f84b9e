// Versions: the reserved numbers, tables of versions and of compatible pairs, sets of table entries as words. Every
// function answers for every input.
#![tactic(auto)]

pub mod pairs; // compatible pairs
pub mod table; // reserved numbers, tables and lists
pub mod words; // sets of table entries as words

// The most entries that a table of versions has.
pub const MAX_TABLE: usize = 64;
// The most pairs that a table of compatible pairs has.
pub const MAX_PAIRS: usize = 1024;
// The most reserved numbers that are sent beside a list of versions.
pub const MAX_RESERVED: usize = 4;
// The bits of a word; a table has no more entries.
pub const WORD_BITS: usize = 64;
