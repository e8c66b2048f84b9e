// Versions on the wire: big endian, four bytes each; a list is its entries one after the other.
#![tactic(auto)]

ghost use Rattle.std.specs.Prelude.{ℕ, List, ◌≡◌, ◌+◌, ◌≤◌, ◌<◌, ◌*◌, ◌/◌, ◌^◌, ◌||◌, ◌++◌, leb, eqb, length, take, drop, get_or};
ghost use Rattle.versions.specs.Table.{elem};
ghost use Rattle.lists.specs.Limits.{block};
ghost use Rattle.lists.specs.Wire.{number, number_at, turned, entries, entry_at, bytes_of, version_bytes, after_put, after_values};

use versions::table::contains;

// The bytes that a version takes on the wire.
pub const VERSION_BYTES: usize = 4;
// The most entries that a list to choose from has.
pub const MAX_LIST: usize = 16382;
// The entries that a search compares at a time.
const BLOCK: usize = 64;

// A list of versions: as numbers, or as it lies on the wire. A call that takes one answers by its versions alone.
pub trait Versions: Copy {
    // The versions, in their order.
    ghost versions: { Self → List ℕ };

    // How many there are.
    fn count(self) -> usize
        ensures { result ≡ length (versions self) };

    // Whether a version is among them.
    fn holds(self, version: u32) -> bool
        ensures { result ≡ elem version (versions self) };
}

impl<'a> Versions for &'a [u32] {
    ghost versions = { λ list. list.now };

    fn count(self) -> usize {
        self.len()
    }

    fn holds(self, version: u32) -> bool {
        contains(self, version)
    }
}

// The same of an array, as a caller writes a list out.
impl<'a, const N: usize> Versions for &'a [u32; N] {
    ghost versions = { λ list. list.now };

    fn count(self) -> usize {
        let list: &[u32] = self;
        list.len()
    }

    fn holds(self, version: u32) -> bool {
        let list: &[u32] = self;
        contains(list, version)
    }
}

// A list as it lies on the wire. Entries are whole fours; 1 to 3 bytes left over are no entry.
#[derive(Clone, Copy)]
pub struct OnWire<'a>(pub &'a [u8]);

impl<'a> Versions for OnWire<'a> {
    ghost versions = { λ list. entries list.0.now };

    fn count(self) -> usize {
        self.0.len() / VERSION_BYTES
    }

    fn holds(self, version: u32) -> bool {
        contains_in_bytes(self.0, version)
    }
}

// Where a part of a byte string lies: from `start` up to, and not with, `end`.
#[derive(Clone, Copy)]
pub struct Span {
    pub start: usize,
    pub end: usize,
}

// Four bytes as a number. (By `from_be_bytes` a search reads an entry byte by byte; so it is one load.)
pub fn big_endian(a: u8, b: u8, c: u8, d: u8) -> u32
    ensures { result ≡ number a b c d }
{
    u32::from(a) * 0x1000000 + (u32::from(b) * 0x10000 + (u32::from(c) * 0x100 + u32::from(d)))
}

// The entry at a place of a list on the wire, counted from 0; none where the list ends before it. Entries are whole fours;
// 1 to 3 bytes left over are no entry.
pub fn entry_at(bytes: &[u8], place: usize) -> Option<u32>
    ensures { result ≡ entry_at (entries bytes.now) place }
{
    if place < bytes.len() / VERSION_BYTES {
        Some(number_at(bytes, place * VERSION_BYTES))
    } else {
        None
    }
}

// Whether the version is an entry of a list on the wire. Of a long list it compares BLOCK entries at a time.
pub fn contains_in_bytes(bytes: &[u8], version: u32) -> bool
    ensures { result ≡ elem version (entries bytes.now) }
{
    let blocks = bytes.len() / VERSION_BYTES / BLOCK;
    for i in 0..blocks {
        if block_contains(bytes, i * BLOCK, version) {
            return true;
        }
    }
    rest_contains(bytes, blocks * BLOCK, version)
}

// Whether the version is among BLOCK entries from a place on. There is no early exit, so that the compiler compares
// several entries at a time.
fn block_contains(bytes: &[u8], from: usize, version: u32) -> bool
    requires { from + block ≤ length bytes.now / version_bytes }
    ensures { elem version (drop from (entries bytes.now)) ≡ (result || elem version (drop (from + block) (entries bytes.now))) }
{
    let mut found = false;
    for k in 0..BLOCK {
        found |= is_entry(bytes, from + k, version);
    }
    found
}

// Whether the version is an entry from a place on.
fn rest_contains(bytes: &[u8], from: usize, version: u32) -> bool
    requires { from ≤ length bytes.now / version_bytes }
    ensures { result ≡ elem version (drop from (entries bytes.now)) }
{
    let end = bytes.len() / VERSION_BYTES;
    for i in from..end {
        if is_entry(bytes, i, version) {
            return true;
        }
    }
    false
}

// Whether the entry at a place is the version. The version is turned, not the entry: an entry is then read by one load,
// and the version is turned once.
fn is_entry(bytes: &[u8], place: usize, version: u32) -> bool
    requires { place < length bytes.now / version_bytes }
    ensures { result ≡ eqb (get_or (entries bytes.now) place 0) version }
{
    let word = word_at(bytes, place);
    let sought = turned(version);
    word == sought
}

// The entry at a place, turned: its bytes read little endian. (`slots` has the same: no public function requires anything,
// so this one is not lent, and a test of the place would stand in the search.)
fn word_at(bytes: &[u8], place: usize) -> u32
    requires { place < length bytes.now / version_bytes }
    ensures { (result ≡ turned (get_or (entries bytes.now) place 0)) × (get_or (entries bytes.now) place 0 < 2 ^ 32) }
{
    let at = place * VERSION_BYTES;
    big_endian(bytes[at + 3], bytes[at + 2], bytes[at + 1], bytes[at])
}

// The number of the same four bytes in the other order.
pub fn turned(version: u32) -> u32
    ensures { result ≡ turned version }
{
    version.swap_bytes()
}

// Puts a list at the front of the buffer and answers true; where there is no room it answers false and
// leaves the buffer as found.
pub fn put_list(versions: &[u32], buffer: &mut [u8]) -> bool
    ensures answer { result ≡ leb (version_bytes * length versions.now) (length buffer.old) }
    ensures left { buffer.new ≡ after_put versions.now buffer.old }
{
    let count = versions.len();
    if buffer.len() / VERSION_BYTES < count {
        return false;
    }
    for i in 0..count {
        put_at(buffer, i * VERSION_BYTES, versions[i]);
    }
    true
}

// Puts values at the front of the places and answers true; where there is no room it answers false and leaves the places as
// found. (A loop: by `copy_from_slice` the archive for C would need `memmove` from outside.)
pub fn put_values<T: Copy>(values: &[T], places: &mut [T]) -> bool
    ensures answer { result ≡ leb (length values.now) (length places.old) }
    ensures left { places.new ≡ after_values values.now places.old }
{
    if places.len() < values.len() {
        return false;
    }
    for i in 0..values.len() {
        places[i] = values[i];
    }
    true
}

// Puts one version at a place of the buffer.
fn put_at(buffer: &mut [u8], at: usize, version: u32)
    requires { at + version_bytes ≤ length buffer.old }
    ensures { buffer.new ≡ take at buffer.old ++ bytes_of version ++ drop (at + version_bytes) buffer.old }
{
    buffer[at..at + VERSION_BYTES].copy_from_slice(&version.to_be_bytes());
}

// The number whose four bytes begin at a place.
fn number_at(bytes: &[u8], at: usize) -> u32
    requires { at + version_bytes ≤ length bytes.now }
    ensures { result ≡ number_at bytes.now at }
{
    big_endian(bytes[at], bytes[at + 1], bytes[at + 2], bytes[at + 3])
}
