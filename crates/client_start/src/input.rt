// What a start is given.
ghost use Rattle.std.specs.Prelude.{true, ◌≡◌};
ghost use Rattle.attempt.specs.Start.{input_of, is_accepted};

use versions::table::Table;

// What a start is given, lent by its caller, where it keeps every rule.
#[derive(Clone, Copy)]
pub(crate) struct Input<'a> {
    pub table: Table<'a>,
    pub pairs: &'a [[u32; 2]],
    pub barred: &'a [[u32; 2]],
    pub original: u32,
    pub destination: &'a [u8],
    pub source: &'a [u8],
    ghost accepted: { is_accepted (input_of table.versions.now pairs.now barred.now original destination.now source.now) ≡ true },
}
