// What the writer makes the new sequence of.
ghost use Rattle.std.specs.Prelude.{not, ◌≡◌, ◌≤◌, length};
ghost use Rattle.parameters.specs.Items.{items_left};
ghost use Rattle.parameters.specs.Limits.{max_sequence};
ghost use Rattle.parameters.specs.Writing.{contents_in, holds_ours};

use parameters::Parameters;

// The parameters of the old sequence, and the value that Version Information has in the new one. `last`: there is no Version
// Information in the old one, so ours goes last. (A flag, since the value goes in in either case: of two enum cases with the
// same fields each use would name both.)
#[derive(Clone, Copy)]
pub(crate) struct Renewal<'a> {
    pub old: Parameters<'a>,
    pub value: &'a [u8],
    pub last: bool,
    ghost start: { old.at ≡ 0 },
    ghost short: { length value.now ≤ max_sequence },
    ghost is_missing: { last ≡ not (holds_ours (contents_in old.sequence.now (items_left old.sequence.now old.at))) },
}
