// Tables of compatible pairs (from, to). Pairs are neither turned round nor chained. A pair is an array of two, as C hands it
// over.
ghost use Rattle.std.specs.Prelude.{◌≡◌};
ghost use Rattle.versions.specs.Pairs.{pair_keeps_rule, pairs_keep_rule};

use crate::MAX_PAIRS;
use crate::table::is_usable;

// Whether a table of pairs keeps its rule: at most MAX_PAIRS, each pair of two usable versions that differ.
#[tactic(auto, unfolding(crate::specs::Pairs::pairs_keep_rule))]
pub fn are_pairs(pairs: &[[u32; 2]]) -> bool
    ensures { result ≡ pairs_keep_rule pairs.now }
{
    if MAX_PAIRS < pairs.len() {
        return false;
    }
    for pair in pairs {
        if !is_pair(*pair) {
            return false;
        }
    }
    true
}

// Whether one pair keeps its rule: no member 0 or reserved, its members not equal.
#[tactic(auto, unfolding(crate::specs::Pairs::pair_keeps_rule))]
fn is_pair(pair: [u32; 2]) -> bool
    ensures { result ≡ pair_keeps_rule pair }
{
    let [from, to] = pair;
    is_usable(from) && is_usable(to) && from != to
}
