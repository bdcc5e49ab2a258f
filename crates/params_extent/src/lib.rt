// The verdict on a void block: by the crate's reading always the same, by the standard's reading by
// the rules on its extent.
#![tactic(auto)]

ghost use Rattle.std.specs.Prelude.{◌≡◌, ◌+◌, ◌≤◌, ltb};
ghost use Rattle.answers.specs.Results.{verdict_number};
ghost use Rattle.bits.specs.Bits.{bits_at};
ghost use Rattle.bits.specs.Blocks.{value_of};
ghost use Rattle.params_extent.specs.Extent.{extent_in, keeps_rules, void_verdict};

use answers::{Rule, Verdict};
use bits::Block;
use options::Reading;

// Whether the number of thirteen bits that starts at a bit is below the one that follows it.
fn is_below_next(b: Block, at: usize) -> bool
    requires { at ≤ 38 }
    ensures { result ≡ ltb (bits_at (value_of b) at 13) (bits_at (value_of b) (at + 13) 13) }
{
    bits::getbits(b, at, 13) < bits::getbits(b, at + 13, 13)
}

// Whether the extent of a void block keeps the standard's rules. Most have all ones, with the two
// bits below them, which one test tells.
fn keeps_rules(b: Block) -> bool
    ensures { result ≡ keeps_rules (extent_in (value_of b)) }
{
    if bits::getbits(b, 10, 54) == 0x3f_ffff_ffff_ffff {
        return true;
    }
    if bits::getbits(b, 10, 2) != 3 {
        return false;
    }
    is_below_next(b, 12) && is_below_next(b, 38)
}

// The verdict on a void block.
pub fn void_verdict(reading: Reading, b: Block) -> Verdict
    ensures { verdict_number result ≡ void_verdict reading (extent_in (value_of b)) }
{
    match reading {
        Reading::Crate => Verdict::VoidExtent,
        Reading::Standard if keeps_rules(b) => Verdict::VoidExtent,
        Reading::Standard => Verdict::Broken(Rule::BadExtent),
    }
}
