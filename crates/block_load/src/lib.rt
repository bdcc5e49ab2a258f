// The block whose bits sixteen bytes hold, the first byte the lowest.
#![tactic(auto)]

ghost use Rattle.std.specs.Prelude.{◌≡◌, length};
ghost use Rattle.bits.specs.Bits.{bytes};
ghost use Rattle.bits.specs.Blocks.{value_of};

use bits::Block;

// The block whose bits sixteen bytes hold, the first byte the lowest. The indices are written out,
// since a half of the slice becomes an array by `try_into` only, with a refusal that cannot occur:
// that is no plainer.
pub fn load(s: &[u8]) -> Block
    requires { length s.now ≡ 16 }
    ensures { value_of result ≡ bytes 16 s.now }
{
    Block {
        lo: u64::from_le_bytes([s[0], s[1], s[2], s[3], s[4], s[5], s[6], s[7]]),
        hi: u64::from_le_bytes([s[8], s[9], s[10], s[11], s[12], s[13], s[14], s[15]]),
    }
}
