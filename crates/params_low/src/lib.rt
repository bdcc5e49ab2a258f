// What the first bits of a block tell: whether it is void, and its low configuration.
#![tactic(auto)]

ghost use Rattle.std.specs.Prelude.{◌≡◌};
ghost use Rattle.bits.specs.Blocks.{value_of};
ghost use Rattle.params_low.specs.Low.{is_void, conf_len, low_of};

use bits::Block;

// Whether a block is void: of one colour, which stands in it.
pub fn is_void(b: Block) -> bool
    ensures { result ≡ is_void (value_of b) }
{
    bits::getbits(b, 0, 9) == 0x1fc
}

fn low_len(parts: usize) -> usize
    ensures { result ≡ conf_len parts }
{
    if parts == 1 { 17 } else { 29 }
}

// The low configuration: as many bits as its own bits 11 and 12 say.
pub fn low_config(b: Block) -> usize
    ensures { result ≡ low_of (value_of b) }
{
    let parts = bits::getbits(b, 11, 2) as usize + 1;
    let len = low_len(parts);
    bits::getbits(b, 0, len) as usize
}
