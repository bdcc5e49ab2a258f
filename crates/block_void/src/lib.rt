// A void block's one colour, which stands in its upper half, as a word and as samples.
#![tactic(auto)]

ghost use Rattle.std.specs.Prelude.{◌≡◌, ◌<◌};
ghost use Rattle.bits.specs.Blocks.{value_of};
ghost use Rattle.block_void.specs.Void.{void_word, void_sample, void_samples};
ghost use Rattle.block_void.specs.VoidLaws.{sample_byte};

use bits::Block;
use channels::{Sample, Samples};

// Channel k of a void block's colour, of 0 to 3 for red to alpha, as `void_sample` has it: a half, or the high byte of its
// sixteen bits.
fn void_sample(b: Block, k: usize) -> Sample
    requires { k < 4 }
    ensures { result ≡ void_sample (value_of b) k }
{
    if bits::getbits(b, 9, 1) == 1 {
        Sample::Half(bits::getbits(b, 64 + 16 * k, 16) as u16)
    } else {
        Sample::Byte(bits::getbits(b, 72 + 16 * k, 8) as u8)
    }
}

// The channels of a void block's one colour.
pub fn void_samples(b: Block) -> Samples
    ensures { result ≡ void_samples (value_of b) }
{
    Samples {
        r: void_sample(b, 0),
        g: void_sample(b, 1),
        b: void_sample(b, 2),
        a: void_sample(b, 3),
    }
}

// The byte of a sample. It is no `From`, because `Sample` is a type of another crate.
fn sample_byte(sample: Sample) -> u8
    ensures { result ≡ sample_byte sample }
{
    match sample {
        Sample::Byte(byte) => byte,
        Sample::Half(pattern) => half::f16_to_u8(pattern),
    }
}

// The one colour of a void block. The block is made anew of its two words, which are then handed
// over in registers.
pub fn void_color(whole: Block) -> u32
    ensures { result ≡ void_word (value_of whole) }
{
    let b = Block {
        lo: whole.lo,
        hi: whole.hi,
    };
    let samples = void_samples(b);
    blend::color(
        sample_byte(samples.r),
        sample_byte(samples.g),
        sample_byte(samples.b),
        sample_byte(samples.a),
    )
}
