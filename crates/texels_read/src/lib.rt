// The samples of a texel, read from the lanes of a block.
#![tactic(auto)]

ghost use Rattle.std.specs.Prelude.{◌≡◌, ◌<◌};
ghost use Rattle.footprint.specs.Footprints.{most_texels};
ghost use Rattle.texels_read.specs.Read.{sample_in, texel_in};

use channels::{Sample, Samples};
use footprint::TEXELS;
use lanes::LANES;

// The sample that a lane holds: a byte, or a half with the top bit, and then the largest finite half
// in place of infinity and of every NaN.
fn sample_of(x: u16) -> Sample
    ensures { result ≡ sample_in x }
{
    if x < 0x8000 {
        Sample::Byte((x % 256) as u8)
    } else {
        Sample::Half((x - 0x8000).min(0x7bff))
    }
}

// The samples of texel i, from the lanes of a block.
pub fn samples_at(lanes: &[u16; LANES], i: usize) -> Samples
    requires { i < most_texels }
    ensures { result ≡ texel_in lanes.now i }
{
    Samples {
        r: sample_of(lanes[i]),
        g: sample_of(lanes[TEXELS + i]),
        b: sample_of(lanes[2 * TEXELS + i]),
        a: sample_of(lanes[3 * TEXELS + i]),
    }
}
