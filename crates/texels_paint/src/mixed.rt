// Texels of any marks, one after the other.
ghost use Rattle.std.specs.Prelude.{◌≡◌, ◌*◌, ◌≤◌, ◌<◌};
ghost use Rattle.laws.specs.Lists.{put};
ghost use Rattle.endpoints_colours.specs.Bounds.{InLimits, limit};
ghost use Rattle.lanes.specs.Lanes.{lane_at, eights};
ghost use Rattle.texels.specs.Texels.{channel_by, word_by, texel_word};

use endpoints_colours::{Endpoints, Mark};
use lanes::{LANES, eights};
use texels::{BlockData, hdr_channel, starts_of};

// One channel of a texel, blended as LDR or HDR by its mark.
fn channel_by(m: Mark, v0: u16, v1: u16, w: u8) -> u8
    requires { (v0 < limit m) × (v1 < limit m) × (w ≤ 64) }
    ensures { result ≡ channel_by m v0 v1 w }
{
    match m {
        Mark::Ldr => blend::select_color_byte(v0, v1, u16::from(w)) as u8,
        Mark::Hdr => hdr_channel(v0, v1, w),
    }
}

// The word of a texel, from the endpoints of its partition and the weight of each channel.
fn texel(e: Endpoints, r: u8, g: u8, b: u8, a: u8) -> u32
    requires { InLimits e × (r ≤ 64) × (g ≤ 64) × (b ≤ 64) × (a ≤ 64) }
    ensures { result ≡ word_by e r g b a }
{
    let c = e.color;
    let m = e.alpha;
    blend::color(
        channel_by(c, e.r0, e.r1, r),
        channel_by(c, e.g0, e.g1, g),
        channel_by(c, e.b0, e.b1, b),
        channel_by(m, e.a0, e.a1, a),
    )
}

// Puts the words of all texels, each by the marks of its partition. The lanes of a word are remainder
// and quotient as `lane_at` has them: `to_le_bytes` would give four bytes to join again.
pub(crate) fn paint_any(out: &mut [u16; LANES], d: &BlockData)
    ensures { out.new ≡
        put (lane_at (texel_word d.now.endpoints d.now.weights.now d.now.partition.now d.now.planes
        d.now.channel)) 0 (2 * eights d.now.n) out.old }
{
    let n = d.n;
    let ends = d.endpoints;
    let w = d.weights;
    let p = d.partition;
    let k = starts_of(d.planes, d.channel);
    for i in 0..eights(n) {
        let e = ends[usize::from(p[i])];
        let x = texel(e, w[k.r + i], w[k.g + i], w[k.b + i], w[k.a + i]);
        out[2 * i] = (x % 0x1_0000) as u16;
        out[2 * i + 1] = (x / 0x1_0000) as u16;
    }
}
