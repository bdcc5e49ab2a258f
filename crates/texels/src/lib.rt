// What the loops over texels share: what is known of a block (`BlockData`), where the weights of each
// channel start, the number of a texel's partition, and one HDR channel.
#![tactic(auto)]

ghost use Rattle.std.specs.Prelude.{◌≡◌, ◌*◌, ◌≤◌, ◌<◌};
ghost use Rattle.footprint.specs.Footprints.{most_texels};
ghost use Rattle.blend.specs.Blend.{hdr_channel};
ghost use Rattle.texels.specs.Texels.{plane_of};
ghost use Rattle.texels.specs.Kinds.{starts_of, Ahead, either_of, any_of};

use footprint::TEXELS;

mod block;

pub use block::BlockData;

// Where the weights of each channel start. The fields have the names of the channels, as those of
// `Endpoints` do. `Channels` in texels_hdr and `Four` in texels_numbers have such fields of other
// types: each stays a record of its own, over which definitions are stated (`starts_of` here,
// `channels_in` and `four_of` there).
#[derive(Clone, Copy, Debug, PartialEq, Eq, Hash)]
pub struct Starts {
    pub r: usize,
    pub g: usize,
    pub b: usize,
    pub a: usize,
}

// Where the weights of channel k start: those of the second plane follow those of all texels in the
// first. A channel is a number here because `plane_of` has it so.
#[tactic(auto, unfolding(crate::specs::Texels::plane_of))]
fn start(planes: usize, channel: usize, k: usize) -> usize
    ensures { (result ≡ most_texels * plane_of planes channel k) × (result ≤ most_texels) }
{
    if planes == 2 && channel == k {
        TEXELS
    } else {
        0
    }
}

// Where each channel's weights start, by the number of planes and the channel of the second.
pub fn starts_of(planes: usize, channel: usize) -> Starts
    ensures { (result ≡ starts_of planes channel) × Ahead result }
{
    Starts {
        r: start(planes, channel, 0),
        g: start(planes, channel, 1),
        b: start(planes, channel, 2),
        a: start(planes, channel, 3),
    }
}

// The number of partition p, where partition 0 has a and partition 1 has b. It and `any` differ in
// how many partitions they pick from: by a const parameter they would loop over an array.
pub fn either(p: u8, a: u16, b: u16) -> u16
    ensures { result ≡ either_of p a b }
{
    if p == 0 { a } else { b }
}

// The number of partition p, where the partitions 0 to 3 have a, b, c and d.
pub fn any(p: u8, a: u16, b: u16, c: u16, d: u16) -> u16
    requires { p < 4 }
    ensures { result ≡ any_of p a b c d 0 }
{
    match p {
        0 => a,
        1 => b,
        2 => c,
        _ => d,
    }
}

// The HDR channel of two endpoints at a weight, from 16-bit numbers as the loops over texels have
// them. `blend::select_color_hdr` takes 32-bit numbers, and the promise of each is stated over its
// own: widened by every caller it would be no plainer.
pub fn hdr_channel(v0: u16, v1: u16, w: u8) -> u8
    requires { (v0 < 4096) × (v1 < 4096) × (w ≤ 64) }
    ensures { result ≡ hdr_channel v0 v1 w }
{
    blend::select_color_hdr(u32::from(v0), u32::from(v1), u32::from(w))
}
