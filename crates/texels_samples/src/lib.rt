// The samples of a block's texels in lanes, eight at once, one channel after the other.
#![tactic(auto)]

ghost use Rattle.std.specs.Prelude.{◌≡◌, ℕ, ◌≤◌, ◌<◌};
ghost use Rattle.laws.specs.Lists.{put_at};
ghost use Rattle.footprint.specs.Footprints.{most_texels};
ghost use Rattle.lanes.specs.Lanes.{eights};
ghost use Rattle.texels.specs.Samples.{texel_lane, samples_in};
ghost use Rattle.texels_samples.specs.Planes.{hdr_of, limit_by, sample_lane, pair_of, pairs_of, PairsInLimits, any_at};

use endpoints_colours::{Endpoints, Mark};
use footprint::TEXELS;
use lanes::{LANES, eights};
use texels::{BlockData, any, starts_of};

// One channel's ends in a partition, and 1 where they are HDR, else 0: a number, which a loop picks
// by the partition as it picks the ends. `hdr_of` is no `From`, because `Mark` is a type of another
// crate.
#[derive(Clone, Copy)]
pub struct Pair {
    pub hdr: u16,
    pub first: u16,
    pub second: u16,
}

// One sample as a lane: a byte, or 32768 and a half.
fn sample(hdr: u16, v0: u16, v1: u16, w: u8) -> u16
    requires { (v0 < limit_by hdr) × (v1 < limit_by hdr) × (w ≤ 64) }
    ensures { result ≡ sample_lane hdr v0 v1 w }
{
    if hdr == 0 {
        blend::select_color_byte(v0, v1, u16::from(w))
    } else {
        0x8000 + blend::select_half(u32::from(v0), u32::from(v1), u32::from(w))
    }
}

// Puts one channel of n texels, to the next multiple of 8, which `lane` gives, from lane `at` on. It
// is compiled anew for one partition and for any.
fn put_lanes<F: Fn(usize) -> u16>(out: &mut [u16; LANES], at: usize, n: usize, lane: F)
    requires few { (at ≤ 432) × (n ≤ most_texels) }
    requires callable { (i : ℕ) → i < most_texels → F.pre lane i }
    ensures { (f : ℕ → ℕ) → ((i r : ℕ) → i < most_texels → F.post lane i r → r ≡ f i) →
        out.new ≡ put_at f at (eights n) out.old }
{
    for i in 0..eights(n) {
        out[at + i] = lane(i);
    }
}

// Puts one channel of all texels, from lane `at` on. Its weights start at x. The ends are read
// before the loops, which would read them anew after each store.
fn put_channel(out: &mut [u16; LANES], at: usize, d: &BlockData, x: usize, s: [Pair; 4])
    requires place { (at ≤ 432) × (x ≤ most_texels) }
    requires ends { PairsInLimits s }
    ensures { out.new ≡
        put_at (any_at s d.now.weights.now d.now.partition.now x) at (eights d.now.n) out.old }
{
    let w = d.weights;
    let p = d.partition;
    let [e, f, g, h] = s;
    match d.parts {
        1 => put_lanes(
            out,
            at,
            d.n,
            move |i| sample(e.hdr, e.first, e.second, w[x + i]),
        ),
        _ => put_lanes(out, at, d.n, move |i| {
            sample(
                any(p[i], e.hdr, f.hdr, g.hdr, h.hdr),
                any(p[i], e.first, f.first, g.first, h.first),
                any(p[i], e.second, f.second, g.second, h.second),
                w[x + i],
            )
        }),
    }
}

fn hdr_of(m: Mark) -> u16
    ensures { result ≡ hdr_of m }
{
    match m {
        Mark::Ldr => 0,
        Mark::Hdr => 1,
    }
}

// The ends of channel k of a partition, 0 to 3 for red to alpha: a number, as `mark_of`, `first_of` and
// `second_of` have it.
fn pair_of(e: Endpoints, k: usize) -> Pair
    requires { k < 4 }
    ensures { result ≡ pair_of e k }
{
    let (mark, first, second) = match k {
        0 => (e.color, e.r0, e.r1),
        1 => (e.color, e.g0, e.g1),
        2 => (e.color, e.b0, e.b1),
        _ => (e.alpha, e.a0, e.a1),
    };
    Pair {
        hdr: hdr_of(mark),
        first,
        second,
    }
}

// The ends of channel k in each partition, listed as the definition lists them.
fn pairs_of(ends: [Endpoints; 4], k: usize) -> [Pair; 4]
    requires { k < 4 }
    ensures { result ≡ pairs_of ends k }
{
    [
        pair_of(ends[0], k),
        pair_of(ends[1], k),
        pair_of(ends[2], k),
        pair_of(ends[3], k),
    ]
}

// Puts the samples of all texels, to the next multiple of 8, into lanes: those of channel k start at
// lane 144 * k. The four calls are no loop, because the starts are fields by the channels' names.
pub fn put_samples(out: &mut [u16; LANES], d: &BlockData)
    ensures { out.new ≡
        samples_in d.now.n (texel_lane d.now.endpoints d.now.weights.now d.now.partition.now
        d.now.planes d.now.channel) out.old }
{
    let k = starts_of(d.planes, d.channel);
    let ends = d.endpoints;
    put_channel(out, 0, d, k.r, pairs_of(ends, 0));
    put_channel(out, TEXELS, d, k.g, pairs_of(ends, 1));
    put_channel(out, 2 * TEXELS, d, k.b, pairs_of(ends, 2));
    put_channel(out, 3 * TEXELS, d, k.a, pairs_of(ends, 3));
}
