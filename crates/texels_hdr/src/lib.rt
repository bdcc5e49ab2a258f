// HDR texels, eight at once, one channel after the other.
#![tactic(auto)]

ghost use Rattle.std.specs.Prelude.{◌≡◌, ℕ, ◌+◌, ◌*◌, ◌≤◌, ◌<◌, get_or};
ghost use Rattle.laws.specs.Lists.{put};
ghost use Rattle.footprint.specs.Footprints.{most_texels};
ghost use Rattle.lanes.specs.Lanes.{lane_at, eights};
ghost use Rattle.texels.specs.Texels.{texel_word};
ghost use Rattle.texels.specs.Kinds.{AllOf};
ghost use Rattle.texels_hdr.specs.Channels.{Wide, hdr_at, channels_in, word_among};

use endpoints_colours::Endpoints;
use footprint::TEXELS;
use lanes::{LANES, eights};
use texels::{BlockData, any, either, hdr_channel, starts_of};

// The numbers of one channel in each partition, at both ends. `Pair` in texels_samples has the ends of
// one partition: `channels_in` is stated over lists of numbers, and `pairs_of` over pairs.
#[derive(Clone, Copy, Debug, PartialEq, Eq, Hash)]
pub struct Numbers {
    pub first: [u16; 4],
    pub second: [u16; 4],
}

// The numbers of red, green, blue and alpha in each partition.
#[derive(Clone, Copy, Debug, PartialEq, Eq, Hash)]
pub struct Channels {
    pub r: Numbers,
    pub g: Numbers,
    pub b: Numbers,
    pub a: Numbers,
}

// Puts one HDR channel of n texels, to the next multiple of 8, which `channel` gives. It is compiled
// anew for each number of partitions. `weights_unquantise` has such a loop for another length, and
// `texels_samples` one for lanes: `put` is of lists of numbers, so that a contract with a type
// parameter cannot speak of it. By a const length the loops over bytes would be one public function of
// a low crate, with a promise of its own for a loop of one line, which is no plainer.
fn put_bytes<F: Fn(usize) -> u8>(out: &mut [u8; TEXELS], n: usize, channel: F)
    requires few { n ≤ most_texels }
    requires callable { (i : ℕ) → i < most_texels → F.pre channel i }
    ensures { (f : ℕ → ℕ) → ((i r : ℕ) → i < most_texels → F.post channel i r → r ≡ f i) →
        out.new ≡ put f 0 (eights n) out.old }
{
    for i in 0..eights(n) {
        out[i] = channel(i);
    }
}

// Puts one HDR channel of all texels, whose weights start at x, by its numbers in the partitions in
// use. The numbers are read before the loops, which would read them anew after each store. Where
// both ends of one partition are equal no weight changes the channel: it is the alpha of an opaque
// colour.
fn hdr_bytes(out: &mut [u8; TEXELS], d: &BlockData, x: usize, v: Numbers)
    requires place { x ≤ most_texels }
    requires wide { Wide v.first × Wide v.second }
    ensures { out.new ≡
        put (hdr_at v.first v.second d.now.weights.now d.now.partition.now x) 0 (eights d.now.n)
        out.old }
{
    let w = d.weights;
    let p = d.partition;
    let [a0, a1, a2, a3] = v.first;
    let [b0, b1, b2, b3] = v.second;
    match d.parts {
        1 if a0 == b0 => {
            let c = hdr_channel(a0, a0, 0);
            put_bytes(out, d.n, move |_| c)
        }
        1 => put_bytes(out, d.n, move |i| hdr_channel(a0, b0, w[x + i])),
        2 => put_bytes(out, d.n, move |i| {
            hdr_channel(either(p[i], a0, a1), either(p[i], b0, b1), w[x + i])
        }),
        _ => put_bytes(out, d.n, move |i| {
            hdr_channel(
                any(p[i], a0, a1, a2, a3),
                any(p[i], b0, b1, b2, b3),
                w[x + i],
            )
        }),
    }
}

// The numbers of each channel in the endpoints of four partitions.
fn channels_of(ends: [Endpoints; 4]) -> Channels
    ensures { result ≡ channels_in ends }
{
    let [e, f, g, h] = ends;
    Channels {
        r: Numbers {
            first: [e.r0, f.r0, g.r0, h.r0],
            second: [e.r1, f.r1, g.r1, h.r1],
        },
        g: Numbers {
            first: [e.g0, f.g0, g.g0, h.g0],
            second: [e.g1, f.g1, g.g1, h.g1],
        },
        b: Numbers {
            first: [e.b0, f.b0, g.b0, h.b0],
            second: [e.b1, f.b1, g.b1, h.b1],
        },
        a: Numbers {
            first: [e.a0, f.a0, g.a0, h.a0],
            second: [e.a1, f.a1, g.a1, h.a1],
        },
    }
}

// A lane of two channels, the first of them the low byte: a sum, as `lane_at` takes it apart, which
// `from_le_bytes` on an array of two would not make plainer.
fn joined(low: u8, high: u8) -> u16
    ensures { (result ≡ low + 256 * high) × (low < 256) × (high < 256) }
{
    u16::from(low) + 256 * u16::from(high)
}

// Puts the words of n texels from their four channels. The four arrays are parameters and no record:
// `word_among` is stated over them, and a record would copy them or refer to them.
fn join_all(
    out: &mut [u16; LANES],
    n: usize,
    r: &[u8; TEXELS],
    g: &[u8; TEXELS],
    b: &[u8; TEXELS],
    a: &[u8; TEXELS],
)
    requires { n ≤ most_texels }
    ensures { out.new ≡
        put (lane_at (word_among r.now g.now b.now a.now))
        0 (2 * eights n) out.old }
{
    for i in 0..eights(n) {
        out[2 * i] = joined(b[i], g[i]);
        out[2 * i + 1] = joined(r[i], a[i]);
    }
}

// Puts the words of n HDR texels, one channel after the other, so that a loop has one kind of work.
pub fn paint_hdr(out: &mut [u16; LANES], d: &BlockData)
    requires { AllOf 1 d.now.parts d.now.endpoints }
    ensures { out.new ≡
        put (lane_at (texel_word d.now.endpoints d.now.weights.now d.now.partition.now d.now.planes
        d.now.channel)) 0 (2 * eights d.now.n) out.old }
{
    let k = starts_of(d.planes, d.channel);
    let v = channels_of(d.endpoints);
    let mut red = [0u8; TEXELS];
    let mut green = [0u8; TEXELS];
    let mut blue = [0u8; TEXELS];
    let mut alpha = [0u8; TEXELS];
    hdr_bytes(&mut red, d, k.r, v.r);
    hdr_bytes(&mut green, d, k.g, v.g);
    hdr_bytes(&mut blue, d, k.b, v.b);
    hdr_bytes(&mut alpha, d, k.a, v.a);
    join_all(out, d.n, &red, &green, &blue, &alpha);
}
