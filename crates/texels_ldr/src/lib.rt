// LDR texels, eight at once, by the number of partitions and planes. The loop asks for n ≤
// most_texels, which `BlockData` has as a ghost field, because it takes n alone: what a loop needs is
// read before it.
#![tactic(auto)]

ghost use Rattle.std.specs.Prelude.{◌≡◌, ℕ, ◌+◌, ◌*◌, ◌/◌, ◌%◌, ◌≤◌, ◌<◌, get_or};
ghost use Rattle.laws.specs.Lists.{put};
ghost use Rattle.footprint.specs.Footprints.{most_texels};
ghost use Rattle.endpoints_colours.specs.Colours.{nothing};
ghost use Rattle.lanes.specs.Lanes.{lane_at, eights};
ghost use Rattle.texels.specs.Texels.{texel_word, word_by};
ghost use Rattle.texels.specs.Kinds.{Ahead, word_at, AllOf, either_of, any_of};
ghost use Rattle.texels_ldr.specs.Plain.{Plain, WeightsAt, word_one, ldr_pair};

use endpoints_colours::{Endpoints, Mark};
use footprint::WEIGHTS;
use lanes::{LANES, eights};
use texels::{BlockData, Starts, any, either, starts_of};

// The weights of a texel's channels: a record, since `WeightsAt` of the specs is stated over it.
#[derive(Clone, Copy, Debug, PartialEq, Eq, Hash)]
pub struct Weights {
    pub r: u16,
    pub g: u16,
    pub b: u16,
    pub a: u16,
}

// The weights of texel i, each channel's from its own start.
fn weights_at(w: &[u8; WEIGHTS], k: Starts, i: usize) -> Weights
    requires place { Ahead k × (i < most_texels) }
    requires light { (j : ℕ) → get_or w.now j 0 ≤ 64 }
    ensures { WeightsAt w.now k i result }
{
    Weights {
        r: u16::from(w[k.r + i]),
        g: u16::from(w[k.g + i]),
        b: u16::from(w[k.b + i]),
        a: u16::from(w[k.a + i]),
    }
}

// A lane of two blended LDR channels, the first of them the low byte: a sum, as `ldr_pair` has it,
// where `from_le_bytes` would need casts to bytes. The ends and weights are one number each, which
// vector code holds apart; records of two would be made for this call alone.
fn pair(x0: u16, x1: u16, y0: u16, y1: u16, v: u16, w: u16) -> u16
    requires { (x0 ≤ 255) × (x1 ≤ 255) × (y0 ≤ 255) × (y1 ≤ 255) × (v ≤ 64) × (w ≤ 64) }
    ensures { result ≡ ldr_pair x0 x1 y0 y1 v w }
{
    blend::select_color_byte(x0, x1, v) + 256 * blend::select_color_byte(y0, y1, w)
}

// The two lanes of a texel's word, between LDR endpoints at the weights of its channels.
fn lanes_between(e: Endpoints, v: Weights) -> (u16, u16)
    requires { Plain e × (v.r ≤ 64) × (v.g ≤ 64) × (v.b ≤ 64) × (v.a ≤ 64) }
    ensures low { result.0 ≡ word_by e v.r v.g v.b v.a % 65536 }
    ensures high { result.1 ≡ word_by e v.r v.g v.b v.a / 65536 }
{
    (
        pair(e.b0, e.b1, e.g0, e.g1, v.b, v.g),
        pair(e.r0, e.r1, e.a0, e.a1, v.r, v.a),
    )
}

// The two lanes of texel i's word, all channels by the weights of one plane. By `lanes_at`, with
// starts of 0, it would be no plainer and would read the weight four times.
fn lanes_one(e: Endpoints, w: &[u8; WEIGHTS], i: usize) -> (u16, u16)
    requires ends { Plain e }
    requires place { i < most_texels }
    requires light { (j : ℕ) → get_or w.now j 0 ≤ 64 }
    ensures low { result.0 ≡ word_one e w.now i % 65536 }
    ensures high { result.1 ≡ word_one e w.now i / 65536 }
{
    let x = u16::from(w[i]);
    lanes_between(
        e,
        Weights {
            r: x,
            g: x,
            b: x,
            a: x,
        },
    )
}

// The two lanes of texel i's word, each channel by the weights of its plane.
fn lanes_at(e: Endpoints, w: &[u8; WEIGHTS], k: Starts, i: usize) -> (u16, u16)
    requires ends { Plain e }
    requires place { Ahead k × (i < most_texels) }
    requires light { (j : ℕ) → get_or w.now j 0 ≤ 64 }
    ensures low { result.0 ≡ word_at e w.now k i % 65536 }
    ensures high { result.1 ≡ word_at e w.now k i / 65536 }
{
    lanes_between(e, weights_at(w, k, i))
}

// The LDR endpoints of partition p, where partition 0 has a and partition 1 has b. This function and
// `any_of` pick every number by itself, as vector code does. They stay two as `either` and `any` do.
fn either_of(p: u8, a: Endpoints, b: Endpoints) -> Endpoints
    requires { Plain (either_of p a b) }
    ensures { result ≡ either_of p a b }
{
    Endpoints {
        r0: either(p, a.r0, b.r0),
        g0: either(p, a.g0, b.g0),
        b0: either(p, a.b0, b.b0),
        a0: either(p, a.a0, b.a0),
        r1: either(p, a.r1, b.r1),
        g1: either(p, a.g1, b.g1),
        b1: either(p, a.b1, b.b1),
        a1: either(p, a.a1, b.a1),
        color: Mark::Ldr,
        alpha: Mark::Ldr,
    }
}

// The LDR endpoints of partition p, where the partitions 0 to 3 have a, b, c and d.
fn any_of(p: u8, a: Endpoints, b: Endpoints, c: Endpoints, d: Endpoints) -> Endpoints
    requires { (p < 4) × Plain (any_of p a b c d nothing) }
    ensures { result ≡ any_of p a b c d nothing }
{
    Endpoints {
        r0: any(p, a.r0, b.r0, c.r0, d.r0),
        g0: any(p, a.g0, b.g0, c.g0, d.g0),
        b0: any(p, a.b0, b.b0, c.b0, d.b0),
        a0: any(p, a.a0, b.a0, c.a0, d.a0),
        r1: any(p, a.r1, b.r1, c.r1, d.r1),
        g1: any(p, a.g1, b.g1, c.g1, d.g1),
        b1: any(p, a.b1, b.b1, c.b1, d.b1),
        a1: any(p, a.a1, b.a1, c.a1, d.a1),
        color: Mark::Ldr,
        alpha: Mark::Ldr,
    }
}

// Puts the words of n texels, to the next multiple of 8, whose two lanes `lanes_of` gives. It is
// compiled anew for each number of partitions and planes.
fn put_words<F: Fn(usize) -> (u16, u16)>(out: &mut [u16; LANES], n: usize, lanes_of: F)
    requires few { n ≤ most_texels }
    requires callable { (i : ℕ) → i < most_texels → F.pre lanes_of i }
    ensures { (f : ℕ → ℕ) → ((i : ℕ) (r : ℕ × ℕ) → i < most_texels → F.post lanes_of i r →
        (r.0 ≡ f i % 65536) × (r.1 ≡ f i / 65536)) → out.new ≡
        put (lane_at f) 0 (2 * eights n) out.old }
{
    for i in 0..eights(n) {
        let (low, high) = lanes_of(i);
        out[2 * i] = low;
        out[2 * i + 1] = high;
    }
}

// Puts the words of n LDR texels, by the loop for as few partitions and planes as the block has.
// What a loop needs is read before it, where a loop would read it anew after each store.
pub fn paint_ldr(out: &mut [u16; LANES], d: &BlockData)
    requires { AllOf 0 d.now.parts d.now.endpoints }
    ensures { out.new ≡
        put (lane_at (texel_word d.now.endpoints d.now.weights.now d.now.partition.now d.now.planes
        d.now.channel)) 0 (2 * eights d.now.n) out.old }
{
    let w = d.weights;
    let p = d.partition;
    let k = starts_of(d.planes, d.channel);
    let e0 = d.endpoints[0];
    let e1 = d.endpoints[1];
    let e2 = d.endpoints[2];
    let e3 = d.endpoints[3];
    match (d.parts, d.planes) {
        (1, 1) => put_words(out, d.n, move |i| lanes_one(e0, w, i)),
        (1, _) => put_words(out, d.n, move |i| lanes_at(e0, w, k, i)),
        (2, 1) => put_words(out, d.n, move |i| lanes_one(either_of(p[i], e0, e1), w, i)),
        _ => put_words(
            out,
            d.n,
            move |i| lanes_at(any_of(p[i], e0, e1, e2, e3), w, k, i),
        ),
    }
}
