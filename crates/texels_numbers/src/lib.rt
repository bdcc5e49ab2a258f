// The channels of texels as C reads them: four numbers a texel, and a byte that says which of them
// are floats. `float_bits`, `number_of`, `four_of` and `mark_of` are functions and no `From`: they have
// the names of the definitions that they compute, and `Sample` is a type of another crate.
#![tactic(auto)]

ghost use Rattle.std.specs.Prelude.{◌≡◌, ℕ, ◌+◌, ◌*◌, ◌≤◌, ◌<◌, length};
ghost use Rattle.laws.specs.Lists.{put};
ghost use Rattle.footprint.specs.Footprints.{most_texels};
ghost use Rattle.channels.specs.Channels.{float_bits, number_of, mark_of, marks_of};
ghost use Rattle.texels_numbers.specs.Numbers.{four_of, four_at, fours, numbers_in, numbers_from, marks_from};

use channels::{Sample, Samples};
use lanes::LANES;

// The four numbers of a texel.
#[derive(Clone, Copy)]
pub struct Four {
    pub r: u32,
    pub g: u32,
    pub b: u32,
    pub a: u32,
}

// The 32 bits of the float that equals the half h, and of a NaN those that C is promised.
fn float_bits(h: u16) -> u32
    ensures { result ≡ float_bits h }
{
    let n = u32::from(h);
    if n % 32768 > 0x7c00 {
        n / 32768 * 0x8000_0000 + 0x7fc0_0000
    } else {
        f32::to_bits(half::fp16_ieee_to_fp32_value(h))
    }
}

// A channel as the number that C reads.
fn number_of(s: Sample) -> u32
    ensures { result ≡ number_of s }
{
    match s {
        Sample::Byte(b) => u32::from(b),
        Sample::Half(h) => float_bits(h),
    }
}

// A texel's channels as numbers.
fn four_of(s: Samples) -> Four
    ensures { result ≡ four_of s }
{
    Four {
        r: number_of(s.r),
        g: number_of(s.g),
        b: number_of(s.b),
        a: number_of(s.a),
    }
}

fn mark_of(s: Sample) -> u8
    ensures { (result ≡ mark_of s) × (result < 2) }
{
    u8::from(matches!(s, Sample::Half(_)))
}

// Which of a texel's channels are floats: 1 for red, 2 for green, 4 for blue, 8 for alpha.
fn marks_of(s: Samples) -> u8
    ensures { result ≡ marks_of s }
{
    mark_of(s.r) + 2 * mark_of(s.g) + 4 * mark_of(s.b) + 8 * mark_of(s.a)
}

// Puts the four numbers of texel i: by four stores, which a copy of an array of the four would be
// too.
fn put_four(out: &mut [u32], i: usize, k: Four)
    requires { (i < most_texels) × (4 * i + 3 < length out.old) }
    ensures { out.new ≡ four_at out.old i k }
{
    out[4 * i] = k.r;
    out[4 * i + 1] = k.g;
    out[4 * i + 2] = k.b;
    out[4 * i + 3] = k.a;
}

// Puts the four numbers of each of n texels, which `four` gives.
fn put_fours<F: Fn(usize) -> Four>(out: &mut [u32], n: usize, four: F)
    requires room { (n ≤ most_texels) × (4 * n ≤ length out.old) }
    requires callable { (i : ℕ) → i < n → F.pre four i }
    ensures { (f : ℕ → Four) → ((i : ℕ) (r : Four) → i < n → F.post four i r → r ≡ f i) →
        out.new ≡ put (fours f) 0 (4 * n) out.old }
{
    for i in 0..n {
        put_four(out, i, four(i));
    }
}

// Puts the numbers of n texels, from the lanes of a block. They are worked out in the loop and not
// by `four_of`, which makes HDR blocks slower.
fn put_numbers(out: &mut [u32], n: usize, lanes: &[u16; LANES])
    requires { (n ≤ most_texels) × (4 * n ≤ length out.old) }
    ensures { out.new ≡
        put (numbers_from lanes.now) 0 (4 * n) out.old }
{
    put_fours(out, n, |i| {
        let s = texels_read::samples_at(lanes, i);
        Four {
            r: number_of(s.r),
            g: number_of(s.g),
            b: number_of(s.b),
            a: number_of(s.a),
        }
    });
}

// Puts the marks of n texels, from the lanes of a block.
fn put_marks(floats: &mut [u8], n: usize, lanes: &[u16; LANES])
    requires { (n ≤ most_texels) × (n ≤ length floats.old) }
    ensures { floats.new ≡
        put (marks_from lanes.now) 0 n floats.old }
{
    for i in 0..n {
        floats[i] = marks_of(texels_read::samples_at(lanes, i));
    }
}

// Puts the numbers and the marks of n texels, from the lanes of a block: into two outputs, as the C
// interface has them.
pub fn put_texels(out: &mut [u32], floats: &mut [u8], n: usize, lanes: &[u16; LANES])
    requires { (n ≤ most_texels) × (4 * n ≤ length out.old) × (n ≤ length floats.old) }
    ensures out_after { out.new ≡
        put (numbers_from lanes.now) 0 (4 * n) out.old }
    ensures floats_after { floats.new ≡
        put (marks_from lanes.now) 0 n floats.old }
{
    put_numbers(out, n, lanes);
    put_marks(floats, n, lanes);
}

// Puts the numbers and the marks of n texels that all have the samples s.
pub fn fill_texels(out: &mut [u32], floats: &mut [u8], n: usize, s: Samples)
    requires { (n ≤ most_texels) × (4 * n ≤ length out.old) × (n ≤ length floats.old) }
    ensures out_after { out.new ≡ put (numbers_in s) 0 (4 * n) out.old }
    ensures floats_after { floats.new ≡ put (λ (i : ℕ). marks_of s) 0 n floats.old }
{
    let four = four_of(s);
    put_fours(out, n, move |_| four);
    let marks = marks_of(s);
    floats[..n].fill(marks);
}
