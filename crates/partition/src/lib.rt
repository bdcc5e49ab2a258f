// Partitions: the partition of each texel, by the ramps of a partition number.
#![tactic(auto)]

ghost use Rattle.std.specs.Prelude.{◌≡◌, ℕ, ◌+◌, ◌*◌, ◌≤◌, ◌<◌};
ghost use Rattle.laws.specs.Lists.{put, put_at, texels};
ghost use Rattle.partition_ramps.specs.Held.{Gentle};
ghost use Rattle.partition.specs.Partition.{largest, scale_of, partition_at};
ghost use Rattle.footprint.specs.Footprints.{texels_of, most_texels};
ghost use Rattle.footprint.specs.Sides.{Sides};
ghost use Rattle.partition.specs.Rows.{moved_to, in_row, in_row_of_two, in_row_of_four};

use footprint::{Footprint, TEXELS};
use partition_ramps::{Ramp, ramp_of};

// The ramp k moved down to row t: it starts with the value that k has in the first column of that
// row.
fn moved(k: Ramp, t: usize) -> Ramp
    requires { (Gentle k) × (t < 12) }
    ensures { result ≡ moved_to k t }
{
    Ramp {
        start: (k.start + k.down * t as u16) % 64,
        along: k.along,
        down: k.down,
    }
}

// The ramp's value at column s of the row that it starts.
fn in_row(k: Ramp, s: usize) -> u16
    requires { (Gentle k) × (s < 12) }
    ensures { result ≡ in_row k s }
{
    (k.start + k.along * s as u16) % 64
}

fn larger_of_two(a: u16, b: u16) -> u8
    ensures { result ≡ largest a b 0 0 }
{
    u8::from(a < b)
}

// The larger of each pair is found first, so that neither pair waits for the other.
fn largest_of_four(a: u16, b: u16, c: u16, d: u16) -> u8
    ensures { result ≡ largest a b c d }
{
    if a.max(b) < c.max(d) {
        if c < d { 3 } else { 2 }
    } else {
        u8::from(a < b)
    }
}

// The ramps of a block's partitions, which start at a row of the footprint.
trait Ramps: Copy {
    ghost gentle: { Self → Type 0 };

    ghost moved: { Self → ℕ → Self };

    ghost in_row: { Self → ℕ → ℕ };

    // The ramps moved down to row t.
    fn moved(self, t: usize) -> Self
        requires { gentle self × t < 12 }
        ensures { (result ≡ moved self t) × gentle result };

    // The partition at column s of the row that the ramps start.
    fn in_row(self, s: usize) -> u8
        requires { gentle self × s < 12 }
        ensures { result ≡ in_row self s };
}

// The ramps of two partitions. `Two` and `Four` are two types, and no array of a const size: the
// partition is found by one comparison in the one and by three in the other, so that a const
// parameter would leave a case for each size.
#[derive(Clone, Copy, Debug, PartialEq, Eq, Hash)]
struct Two {
    a: Ramp,
    b: Ramp,
}

// The ramps of four partitions, or of three and a flat one.
#[derive(Clone, Copy, Debug, PartialEq, Eq, Hash)]
struct Four {
    a: Ramp,
    b: Ramp,
    c: Ramp,
    d: Ramp,
}

impl Ramps for Two {
    ghost gentle = { λ r. Gentle r.a × Gentle r.b };

    ghost moved = { λ r t. record { a = moved_to r.a t; b = moved_to r.b t } };

    ghost in_row = { λ r s. in_row_of_two r.a r.b s };

    fn moved(self, t: usize) -> Two {
        Two {
            a: moved(self.a, t),
            b: moved(self.b, t),
        }
    }

    fn in_row(self, s: usize) -> u8 {
        larger_of_two(in_row(self.a, s), in_row(self.b, s))
    }
}

impl Ramps for Four {
    ghost gentle = { λ r. Gentle r.a × (Gentle r.b × (Gentle r.c × Gentle r.d)) };

    ghost moved = { λ r t. record { a = moved_to r.a t; b = moved_to r.b t; c = moved_to r.c t; d = moved_to r.d t } };

    ghost in_row = { λ r s. in_row_of_four r.a r.b r.c r.d s };

    fn moved(self, t: usize) -> Four {
        Four {
            a: moved(self.a, t),
            b: moved(self.b, t),
            c: moved(self.c, t),
            d: moved(self.d, t),
        }
    }

    fn in_row(self, s: usize) -> u8 {
        largest_of_four(
            in_row(self.a, s),
            in_row(self.b, s),
            in_row(self.c, s),
            in_row(self.d, s),
        )
    }
}

// Puts the partition of each texel of a row that starts at o.
fn fill_row<R: Ramps>(out: &mut [u8; TEXELS], o: usize, width: usize, ramps: R)
    requires gentle { R.gentle ramps }
    requires places { o + width ≤ most_texels }
    requires width { width ≤ 12 }
    ensures { out.new ≡ put_at (R.in_row ramps) o width out.old }
{
    for s in 0..width {
        out[o + s] = ramps.in_row(s);
    }
}

// Puts the partition of each texel of a footprint, row by row.
fn fill<R: Ramps>(out: &mut [u8; TEXELS], ramps: R, f: Footprint)
    requires gentle { R.gentle ramps }
    requires sides { Sides f }
    ensures { out.new ≡
        put (texels (λ s t. R.in_row (R.moved ramps t) s) f.width) 0 (texels_of f) out.old }
{
    let width = f.width;
    let height = f.height;
    for t in 0..height {
        fill_row(out, width * t, width, ramps.moved(t));
    }
}

fn scale_of(f: Footprint) -> u16
    requires { Sides f }
    ensures { (result ≡ scale_of f) × (result ≤ 2) }
{
    if f.width * f.height < 31 { 2 } else { 1 }
}

// Puts the partition of each texel of a footprint, row by row. The hash and the ramps are worked
// out once a block; with three partitions the fourth ramp is flat.
pub fn select_partition(out: &mut [u8; TEXELS], number: u32, parts: usize, f: Footprint)
    requires { (number < 1024) × (((2 ≤ parts) × (parts ≤ 4)) × (Sides f)) }
    ensures { out.new ≡
        put (partition_at number parts f) 0 (texels_of f) out.old }
{
    let seed = number + 1024 * (parts as u32 - 1);
    let r = partition_ramps::hash(seed);
    let scale = scale_of(f);
    let a = ramp_of(r, seed, parts, 0, scale);
    let b = ramp_of(r, seed, parts, 1, scale);
    if parts == 2 {
        return fill(out, Two { a, b }, f);
    }
    let c = ramp_of(r, seed, parts, 2, scale);
    if parts == 3 {
        let d = Ramp {
            start: 0,
            along: 0,
            down: 0,
        };
        return fill(out, Four { a, b, c, d }, f);
    }
    let d = ramp_of(r, seed, parts, 3, scale);
    fill(out, Four { a, b, c, d }, f)
}
