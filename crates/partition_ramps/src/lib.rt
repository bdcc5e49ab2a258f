// The ramps of a partition number: its hash, and a start and two slopes for each partition.
#![tactic(auto)]

ghost use Rattle.std.specs.Prelude.{◌≡◌, ◌<◌, ◌≤◌};
ghost use Rattle.partition_ramps.specs.Ramps.{hash52, by_bit, by_count, shift_x, shift_y, factor};
ghost use Rattle.partition_ramps.specs.Held.{ramp_of};

// A ramp over a footprint: its value at the first texel, and its slopes along a row and down a
// column. Its bounds, `Gentle`, are no ghost field: the definitions `ramp_of` and `moved_to` make
// ramps of any numbers.
#[derive(Clone, Copy, Debug, PartialEq, Eq, Hash)]
pub struct Ramp {
    pub start: u16,
    pub along: u16,
    pub down: u16,
}

// The standard's hash of a seed, `hash52`.
pub fn hash(seed: u32) -> u32
    ensures { result ≡ hash52 seed }
{
    let a = seed ^ (seed >> 15);
    let b = a.wrapping_sub(a << 17);
    let c = b.wrapping_add(b << 7);
    let d = c.wrapping_add(c << 4);
    let e = d ^ (d >> 5);
    let f = e.wrapping_add(e << 16);
    let g = f ^ (f >> 7);
    let h = g ^ (g >> 3);
    let i = h ^ (h << 6);
    i ^ (i >> 17)
}

fn by_bit(seed: u32) -> u32
    ensures { result ≡ by_bit seed }
{
    if seed / 2 % 2 == 1 { 4 } else { 5 }
}

fn by_count(parts: usize) -> u32
    ensures { result ≡ by_count parts }
{
    if parts == 3 { 6 } else { 5 }
}

#[tactic(auto, unfolding(crate::specs::Ramps::shift_x))]
fn shift_x(seed: u32, parts: usize) -> u32
    ensures { result ≡ shift_x seed parts }
{
    if seed % 2 == 1 {
        by_bit(seed)
    } else {
        by_count(parts)
    }
}

#[tactic(auto, unfolding(crate::specs::Ramps::shift_y))]
fn shift_y(seed: u32, parts: usize) -> u32
    ensures { result ≡ shift_y seed parts }
{
    if seed % 2 == 1 {
        by_count(parts)
    } else {
        by_bit(seed)
    }
}

fn slope(r: u32, at: u32, shift: u32) -> u16
    requires { (at < 32) × ((4 ≤ shift) × (shift ≤ 6)) }
    ensures { (result ≡ factor r at shift) × (result ≤ 14) }
{
    let v = (r >> at) % 16;
    (v * v >> shift) as u16
}

// Ramp i of the hash r of a seed. A scale of 2 doubles the slopes, where the standard doubles the
// coordinates. The hash, the seed, the count and the scale stay parameters, as docs/PROMISES.md has
// them.
pub fn ramp_of(r: u32, seed: u32, parts: usize, i: u32, scale: u16) -> Ramp
    requires { (r ≡ hash52 seed) × ((i < 4) × (scale ≤ 2)) }
    ensures { result ≡ ramp_of seed parts i scale }
{
    Ramp {
        start: ((r >> (14 - 4 * i)) % 64) as u16,
        along: scale * slope(r, 8 * i, shift_x(seed, parts)),
        down: scale * slope(r, 8 * i + 4, shift_y(seed, parts)),
    }
}
