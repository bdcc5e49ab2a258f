// Numbers of 16 bits, lanes, as loops write them for eight texels at a time: the words of texels in
// two lanes each, which leave whole for an output, or their samples in four.
#![tactic(auto)]

ghost use Rattle.std.specs.Prelude.{◌≡◌, ℕ, ◌+◌, ◌≤◌, ◌<◌, length};
ghost use Rattle.laws.specs.Lists.{put_at};
ghost use Rattle.footprint.specs.Footprints.{most_texels, most_weights};
ghost use Rattle.lanes.specs.Lanes.{eights, joined_at};

// Four lanes for each texel of the largest footprint.
pub const LANES: usize = 576;

// What the lanes of a block are to hold: the words of its texels, or the samples of their channels.
#[derive(Clone, Copy, Debug, PartialEq, Eq, Hash)]
pub enum Form {
    Words,
    Samples,
}

// n rounded up to a multiple of eight: a loop over eight lanes at a time has no remainder there.
pub fn eights(n: usize) -> usize
    requires { n ≤ most_weights }
    ensures { result ≡ eights n }
{
    n.div_ceil(8) * 8
}

// The word of texel i. Its lanes share no bit, and are joined by a sum as in the definition
// `joined_at`.
pub fn word(lanes: &[u16; LANES], i: usize) -> u32
    requires { i < most_texels }
    ensures { result ≡ joined_at lanes.now i }
{
    u32::from(lanes[2 * i]) + 0x1_0000 * u32::from(lanes[2 * i + 1])
}

// Copies the words of texels from .. from + n to out[to .. to + n]. It is given the whole output
// and a place in it, and not the part, as docs/PROMISES.md states what becomes of the other places.
pub fn copy(lanes: &[u16; LANES], from: usize, out: &mut [u32], to: usize, n: usize)
    requires { (from + n ≤ most_texels) × (to + n ≤ length out.old) }
    ensures { out.new ≡
        put_at (λ (i : ℕ). joined_at lanes.now (from + i)) to n out.old }
{
    for i in 0..n {
        out[to + i] = word(lanes, from + i);
    }
}

// Fills out[to .. to + n] with one word. It is given the whole output too, and not the part, as
// docs/PROMISES.md states what becomes of the other places.
pub fn fill(word: u32, out: &mut [u32], to: usize, n: usize)
    requires { to + n ≤ length out.old }
    ensures { out.new ≡ put_at (λ (i : ℕ). word) to n out.old }
{
    out[to..to + n].fill(word);
}
