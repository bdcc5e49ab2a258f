// The values of an integer sequence, which is given as one number: with trits or with quints, group
// after group, or plain. Each function asks that `out` is all 0, that the range has at most `most`
// bits and that there are at most 64 values. No type holds this: the definition `range` makes
// ranges of any number of bits, and docs/PROMISES.md has `out` and n as a plain array and a number.
#![tactic(auto)]

ghost use Rattle.std.specs.Prelude.{◌≡◌, ◌≤◌, replicate};
ghost use Rattle.bits.specs.Blocks.{value_of};
ghost use Rattle.sequence_ranges.specs.Ranges.{range, most};
ghost use Rattle.sequence_groups.specs.Sequence.{values_of};

mod packing;

use bits::Block;
use packing::{Packing, Plain, Quints, Trits};
use sequence_ranges::{Kind, Range};

// Puts the n values of the sequence w, one group after the other. Values of groups of no bits are
// 0, which out already holds. It is compiled into each arm of `decode_packed_by`.
#[inline(always)]
fn decode_packed<P: Packing>(out: &mut [u8; 72], w: Block, b: usize, n: usize)
    requires { (out.old ≡ replicate 72 0) × (b ≤ most P.kind) × (n ≤ 64) }
    ensures { out.new ≡ values_of (range P.kind b) (value_of w) n }
{
    let size = P::size(b);
    if size == 0 {
        return;
    }
    let mut s = w;
    for i in (0..n).step_by(P::VALUES) {
        P::put(out, i, b, s.lo);
        s = bits::skip(s, size);
    }
    sequence_groups::clear(out, n);
}

// Puts the n values of the sequence w. Each arm knows the number of bits, so that its shifts are by
// constants, which are fewer instructions.
fn decode_packed_by<P: Packing>(out: &mut [u8; 72], w: Block, b: usize, n: usize)
    requires { (out.old ≡ replicate 72 0) × (b ≤ most P.kind) × (n ≤ 64) }
    ensures { out.new ≡ values_of (range P.kind b) (value_of w) n }
{
    match b {
        0 => decode_packed::<P>(out, w, 0, n),
        1 => decode_packed::<P>(out, w, 1, n),
        2 => decode_packed::<P>(out, w, 2, n),
        3 => decode_packed::<P>(out, w, 3, n),
        4 => decode_packed::<P>(out, w, 4, n),
        5 => decode_packed::<P>(out, w, 5, n),
        6 => decode_packed::<P>(out, w, 6, n),
        7 => decode_packed::<P>(out, w, 7, n),
        _ => decode_packed::<P>(out, w, 8, n),
    }
}

// Puts the n values of the sequence w, of any range, into out, which is all 0.
pub fn decode(out: &mut [u8; 72], w: Block, r: Range, n: usize)
    requires { (out.old ≡ replicate 72 0) × (r.bits ≤ most r.kind) × (n ≤ 64) }
    ensures { out.new ≡ values_of r (value_of w) n }
{
    match r.kind {
        Kind::Plain => decode_packed_by::<Plain>(out, w, r.bits, n),
        Kind::Trits => decode_packed_by::<Trits>(out, w, r.bits, n),
        Kind::Quints => decode_packed_by::<Quints>(out, w, r.bits, n),
    }
}
