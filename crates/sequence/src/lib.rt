// Integer sequences in a block: where they stand, upwards from a bit or downwards from its end.
// Each function asks that `out` is all 0, that the range has at most `most` bits and that there are
// at most 64 values. No type holds this: the definition `range` makes ranges of any number of bits,
// and docs/PROMISES.md has `out` and n as a plain array and a number.
#![tactic(auto)]

ghost use Rattle.std.specs.Prelude.{◌≡◌, ◌≤◌, replicate};
ghost use Rattle.bits.specs.Bits.{bits_at, reversed};
ghost use Rattle.bits.specs.Blocks.{value_of};
ghost use Rattle.sequence_ranges.specs.Ranges.{most, total_of};
ghost use Rattle.sequence_groups.specs.Sequence.{values_of};

use bits::Block;
use sequence_ranges::Range;

// Puts the n values of the sequence that stands in the block upwards from bit `offset` into out,
// which is all 0.
pub fn decode_intseq(out: &mut [u8; 72], block: Block, offset: usize, r: Range, n: usize)
    requires { (out.old ≡ replicate 72 0) × (r.bits ≤ most r.kind) × (n ≤ 64) × (offset ≤ 128) }
    ensures { out.new ≡
        values_of r (bits_at (value_of block) offset (total_of r n)) n }
{
    sequence_values::decode(
        out,
        bits::cut(block, offset, sequence_ranges::total(r, n)),
        r,
        n,
    )
}

// Puts the n values of the sequence that stands in the block downwards from bit 127 into out, which
// is all 0.
pub fn decode_intseq_reverse(out: &mut [u8; 72], block: Block, r: Range, n: usize)
    requires { (out.old ≡ replicate 72 0) × (r.bits ≤ most r.kind) × (n ≤ 64) }
    ensures { out.new ≡
        values_of r (bits_at (reversed 128 (value_of block)) 0 (total_of r n)) n }
{
    decode_intseq(out, bits_reversal::reverse(block), 0, r, n)
}
