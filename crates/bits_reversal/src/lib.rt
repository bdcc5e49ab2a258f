// Bits in the other order, of a word and of a block, by masks and shifts.
#![tactic(auto)]

ghost use Rattle.std.specs.Prelude.{◌≡◌, ◌/◌};
ghost use Rattle.bits.specs.Bits.{reversed};
ghost use Rattle.bits.specs.Blocks.{value_of};
ghost use Rattle.bits_reversal.specs.Swaps.{SwapGiven, runs_swapped};

use bits::Block;

// A word whose neighbouring runs of n bits have changed places, the first with the second, the
// third with the fourth and so on. The mask has ones at the first, the third and so on.
fn swap_runs(x: u64, n: usize, mask: u64) -> u64
    requires { SwapGiven n mask }
    ensures { result ≡ runs_swapped n (32 / n) x }
{
    ((x & mask) << n) + ((x >> n) & mask)
}

// A word with its bits in the other order: neighbouring bits change places, then neighbouring pairs
// of bits, nibbles, bytes, quarters and halves of the word. The library's `reverse_bits` goes bit
// by bit: tried, and a one-partition 4x4 block then took a fifth more time.
pub fn bit_reverse_u64(x: u64) -> u64
    ensures { result ≡ reversed 64 x }
{
    let in_pairs = swap_runs(x, 1, 0x5555_5555_5555_5555);
    let in_nibbles = swap_runs(in_pairs, 2, 0x3333_3333_3333_3333);
    let in_bytes = swap_runs(in_nibbles, 4, 0x0f0f_0f0f_0f0f_0f0f);
    let in_quarters = swap_runs(in_bytes, 8, 0x00ff_00ff_00ff_00ff);
    let in_halves = swap_runs(in_quarters, 16, 0x0000_ffff_0000_ffff);
    swap_runs(in_halves, 32, 0x0000_0000_ffff_ffff)
}

// The block with its bits in the other order. The block is two words, so that no library call on
// one number serves it.
pub fn reverse(b: Block) -> Block
    ensures { value_of result ≡ reversed 128 (value_of b) }
{
    Block {
        lo: bit_reverse_u64(b.hi),
        hi: bit_reverse_u64(b.lo),
    }
}
