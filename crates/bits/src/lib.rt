// A block of 128 bits, and its fields. These are functions and not methods of `Block`, since
// docs/PROMISES.md has their names. Parts of a word that share no bit are joined by a sum, since
// the definitions of numbers in specs/ are sums.
#![tactic(auto)]

ghost use Rattle.std.specs.Prelude.{◌≡◌, ◌/◌, ◌%◌, ◌^◌, ◌≤◌, ◌<◌};
ghost use Rattle.bits.specs.Bits.{bits_at};
ghost use Rattle.bits.specs.Blocks.{value_of};

// A block as two words, as the original has it, and no `u128`: the definition `value_of` is stated
// over the two, and so are theorems that speak of a block.
#[derive(Clone, Copy, Debug, PartialEq, Eq, Hash)]
pub struct Block {
    pub lo: u64,
    pub hi: u64,
}

// The low len bits of x.
fn low(x: u64, len: usize) -> u64
    requires { len ≤ 64 }
    ensures { result ≡ x % 2 ^ len }
{
    if len < 64 { x % (1 << len) } else { x }
}

// The 64 bits of the block from start on.
fn from(b: Block, start: usize) -> u64
    ensures { result ≡ bits_at (value_of b) start 64 }
{
    let lo = b.lo;
    let hi = b.hi;
    if start == 0 {
        return lo;
    }
    if start < 64 {
        return (lo >> start) + (hi << (64 - start));
    }
    if start < 128 {
        return hi >> (start - 64);
    }
    0
}

// The len bits of the block from start on; past the block's end they are 0.
pub fn getbits(b: Block, start: usize, len: usize) -> u64
    requires { len ≤ 64 }
    ensures { (result ≡ bits_at (value_of b) start len) × (result < 2 ^ len) }
{
    low(from(b, start), len)
}

// The len bits of the block from start on, as a block.
pub fn cut(b: Block, start: usize, len: usize) -> Block
    requires { start ≤ 128 }
    ensures { value_of result ≡ bits_at (value_of b) start len }
{
    if len <= 64 {
        return Block {
            lo: getbits(b, start, len),
            hi: 0,
        };
    }
    if len <= 128 {
        return Block {
            lo: from(b, start),
            hi: getbits(b, start + 64, len - 64),
        };
    }
    Block {
        lo: from(b, start),
        hi: from(b, start + 64),
    }
}

// The block without its low n bits.
pub fn skip(b: Block, n: usize) -> Block
    requires { (0 < n) × (n < 64) }
    ensures { value_of result ≡ value_of b / 2 ^ n }
{
    Block {
        lo: (b.lo >> n) + (b.hi << (64 - n)),
        hi: b.hi >> n,
    }
}
