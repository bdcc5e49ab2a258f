// The bytes of a request and of an answer: numbers read from the one and put into the other.
ghost use Rattle.std.specs.Prelude.{◌+◌, ◌≤◌, ◌<◌, length};

use bits::Block;
use footprint::Footprint;

// Number i of a request. Each is one byte, which the layers take as a number of a word.
pub(crate) fn at(ask: &[u8; 32], i: usize) -> usize
    requires { i < 32 }
    ensures { result < 256 }
{
    usize::from(ask[i])
}

// Two bytes of a request as one number, the low byte first.
pub(crate) fn pair_at(ask: &[u8; 32], i: usize) -> u16
    requires { i < 31 }
{
    u16::from_le_bytes([ask[i], ask[i + 1]])
}

pub(crate) fn block_of(ask: &[u8; 32]) -> Block {
    block_load::load(&ask[16..])
}

// Puts bytes into an answer, from place i on.
pub(crate) fn put_bytes(out: &mut [u8; 288], i: usize, bytes: &[u8])
    requires { i + length bytes.now ≤ 288 }
{
    out[i..i + bytes.len()].copy_from_slice(bytes);
}

pub(crate) fn put(out: &mut [u8; 288], i: usize, x: usize)
    requires { i < 288 }
{
    out[i] = (x % 256) as u8;
}

pub(crate) fn put_u16(out: &mut [u8; 288], i: usize, x: u16)
    requires { i < 287 }
{
    put_bytes(out, i, &x.to_le_bytes());
}

pub(crate) fn put_u32(out: &mut [u8; 288], i: usize, x: u32)
    requires { i < 285 }
{
    put_bytes(out, i, &x.to_le_bytes());
}

pub(crate) fn put_u64(out: &mut [u8; 288], i: usize, x: u64)
    requires { i < 281 }
{
    put_bytes(out, i, &x.to_le_bytes());
}

// The footprint whose sides are two bytes of a request. The other programs that read one have these
// lines too: a function for all would be public, with a crate for two conversions.
pub(crate) fn footprint_at(ask: &[u8; 32], i: usize) -> Footprint
    requires { i < 31 }
{
    Footprint {
        width: at(ask, i),
        height: at(ask, i + 1),
    }
}
