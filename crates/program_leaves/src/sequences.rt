// Answers on bits, tables and integer sequences.
ghost use Rattle.std.specs.Prelude.{◌≡◌, ◌≤◌, ◌<◌};
ghost use Rattle.sequence_ranges.specs.Ranges.{range_of, most};
ghost use Rattle.program_leaves.specs.ValuesIn.{ValuesIn};

use crate::frame;
use bits::Block;
use sequence_ranges::Range;

// Answers with a field of the block and with the block reversed.
pub(crate) fn reply_bits(out: &mut [u8; 288], ask: &[u8; 32]) {
    let b = frame::block_of(ask);
    let start = frame::at(ask, 1);
    let len = frame::at(ask, 2);
    if len <= 64 {
        frame::put_u64(out, 0, bits::getbits(b, start, len));
    }
    let r = bits_reversal::reverse(b);
    frame::put_u64(out, 8, r.lo);
    frame::put_u64(out, 16, r.hi);
}

// Answers with an entry of each table.
pub(crate) fn reply_tables(out: &mut [u8; 288], ask: &[u8; 32]) {
    let i = frame::at(ask, 1);
    frame::put_u16(out, 0, sequence_ranges::trits()[i]);
    frame::put_u16(out, 2, sequence_ranges::quints()[i % 128]);
}

fn legal_range(q: usize) -> Range
    requires { q < 21 }
    ensures { (result ≡ range_of q) × (result.bits ≤ most result.kind) }
{
    sequence_ranges::range_of(q)
}

// The n values of a sequence of range q, read upwards from bit `offset`.
pub(crate) fn values_of(b: Block, q: usize, n: usize, offset: usize) -> [u8; 72]
    requires { (q < 21) × ((n ≤ 64) × (offset ≤ 128)) }
    ensures { ValuesIn q n result }
{
    let mut seq = [0u8; 72];
    sequence::decode_intseq(&mut seq, b, offset, legal_range(q), n);
    seq
}

// The n values of a sequence of range q, read downwards from the block's end.
pub(crate) fn values_down(b: Block, q: usize, n: usize) -> [u8; 72]
    requires { (q < 21) × (n ≤ 64) }
    ensures { ValuesIn q n result }
{
    let mut seq = [0u8; 72];
    sequence::decode_intseq_reverse(&mut seq, b, legal_range(q), n);
    seq
}

pub(crate) fn reply_sequence(out: &mut [u8; 288], ask: &[u8; 32]) {
    let q = frame::at(ask, 1);
    let n = frame::at(ask, 2);
    let offset = frame::at(ask, 3);
    if q < 21 && n <= 64 && offset <= 128 {
        let b = frame::block_of(ask);
        let seq = match ask[4] {
            1 => values_down(b, q, n),
            _ => values_of(b, q, n, offset),
        };
        frame::put_bytes(out, 0, &seq);
    }
}
