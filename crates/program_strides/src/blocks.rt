// The data of the images: blocks of all kinds in turn, and how many of them break a rule. The kinds
// are test data: their numbers come of counting blocks modulo eight, and say nothing elsewhere.
use answers::Verdict;
use footprint::{Footprint, TEXELS};
use program_compare::MARKER;

// The next state of the generator of bytes.
fn advanced(state: u64) -> u64 {
    (state % 0x8000_0000 * 1103515245 + 12345) % 0x8000_0000
}

fn byte_of(state: u64) -> u8 {
    (state / 0x1_0000 % 256) as u8
}

// The first byte of a block of a kind. Kinds 0 to 4 have grids of weights that every footprint has
// room for, unless kind 1's second byte widens them; 5 is void, and 6 and 7 are any bytes.
fn first_byte(kind: usize, random: u8) -> u8 {
    match kind {
        0 | 1 => 0x42,
        2 => 0x53,
        3 => 0x22,
        4 => 0x51,
        5 => 0xfc,
        _ => random,
    }
}

// The second byte of a block of a kind: two planes in kind 3, two partitions in kind 4.
fn second_byte(kind: usize, random: u8) -> u8 {
    match kind {
        0 => 0x00,
        2 => 0xc0,
        3 => 0x84,
        4 => 0x08,
        5 => 0x01,
        _ => random,
    }
}

fn byte_at(place: usize, kind: usize, random: u8) -> u8 {
    match place {
        0 => first_byte(kind, random),
        1 => second_byte(kind, random),
        _ => random,
    }
}

// Fills blocks of all kinds in turn, from the kind that the seed names on.
pub(crate) fn fill(data: &mut [u8], seed: usize) {
    let mut state = seed as u64;
    for (k, byte) in data.iter_mut().enumerate() {
        state = advanced(state);
        *byte = byte_at(k % 16, (k / 16 + seed % 8) % 8, byte_of(state));
    }
}

// Whether a block by itself breaks a rule.
fn is_bad(block: &[u8], f: Footprint) -> bool {
    let mut words = [MARKER; TEXELS];
    let outcome = block::decode_astc_block(block, f, &mut words);
    matches!(outcome, Ok(Verdict::Broken(_)))
}

// How many blocks break a rule, each by itself.
pub(crate) fn count_bad(data: &[u8], f: Footprint) -> usize {
    data.chunks_exact(16)
        .filter(|block| is_bad(block, f))
        .count()
}
