// The ranges of integer sequences: how their values are packed, the bits that a sequence takes, and
// the tables of trits and quints.
#![tactic(auto)]

ghost use Rattle.std.specs.Prelude.{◌≡◌, ◌≤◌, ◌<◌};
ghost use Rattle.footprint.specs.Footprints.{most_weights};
ghost use Rattle.sequence_ranges.specs.Ranges.{range_of, most, total_of};
ghost use Rattle.sequence_ranges.specs.Digits.{trit_table, quint_table};

mod tables;

use tables::{QUINTS_TABLE, TRITS_TABLE};

// How the values of a range are packed: each in its own bits alone, or five with their trits, or
// three with their quints.
#[derive(Clone, Copy, Debug, PartialEq, Eq, Hash)]
pub enum Kind {
    Plain,
    Trits,
    Quints,
}

// A range of values: how they are packed, and the plain bits of each. That the bits are at most
// `most` is asked by functions and is no ghost field: the definition `range` makes ranges of any
// number of bits.
#[derive(Clone, Copy, Debug, PartialEq, Eq, Hash)]
pub struct Range {
    pub kind: Kind,
    pub bits: usize,
}

// The table whose entry t has the five trits that the byte t packs, three bits each.
pub fn trits() -> &'static [u16; 256]
    ensures { result.now ≡ trit_table }
{
    &TRITS_TABLE
}

// The table whose entry q has the three quints that the seven bits q pack, three bits each.
pub fn quints() -> &'static [u16; 128]
    ensures { result.now ≡ quint_table }
{
    &QUINTS_TABLE
}

// The range of number q, of the 21 that the standard lists upwards. The number is no type of its
// own: `range_of` and the other definitions, `cost` and `endpoint_value` among them, speak of the
// number itself.
pub fn range_of(q: usize) -> Range
    requires { q < 21 }
    ensures { result ≡ range_of q }
{
    if q == 0 {
        return Range {
            kind: Kind::Plain,
            bits: 1,
        };
    }
    match q % 3 {
        0 => Range {
            kind: Kind::Quints,
            bits: q / 3 - 1,
        },
        1 => Range {
            kind: Kind::Trits,
            bits: q / 3,
        },
        _ => Range {
            kind: Kind::Plain,
            bits: q / 3 + 2,
        },
    }
}

// The bits of a sequence of n values.
pub fn total(r: Range, n: usize) -> usize
    requires { (r.bits ≤ most r.kind) × (n ≤ most_weights) }
    ensures { result ≡ total_of r n }
{
    let plain = n * r.bits;
    match r.kind {
        Kind::Plain => plain,
        Kind::Trits => plain + (n * 8 + 4) / 5,
        Kind::Quints => plain + (n * 7 + 2) / 3,
    }
}
