// What the low configuration of a block says: the grid of its weights, their range and planes, its
// partitions and where their modes stand.
#![tactic(auto)]

ghost use Rattle.std.specs.Prelude.{◌≡◌, cond, false, ◌*◌, ◌≤◌, ◌<◌};
ghost use Rattle.footprint.specs.Footprints.{most_weights};
ghost use Rattle.bits.specs.Bits.{bits_at};
ghost use Rattle.params_config.specs.Ranges.{cost};
ghost use Rattle.params_config.specs.Config.{is_reserved, grid_low, grid_high, grid_of, weight_r, lacks_dh, parts_of, extra_mode_bits, partitions_of, config_of};

use params_modes::Modes;

// The grid of a block's weights. It is no `Footprint`, though it has the same fields: the
// definitions `grid_low`, `grid_high` and `grid_of` give this record, and it counts weights and no
// texels.
#[derive(Clone, Copy, Debug, PartialEq, Eq, Hash)]
pub struct Grid {
    pub width: usize,
    pub height: usize,
}

// What the low configuration says of the partitions.
#[derive(Clone, Copy, Debug, PartialEq, Eq, Hash)]
pub struct Partitions {
    pub parts: usize,
    pub number: usize,
    pub base: usize,
    pub low_modes: usize,
    pub values: usize,
    pub low_len: usize,
    pub mode_bits: usize,
}

// What the low configuration says of a block whose mode is not reserved. The base and the low modes
// are the endpoint modes as they stand in it: the base is 0 where one mode serves all partitions,
// and the low modes are the four lowest of the mode bits. The base is a number, as the standard has
// it in two bits and the definition `mode_base` gives it. Its bounds, `ConfigBounds`, are no ghost
// field: a block that is refused has a configuration of zeros, which has none. Its grid and its
// partitions are no fields, since the definitions and theorems name the numbers in them.
#[derive(Clone, Copy, Debug, Default, PartialEq, Eq, Hash)]
pub struct Config {
    pub width: usize,
    pub height: usize,
    pub weight_range: usize,
    pub planes: usize,
    pub parts: usize,
    pub number: usize,
    pub base: usize,
    pub low_modes: usize,
    pub values: usize,
    pub low_len: usize,
    pub mode_bits: usize,
    pub weight_len: usize,
}

// The bits of n values of the range of number q. A range goes by its number here, since the
// definition `cost` speaks of it.
pub fn range_bits(q: usize, n: usize) -> usize
    requires { (q < 21) × (n ≤ most_weights) }
    ensures { result ≡ cost q n }
{
    sequence_ranges::total(sequence_ranges::range_of(q), n)
}

// Whether the block mode is one that no block may have.
pub fn is_reserved(c: usize) -> bool
    ensures { result ≡ is_reserved c }
{
    c % 16 == 0 || c % 4 == 0 && c / 64 % 8 == 7
}

fn grid_high(c: usize) -> Grid
    ensures { result ≡ grid_high c }
{
    let a = c / 32 % 4;
    let b = c / 128 % 4;
    let (width, height) = match c / 4 % 4 {
        0 => (b + 4, a + 2),
        1 => (b + 8, a + 2),
        2 => (a + 2, b + 8),
        _ if c / 256 % 2 == 0 => (a + 2, c / 128 % 2 + 6),
        _ => (c / 128 % 2 + 2, a + 2),
    };
    Grid { width, height }
}

fn grid_low(c: usize) -> Grid
    ensures { result ≡ grid_low c }
{
    let a = c / 32 % 4;
    let (width, height) = match c / 128 % 4 {
        0 => (12, a + 2),
        1 => (a + 2, 12),
        2 => (a + 6, c / 512 % 4 + 6),
        _ if c / 32 % 2 == 0 => (6, 10),
        _ => (10, 6),
    };
    Grid { width, height }
}

fn grid_of(c: usize) -> Grid
    ensures { result ≡ grid_of c }
{
    if c % 4 == 0 {
        grid_low(c)
    } else {
        grid_high(c)
    }
}

fn r_of(c: usize) -> usize
    ensures { result ≡ weight_r c }
{
    match c % 4 {
        0 => c / 16 % 2 + 2 * (c / 4 % 4),
        low => c / 16 % 2 + 2 * low,
    }
}

fn lacks_dh(c: usize) -> bool
    ensures { result ≡ lacks_dh c }
{
    c % 4 == 0 && c / 128 % 4 == 2
}

// Bit n of the block mode, of 9 for H, the weights' high precision, and of 10 for D, two planes.
fn dh_bit(c: usize, n: usize) -> usize
    requires { n ≤ 10 }
    ensures { result ≡ cond (lacks_dh c) 0 (bits_at c n 1) }
{
    if lacks_dh(c) { 0 } else { (c >> n) % 2 }
}

// The mode bits of a block with several partitions that stand below its weights: with a base, 3 for
// each partition less 4.
fn extra_mode_bits(parts: usize, base: usize) -> usize
    requires { (2 ≤ parts) × (parts ≤ 4) }
    ensures { result ≡ extra_mode_bits parts base }
{
    if base == 0 { 0 } else { 3 * parts - 4 }
}

// One partition is the common case: it has no number, no base and one mode.
fn one_partition(c: usize) -> Partitions
    requires { parts_of c ≡ 1 }
    ensures { result ≡ partitions_of c }
{
    let mode = c / 8192 % 16;
    Partitions {
        parts: 1,
        number: 0,
        base: 0,
        low_modes: mode,
        values: 2 * (mode / 4) + 2,
        low_len: 17,
        mode_bits: 0,
    }
}

fn several_partitions(c: usize, parts: usize) -> Partitions
    requires { (parts ≡ parts_of c) × ((2 ≤ parts) × (parts ≤ 4)) }
    ensures { result ≡ partitions_of c }
{
    let base = c / 8388608 % 4;
    let low_modes = c / 33554432 % 16;
    let modes = Modes {
        parts,
        base,
        code: low_modes,
    };
    Partitions {
        parts,
        number: c / 8192 % 1024,
        base,
        low_modes,
        values: params_modes::values_of(modes),
        low_len: 29,
        mode_bits: extra_mode_bits(parts, base),
    }
}

fn read_partitions(c: usize) -> Partitions
    ensures { result ≡ partitions_of c }
{
    match c / 2048 % 4 + 1 {
        1 => one_partition(c),
        parts => several_partitions(c, parts),
    }
}

fn weights_of(g: Grid, planes: usize) -> usize
    requires { (g.width ≤ 12) × ((g.height ≤ 12) × (planes ≤ 2)) }
    ensures { result ≡ g.width * g.height * planes }
{
    g.width * g.height * planes
}

// What the low configuration c says.
pub fn read_config(c: usize) -> Config
    requires { is_reserved c ≡ false }
    ensures { result ≡ config_of c }
{
    let g = grid_of(c);
    let weight_range = r_of(c) - 2 + 6 * dh_bit(c, 9);
    let planes = 1 + dh_bit(c, 10);
    let p = read_partitions(c);
    let weights = weights_of(g, planes);
    Config {
        width: g.width,
        height: g.height,
        weight_range,
        planes,
        parts: p.parts,
        number: p.number,
        base: p.base,
        low_modes: p.low_modes,
        values: p.values,
        low_len: p.low_len,
        mode_bits: p.mode_bits,
        weight_len: range_bits(weight_range, weights),
    }
}
