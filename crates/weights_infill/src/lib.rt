// The weights of a footprint's texels between the points of its grid, for any grid. That an output is
// all 0 at entry is asked by each function that fills it, since a type cannot say it of an output.
#![tactic(auto)]

ghost use Rattle.std.specs.Prelude.{◌≡◌, ℕ, ◌+◌, ◌*◌, ◌/◌, ◌%◌, ◌≤◌, ◌<◌, get_or, replicate};
ghost use Rattle.laws.specs.Lists.{put, put_at, list_of};
ghost use Rattle.weights_grid.specs.Grids.{place_of, count_of, Fits};
ghost use Rattle.weights_infill.specs.Infill.{infill_of};
ghost use Rattle.weights_infill.specs.Fast.{pair_of, low_of, Pairs, spread_at, between, row_at, rows_of, texels, plane_of};
ghost use Rattle.footprint.specs.Footprints.{most_texels, most_weights};
ghost use Rattle.lanes.specs.Lanes.{eights};

use footprint::{TEXELS, WEIGHTS};
use weights_grid::Grid;

// Puts, for each column of the footprint, the place in a grid row of the point to its left, and how
// many sixteenths the column lies beyond that point: in two arrays, of which each is read by a loop
// of its own.
fn columns(at: &mut [u16; 16], part: &mut [u16; 16], g: Grid)
    requires { Fits g }
    ensures at_after { at.new ≡
        put (λ (s : ℕ). place_of g.footprint.width g.width s / 16 * g.planes) 0
        (eights g.footprint.width) at.old }
    ensures part_after { part.new ≡
        put (λ (s : ℕ). place_of g.footprint.width g.width s % 16) 0
        (eights g.footprint.width) part.old }
{
    let d = weights_grid::step_of(g.footprint.width);
    let width = g.width as u16;
    let planes = g.planes as u16;
    for s in 0..lanes::eights(g.footprint.width) {
        let p = weights_grid::place(d, s as u16, width);
        at[s] = p / 16 * planes;
        part[s] = p % 16;
    }
}

// Puts, for each weight of a grid, that weight and the next of its plane as the two bytes of a
// number: a sum, as `pair_of` has it, and `mixed` takes it apart by the same 256. `from_le_bytes` on an
// array of two is no plainer.
fn neighbours(out: &mut [u16; 72], n: usize, planes: usize, wv: &[u8; WEIGHTS])
    requires { (n ≤ 64) × (planes ≤ 2) }
    ensures { out.new ≡
        put (pair_of planes wv.now) 0 (eights n) out.old }
{
    for i in 0..lanes::eights(n) {
        out[i] = u16::from(wv[i]) + 256 * u16::from(wv[i + planes]);
    }
}

// Puts the pairs of the grid row that starts at k, one for each column of the footprint, to out[o
// .. o + width]. It has six parameters, and `fill_row` seven: a record of them would be made anew for
// every row. The two loops write arrays of other types.
fn spread_row(
    out: &mut [u16; 208],
    o: usize,
    width: usize,
    at: &[u16; 16],
    next: &[u16; 72],
    k: usize,
)
    requires { (o + width ≤ 208) × (width ≤ 16) ×
        ((s : ℕ) → s < width → k + get_or at.now s 0 < 72) }
    ensures { out.new ≡
        put_at (λ (s : ℕ). get_or next.now (k + get_or at.now s 0) 0) o width
        out.old }
{
    for s in 0..width {
        out[o + s] = next[k + usize::from(at[s])];
    }
}

// Puts the pairs of every grid row, one for each column of the footprint; row j starts at 16 * j.
// Where the row starts in the grid's sequence is counted in k: the product with three factors is no
// plainer.
fn spread(out: &mut [u16; 208], g: Grid, at: &[u16; 16], next: &[u16; 72], plane: usize)
    requires fits { (Fits g) × (plane < g.planes) × (out.old ≡ replicate 208 0) }
    requires columns { (s : ℕ) → s < g.footprint.width → get_or at.now s 0 ≡
        place_of g.footprint.width g.width s / 16 * g.planes }
    requires past { (k : ℕ) → count_of g ≤ k → get_or next.now k 0 ≡ 0 }
    ensures { out.new ≡ list_of (spread_at g next.now plane) 0 208 }
{
    let mut k = plane;
    for j in 0..g.height {
        spread_row(out, 16 * j, g.footprint.width, at, next, k);
        k += g.width * g.planes;
    }
}

// The weight between the pairs a above and b below.
fn mixed(a: u16, b: u16, f: u16, h: u16) -> u8
    requires { (f < 16) × (h < 16) }
    ensures { result ≡ between a b f h }
{
    let w11 = (f * h + 8) / 16;
    let w01 = f - w11;
    let w10 = h - w11;
    let w00 = 16 - h - w01;
    ((a % 256 * w00 + a / 256 * w01 + b % 256 * w10 + b / 256 * w11 + 8) / 16) as u8
}

// Puts the weights of m texels of a row to out[o .. o + m]. Lanes past the last column write 0,
// which out already holds.
fn fill_row(
    out: &mut [u8; WEIGHTS],
    o: usize,
    m: usize,
    pairs: &[u16; 208],
    j: usize,
    part: &[u16; 16],
    h: u16,
)
    requires { (o + m ≤ most_weights) × (m ≤ 16) × (j + 32 ≤ 208) × (h < 16) ×
        ((s : ℕ) → get_or part.now s 0 < 16) }
    ensures { out.new ≡
        put_at (row_at pairs.now part.now j h) o m out.old }
{
    for s in 0..m {
        out[o + s] = mixed(pairs[j + s], pairs[j + 16 + s], part[s], h);
    }
}

// The rows of the footprint, each between two spread rows. A row may run past its end: the next one
// overwrites that. Where a row starts is counted in o, with no product a turn. weights_infill_down walks
// over the rows alike: as one function it would take the work on a row as a closure that writes to the
// output, which is no plainer.
fn fill_rows(out: &mut [u8; WEIGHTS], g: Grid, pairs: &[u16; 208], part: &[u16; 16])
    requires fits { (Fits g) × (out.old ≡ replicate most_weights 0) }
    requires sixteenths { (s : ℕ) → get_or part.now s 0 < 16 }
    requires past { (i : ℕ) → g.footprint.width ≤ i % 16 → get_or pairs.now i 0 ≡ 0 }
    ensures { out.new ≡
        texels g (rows_of g pairs.now part.now) }
{
    let d = weights_grid::step_of(g.footprint.height);
    let height = g.height as u16;
    let m = lanes::eights(g.footprint.width);
    let mut o = 0;
    for t in 0..g.footprint.height {
        let p = weights_grid::place(d, t as u16, height);
        fill_row(out, o, m, pairs, usize::from(p / 16 * 16), part, p % 16);
        o += g.footprint.width;
    }
}

// Puts the weights of all texels in one plane.
fn fill_plane(out: &mut [u8; WEIGHTS], g: Grid, next: &[u16; 72], plane: usize)
    requires { (Fits g) × (plane < g.planes) × (out.old ≡ replicate most_weights 0) ×
        (Pairs g next.now) }
    ensures { out.new ≡ plane_of g (low_of next.now) plane }
{
    let mut at = [0u16; 16];
    let mut part = [0u16; 16];
    columns(&mut at, &mut part, g);
    let mut pairs = [0u16; 208];
    spread(&mut pairs, g, &at, next, plane);
    fill_rows(out, g, &pairs, &part);
}

// Copies the weights of the second plane's n texels to out[TEXELS .. TEXELS + n].
fn put_second(out: &mut [u8; WEIGHTS], n: usize, plane: &[u8; WEIGHTS])
    requires { n ≤ most_texels }
    ensures { out.new ≡
        put_at (λ (i : ℕ). get_or plane.now i 0) most_texels n out.old }
{
    out[TEXELS..TEXELS + n].copy_from_slice(&plane[..n]);
}

// Puts the weights of all texels, in one or two planes, from those of the grid.
pub fn infill(out: &mut [u8; WEIGHTS], g: Grid, n: usize, wv: &[u8; WEIGHTS])
    requires fits { (Fits g) × (n ≡ count_of g) × (out.old ≡ replicate most_weights 0) }
    requires past { (k : ℕ) → count_of g ≤ k → get_or wv.now k 0 ≡ 0 }
    requires light { (k : ℕ) → get_or wv.now k 0 ≤ 64 }
    ensures { out.new ≡ infill_of g (λ (k : ℕ). get_or wv.now k 0) }
{
    let mut next = [0u16; 72];
    neighbours(&mut next, n, g.planes, wv);
    fill_plane(out, g, &next, 0);
    if g.planes == 2 {
        let mut second = [0u8; WEIGHTS];
        fill_plane(&mut second, g, &next, 1);
        put_second(out, g.footprint.width * g.footprint.height, &second);
    }
}
