// The weights of a block's texels, from the encoded weights of its grid.
#![tactic(auto)]

ghost use Rattle.std.specs.Prelude.{◌≡◌, ◌&&◌, eqb, ◌+◌, ◌*◌, ◌/◌, ◌≤◌, ◌<◌, replicate};
ghost use Rattle.laws.specs.Lists.{list_of};
ghost use Rattle.weights_grid.specs.Grids.{count_of};
ghost use Rattle.weights.specs.Weights.{weights_of};
ghost use Rattle.weights.specs.WeightsGiven.{WeightsGiven};
ghost use Rattle.weights.specs.Parted.{parted_to};
ghost use Rattle.footprint.specs.Footprints.{most_texels, most_weights};
ghost use Rattle.lanes.specs.Lanes.{eights};

use footprint::{TEXELS, WEIGHTS};
use weights_grid::Grid;

// Whether the grid's columns are the footprint's, in one plane.
fn is_wide(g: Grid) -> bool
    ensures { result ≡ (eqb g.planes 1 && eqb g.width g.footprint.width) }
{
    g.planes == 1 && g.width == g.footprint.width
}

// What is given (`WeightsGiven`) is of the output too, and so stands in the contracts of the
// functions that fill it and not in a type; the grid, the range and the sequence go with it because
// `WeightsGiven` and `weights_of` are stated over them. n is the grid's count, which is worked out once.

// Puts the weights of a grid that has one plane and is as wide as its footprint: if it is also as
// high its values are the weights, and else texels lie between rows alone.
fn decode_wide(out: &mut [u8; WEIGHTS], g: Grid, n: usize, q: usize, seq: &[u8; 72])
    requires { (WeightsGiven g q seq.now out.old) × (n ≡ count_of g) × (g.planes ≡ 1) ×
        (g.width ≡ g.footprint.width) }
    ensures { out.new ≡ weights_of g q seq.now }
{
    if g.height == g.footprint.height {
        return weights_unquantise::unquantize(out, n, q, seq);
    }
    let mut wv = [0u8; WEIGHTS];
    weights_unquantise::unquantize(&mut wv, n, q, seq);
    weights_infill_down::fill_down(out, g, &wv);
}

// Whether the grid is the footprint, in two planes.
fn is_whole(g: Grid) -> bool
    ensures { result ≡
        (eqb g.planes 2 &&
        (eqb g.width g.footprint.width && eqb g.height g.footprint.height)) }
{
    g.planes == 2 && g.width == g.footprint.width && g.height == g.footprint.height
}

// Tells apart the weights of two planes, which alternate in wv: those of n texels, and on to the
// next multiple of 8.
fn part_planes(out: &mut [u8; WEIGHTS], n: usize, wv: &[u8; WEIGHTS])
    requires { (n ≤ most_texels) × (out.old ≡ replicate most_weights 0) }
    ensures { out.new ≡
        list_of (parted_to wv.now (eights n)) 0 most_weights }
{
    for i in 0..lanes::eights(n) {
        out[i] = wv[2 * i];
        out[TEXELS + i] = wv[2 * i + 1];
    }
}

// Puts the weights of a grid of two planes that is as large as its footprint: its values are the
// weights.
fn decode_planes(out: &mut [u8; WEIGHTS], g: Grid, n: usize, q: usize, seq: &[u8; 72])
    requires { (WeightsGiven g q seq.now out.old) × (n ≡ count_of g) × (g.planes ≡ 2) ×
        (g.width ≡ g.footprint.width) × (g.height ≡ g.footprint.height) }
    ensures { out.new ≡ weights_of g q seq.now }
{
    let mut wv = [0u8; WEIGHTS];
    weights_unquantise::unquantize(&mut wv, n, q, seq);
    part_planes(out, n / 2, &wv);
}

// Puts the weights of any other grid, by infill.
fn decode_any(out: &mut [u8; WEIGHTS], g: Grid, n: usize, q: usize, seq: &[u8; 72])
    requires { (WeightsGiven g q seq.now out.old) × (n ≡ count_of g) }
    ensures { out.new ≡ weights_of g q seq.now }
{
    let mut wv = [0u8; WEIGHTS];
    weights_unquantise::unquantize(&mut wv, n, q, seq);
    weights_infill::infill(out, g, n, &wv);
}

// Puts the weights of the texels into out, the first plane's from 0 on, the second's from TEXELS
// on; seq has the grid's encoded weights, of range q.
pub fn decode_weights(out: &mut [u8; WEIGHTS], g: Grid, q: usize, seq: &[u8; 72])
    requires { WeightsGiven g q seq.now out.old }
    ensures { out.new ≡ weights_of g q seq.now }
{
    let n = g.width * g.height * g.planes;
    if is_wide(g) {
        return decode_wide(out, g, n, q, seq);
    }
    if is_whole(g) {
        return decode_planes(out, g, n, q, seq);
    }
    decode_any(out, g, n, q, seq);
}
