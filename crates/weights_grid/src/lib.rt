// How a grid of weights lies in its footprint: where its texels stand between the points of the
// grid.
#![tactic(auto)]

ghost use Rattle.std.specs.Prelude.{◌≡◌, true, ◌+◌, ◌*◌, ◌/◌, ◌≤◌, ◌<◌};
ghost use Rattle.weights_grid.specs.Grids.{step_of, placed};
ghost use Rattle.footprint.specs.Sides.{is_side};

use footprint::Footprint;

// How a grid lies in a footprint. No ghost field says that it fits (`Fits`): definitions of specs
// make grids of any parameters, and would need the proof.
#[derive(Clone, Copy)]
pub struct Grid {
    pub footprint: Footprint,
    pub width: usize,
    pub height: usize,
    pub planes: usize,
}

// The step from texel to texel along a side of n texels: 1024 units, divided among the n - 1 steps.
pub fn step_of(n: usize) -> u16
    requires { is_side n ≡ true }
    ensures { (result ≡ step_of n) × (result ≤ 342) }
{
    match n {
        4 => 342,
        5 => 256,
        6 => 205,
        8 => 146,
        10 => 114,
        _ => 93,
    }
}

// Where texel s lies in a grid of m, in sixteenths; d is the step of its footprint.
pub fn place(d: u16, s: u16, m: u16) -> u16
    requires { (d ≤ 342) × (s < 16) × (2 ≤ m) × (m ≤ 12) }
    ensures { (result ≡ placed d m s) × (result < 1024) }
{
    (d * s * (m - 1) + 32) / 64
}
