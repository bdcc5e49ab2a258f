// The footprint of a block: how many texels it has, by width and height.
#![tactic(auto)]

ghost use Rattle.std.specs.Prelude.{◌≡◌};
ghost use Rattle.footprint.specs.Footprints.{listed};

// The texels of the largest footprint.
pub const TEXELS: usize = 144;

// The weights of the largest footprint: one for each texel in each of two planes.
pub const WEIGHTS: usize = 288;

// The sides of a block. They may be any, as callers pass them to `is_listed`, so that a function
// that needs listed ones asks for them (`Sides`).
#[derive(Clone, Copy, Debug, PartialEq, Eq, Hash)]
pub struct Footprint {
    pub width: usize,
    pub height: usize,
}

// Whether a footprint is one of the fourteen.
#[tactic(auto, using(std::proofs::lemmas::Bool::Decides::nat_tests), unfolding(crate::specs::Footprints::listed, crate::specs::Footprints::one_of2))]
pub fn is_listed(f: Footprint) -> bool
    ensures { result ≡ listed f }
{
    matches!(
        (f.width, f.height),
        (4, 4) | (5, 4 | 5) | (6, 5 | 6) | (8, 5 | 6 | 8) | (10, 5 | 6 | 8 | 10) | (12, 10 | 12)
    )
}
