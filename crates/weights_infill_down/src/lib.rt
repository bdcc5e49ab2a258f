// The weights of a footprint's texels where the grid has one plane and is as wide as the footprint:
// a texel lies between two rows alone.
#![tactic(auto)]

ghost use Rattle.std.specs.Prelude.{◌≡◌, ℕ, ◌+◌, ◌*◌, ◌/◌, ◌%◌, ◌≤◌, ◌<◌, get_or, replicate};
ghost use Rattle.laws.specs.Lists.{put, put_at};
ghost use Rattle.weights_grid.specs.Grids.{Fits};
ghost use Rattle.weights_infill.specs.Infill.{infill_of};
ghost use Rattle.weights_infill_down.specs.Down.{down_to, whole_at};
ghost use Rattle.footprint.specs.Footprints.{most_weights};

use footprint::WEIGHTS;
use weights_grid::Grid;

// The weight between a above and b below.
fn down(a: u8, b: u8, h: u16) -> u16
    requires { h < 16 }
    ensures { (result ≡ down_to a b h) × (result < 256) }
{
    (u16::from(a) * (16 - h) + u16::from(b) * h + 8) / 16
}

// Puts the weights of m texels of a row whose columns are the grid's. Lanes past the last column
// write 0. Its parameters stay eight, since a record of them would be made anew for every row.
fn fill_row_whole(
    out: &mut [u8; WEIGHTS],
    o: usize,
    m: usize,
    wv: &[u8; WEIGHTS],
    k: usize,
    width: usize,
    keep: &[u16; 16],
    h: u16,
)
    requires { (o + m ≤ most_weights) × (m ≤ 16) × (k + width + m ≤ most_weights) × (h < 16) ×
        ((s : ℕ) → get_or keep.now s 0 ≤ 1) }
    ensures { out.new ≡
        put_at (λ (s : ℕ). whole_at wv.now width k h s * get_or keep.now s 0) o m
        out.old }
{
    for s in 0..m {
        out[o + s] = (down(wv[k + s], wv[k + width + s], h) * keep[s]) as u8;
    }
}

// Puts the weights of all texels in the one plane of a grid that is as wide as its footprint. Rows are
// walked over as in `weights_infill::fill_rows`, which says why that is not one function.
pub fn fill_down(out: &mut [u8; WEIGHTS], g: Grid, wv: &[u8; WEIGHTS])
    requires { (Fits g) × (g.planes ≡ 1) × (g.width ≡ g.footprint.width) ×
        (out.old ≡ replicate most_weights 0) }
    ensures { out.new ≡ infill_of g (λ (k : ℕ). get_or wv.now k 0) }
{
    // 1 for each column of the footprint, and 0 past the last.
    let mut keep = [0u16; 16];
    keep[..g.footprint.width].fill(1);
    let d = weights_grid::step_of(g.footprint.height);
    let height = g.height as u16;
    let m = lanes::eights(g.footprint.width);
    let mut o = 0;
    for t in 0..g.footprint.height {
        let p = weights_grid::place(d, t as u16, height);
        fill_row_whole(
            out,
            o,
            m,
            wv,
            usize::from(p / 16) * g.width,
            g.width,
            &keep,
            p % 16,
        );
        o += g.footprint.width;
    }
}
