// Answers on the weights and the partitions of a footprint's texels. Bounds are tested by pairs of
// `<=`: with `contains` the proof did not get its facts from the tests.
ghost use Rattle.std.specs.Prelude.{◌≡◌, ◌<◌};
ghost use Rattle.footprint.specs.Sides.{Sides};
ghost use Rattle.weights_grid.specs.Grids.{count_of, Fits};
ghost use Rattle.program_leaves.specs.ValuesIn.{GridInside};

use crate::{frame, sequences};
use bits::Block;
use footprint::{TEXELS, WEIGHTS};
use weights_grid::Grid;

// A grid of weights and its range go on through three functions, each with the facts of the tests so
// far: a type for both would be no plainer, since those facts are other ones in each.
fn put_grid(out: &mut [u8; 288], g: Grid, n: usize, q: usize, b: Block)
    requires { (Fits g) × ((n ≡ count_of g) × (q < 12)) }
{
    let seq = sequences::values_down(b, q, n);
    let mut w = [0u8; WEIGHTS];
    weights::decode_weights(&mut w, g, q, &seq);
    frame::put_bytes(out, 0, &w);
}

fn put_planes(out: &mut [u8; 288], g: Grid, q: usize, b: Block)
    requires { GridInside g × (q < 12) }
{
    if 1 <= g.planes && g.planes <= 2 {
        let n = g.width * g.height * g.planes;
        if n <= 64 {
            put_grid(out, g, n, q, b);
        }
    }
}

fn put_inside(out: &mut [u8; 288], g: Grid, q: usize, b: Block)
    requires { Sides g.footprint × (q < 12) }
{
    let f = g.footprint;
    if 2 <= g.width && g.width <= f.width && 2 <= g.height && g.height <= f.height {
        put_planes(out, g, q, b);
    }
}

// Answers with the weights of the texels of a grid of range q at a footprint.
pub(crate) fn reply_weights(out: &mut [u8; 288], ask: &[u8; 32]) {
    let f = frame::footprint_at(ask, 1);
    let g = Grid {
        footprint: f,
        width: frame::at(ask, 3),
        height: frame::at(ask, 4),
        planes: frame::at(ask, 5),
    };
    let q = frame::at(ask, 6);
    if q < 12 && footprint::is_listed(f) {
        put_inside(out, g, q, frame::block_of(ask));
    }
}

// Answers with the partition of each texel of a footprint.
pub(crate) fn reply_partition(out: &mut [u8; 288], ask: &[u8; 32]) {
    let number = u32::from(frame::pair_at(ask, 1));
    let parts = frame::at(ask, 3);
    let f = frame::footprint_at(ask, 4);
    if number < 1024 && 2 <= parts && parts <= 4 && footprint::is_listed(f) {
        let mut map = [0u8; TEXELS];
        partition::select_partition(&mut map, number, parts, f);
        frame::put_bytes(out, 0, &map);
    }
}
