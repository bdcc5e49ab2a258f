// The images that are painted: fourteen footprints at six sizes. The numbers of both are test data,
// which stand here alone.
ghost use Rattle.std.specs.Prelude.{◌≤◌};
ghost use Rattle.program_strides.specs.Strides.{CursorBounds};

use footprint::Footprint;
use image_shape::Shape;

// The width of footprint f, of the fourteen in the order of their width and then of their height.
fn block_width(f: usize) -> usize
    ensures { (4 ≤ result) × (result ≤ 12) }
{
    match f {
        0 => 4,
        1 | 2 => 5,
        3 | 4 => 6,
        5..=7 => 8,
        8..=11 => 10,
        _ => 12,
    }
}

// The height of footprint f.
fn block_height(f: usize) -> usize
    ensures { (4 ≤ result) × (result ≤ 12) }
{
    match f {
        0 | 1 => 4,
        2 | 3 | 5 | 8 => 5,
        4 | 6 | 9 => 6,
        7 | 10 => 8,
        11 | 12 => 10,
        _ => 12,
    }
}

// The width of an image of size s, of six sizes. Their last blocks are clipped at most footprints.
fn width_at(s: usize, bw: usize) -> usize
    requires { bw ≤ 12 }
    ensures { result ≤ 40 }
{
    match s {
        0 => 1,
        1 => bw + 1,
        2 => 29,
        3 => 3,
        _ => 40,
    }
}

fn height_at(s: usize, bh: usize) -> usize
    requires { bh ≤ 12 }
    ensures { result ≤ 32 }
{
    match s {
        0 | 4 => 1,
        1 => bh + 1,
        2 => 23,
        3 => 32,
        _ => 31,
    }
}

// The cursor before the first block of an image, with the bounds that its sides have.
#[derive(Clone, Copy)]
pub struct Start {
    pub cursor: image::Cursor,
    ghost bounds: { CursorBounds cursor },
}

// The start of an image of footprint f and size s.
pub(crate) fn start_of(f: usize, s: usize) -> Start {
    let footprint = Footprint {
        width: block_width(f),
        height: block_height(f),
    };
    let shape = Shape {
        width: width_at(s, footprint.width),
        height: height_at(s, footprint.height),
        footprint,
    };
    let cursor = image::Cursor { shape, next: 0 };
    Start { cursor }
}

pub(crate) fn blocks_of(start: Start) -> usize
    ensures { result ≤ 80 }
{
    let m = start.cursor.shape;
    let f = m.footprint;
    let across = image_shape::along(m.width, f.width);
    let down = image_shape::along(m.height, f.height);
    across * down
}

pub(crate) fn pixels_of(start: Start) -> usize {
    let m = start.cursor.shape;
    m.width * m.height
}
