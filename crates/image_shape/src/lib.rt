// The shape of an image, how many blocks it has, and whether an image of a shape is accepted.
#![tactic(auto)]

ghost use Rattle.std.specs.Prelude.{◌≡◌, ◌≤◌, ◌<◌, IfOk};
ghost use Rattle.image_shape.specs.Shapes.{along_of, total_of, is_side, checked, shape_refusal, refusal_of, step_refusal};
ghost use Rattle.image_shape.specs.ShapeLaws.{ShapeBounds};

use answers::Refusal;
use footprint::Footprint;

// The most pixels that a side of an image may have.
pub const LONGEST_SIDE: usize = 4096;

// The size of an image and the footprint of its blocks.
#[derive(Clone, Copy, Debug, PartialEq, Eq, Hash)]
pub struct Shape {
    pub width: usize,
    pub height: usize,
    pub footprint: Footprint,
}

// A shape with sides that have pixels, and of which no product leaves a word: what the checks make
// of the shape that a caller gives.
#[derive(Clone, Copy)]
pub struct Bounded {
    pub shape: Shape,
    pub ghost bounds: { ShapeBounds shape },
}

fn is_side(n: usize) -> bool
    ensures { result ≡ is_side n }
{
    (1..=LONGEST_SIDE).contains(&n)
}

// How many blocks of `side` pixels it takes to cover n pixels, written as `along_of` of the specs has
// it. The library's `div_ceil` is stated by a quotient and a remainder, so that it would need a lemma
// that both are the same number: no plainer.
pub fn along(n: usize, side: usize) -> usize
    requires { (n ≤ 4096) × ((0 < side) × (side ≤ 12)) }
    ensures { (result ≡ along_of n side) × (result ≤ 4107) }
{
    (n + (side - 1)) / side
}

// How many blocks an image has.
pub fn total(m: Bounded) -> usize
    ensures { (result ≡ total_of m.shape) × (result ≤ 16867449) }
{
    let s = m.shape;
    let f = s.footprint;
    along(s.width, f.width) * along(s.height, f.height)
}

// The shape with its bounds, or why it is none of an image.
#[tactic(auto, unfolding(crate::specs::Shapes::shape_refusal))]
fn with_bounds(m: Shape) -> Result<Bounded, Refusal>
    ensures refusal { checked result ≡ shape_refusal m }
    ensures shape { IfOk result (λ b. b.shape ≡ m) }
{
    if !footprint::is_listed(m.footprint) {
        return Err(Refusal::Footprint);
    }
    if !is_side(m.width) || !is_side(m.height) {
        return Err(Refusal::ImageSide);
    }
    Ok(Bounded { shape: m })
}

// The shape with its bounds, or why an image with so many bytes and so much room is refused. It is
// compiled into each caller: as a call that puts its result into memory, a refused image took up to
// 1.8 times as long.
#[inline(always)]
#[tactic(auto, unfolding(crate::specs::Shapes::shape_refusal, crate::specs::Shapes::refusal_of))]
pub fn refusal(m: Shape, len: usize, room: usize) -> Result<Bounded, Refusal>
    ensures refusal { checked result ≡ refusal_of m len room }
    ensures shape { IfOk result (λ b. b.shape ≡ m) }
{
    let bounded = with_bounds(m)?;
    if len != 16 * total(bounded) {
        return Err(Refusal::DataLength);
    }
    if room < m.width * m.height {
        return Err(Refusal::OutputTooShort);
    }
    Ok(bounded)
}

// The shape with its bounds, or why a step of so many blocks from the block `next` on is refused,
// the image's own refusals first. Shape and next block are those of a cursor, which stands in the
// crate image above this one.
#[tactic(auto, unfolding(crate::specs::Shapes::step_refusal))]
pub fn step_refusal(
    m: Shape,
    next: usize,
    len: usize,
    blocks: usize,
    room: usize,
) -> Result<Bounded, Refusal>
    ensures refusal { checked result ≡ step_refusal m next len blocks room }
    ensures shape { IfOk result (λ b. b.shape ≡ m) }
{
    let bounded = refusal(m, len, room)?;
    if blocks == 0 {
        return Err(Refusal::NoBlocks);
    }
    if total(bounded) < next {
        return Err(Refusal::PastTheEnd);
    }
    Ok(bounded)
}
