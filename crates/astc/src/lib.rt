// What the C surface calls: each function takes unchecked input and answers by number.
#![tactic(auto)]

ghost use Rattle.std.specs.Prelude.{◌≡◌, length};
ghost use Rattle.footprint.specs.Footprints.{footprint};
ghost use Rattle.block_map.specs.Answer.{answer_of, block_map};
ghost use Rattle.block.specs.Block.{painted_of};
ghost use Rattle.image_shape.specs.Shapes.{shape, refusal_of};
ghost use Rattle.image.specs.Image.{image_of};
ghost use Rattle.astc_numbers.specs.Numbers.{map_answer_in, map_in};
ghost use Rattle.astc.specs.Surface.{channels_answer, channels_in, floats_in, cursor, step_answer_in, stepped_in, moved_in};

use footprint::Footprint;
use image::Cursor;
use image_shape::Shape;

fn footprint(width: usize, height: usize) -> Footprint
    ensures { result ≡ footprint width height }
{
    Footprint { width, height }
}

fn shape(width: usize, height: usize, bw: usize, bh: usize) -> Shape
    ensures { result ≡ shape width height bw bh }
{
    Shape {
        width,
        height,
        footprint: footprint(bw, bh),
    }
}

// Paints the words of a block and answers by its number.
pub fn astc_decode_block(block: &[u8], bw: usize, bh: usize, out: &mut [u32]) -> u32
    ensures value { result ≡
        answer_of block.now (footprint bw bh) (length out.old) }
    ensures out_after { out.new ≡
        painted_of block.now (footprint bw bh) out.old }
{
    let outcome = block::decode_astc_block(block, footprint(bw, bh), out);
    answers::answer_number(outcome) as u32
}

// Writes a block's map and answers by the block's number.
pub fn astc_block_map(block: &[u8], bw: usize, bh: usize, map: &mut [u32]) -> u32
    ensures value { result ≡
        map_answer_in (block_map block.now (footprint bw bh))
        (length map.old) }
    ensures map_after { map.new ≡
        map_in (block_map block.now (footprint bw bh)) map.old }
{
    astc_numbers::put_map(block, bw, bh, map) as u32
}

// Writes a block's channels by options and answers by the block's number.
pub fn astc_block_channels(
    options: u32,
    block: &[u8],
    bw: usize,
    bh: usize,
    channels: &mut [u32],
    floats: &mut [u8],
) -> u32
    ensures { (result ≡
        channels_answer options block.now (footprint bw bh)
        (length channels.old) (length floats.old)) ×
        (channels.new ≡
        channels_in options block.now (footprint bw bh) (length floats.old)
        channels.old) ×
        (floats.new ≡
        floats_in options block.now (footprint bw bh) (length channels.old)
        floats.old) }
{
    if let Err(refusal) = astc_checks::options_refusal(options) {
        return usize::from(refusal) as u32;
    }
    let outcome = block_channels::decode_channels(block, footprint(bw, bh), channels, floats);
    answers::answer_number(outcome) as u32
}

// Paints the words of an image and answers by number.
pub fn astc_decode_image(
    data: &[u8],
    width: usize,
    height: usize,
    bw: usize,
    bh: usize,
    out: &mut [u32],
) -> u32
    ensures value { result ≡
        refusal_of (shape width height bw bh) (length «data».now)
        (length out.old) }
    ensures out_after { out.new ≡
        image_of «data».now (shape width height bw bh) out.old }
{
    let outcome = image::decode_astc(data, shape(width, height, bw, bh), out);
    answers::refusal_number(outcome) as u32
}

// Paints the next blocks of an image, leads its cursor on and answers by number.
pub fn astc_image_step(
    data: &[u8],
    width: usize,
    height: usize,
    bw: usize,
    bh: usize,
    next: usize,
    blocks: usize,
    out: &mut [u32],
    moved: &mut [u64],
) -> u32
    ensures value { result ≡
        step_answer_in (cursor width height bw bh next) (length «data».now) blocks
        (length out.old) (length moved.old) }
    ensures out_after { out.new ≡
        stepped_in «data».now (cursor width height bw bh next) blocks
        (length moved.old) out.old }
    ensures moved_after { moved.new ≡
        moved_in «data».now (cursor width height bw bh next) blocks
        (length out.old) moved.old }
{
    let shape = shape(width, height, bw, bh);
    if let Err(refusal) = astc_checks::places_refusal(shape, data.len(), out.len(), moved.len()) {
        return usize::from(refusal) as u32;
    }
    let c = Cursor { shape, next };
    let s = c.step(data, blocks, out);
    let led = s.cursor;
    astc_numbers::put_led(moved, led.next, s.painted, s.bad);
    s.answer as u32
}
