// The C surface: each function takes unchecked input and answers by number. A slice is a pointer
// and a length. Each calls the function of its name in `astc`.
#![tactic(auto)]

ghost use Rattle.std.specs.Prelude.{◌≡◌, length};
ghost use Rattle.footprint.specs.Footprints.{footprint};
ghost use Rattle.block_map.specs.Answer.{answer_of, block_map};
ghost use Rattle.block.specs.Block.{painted_of};
ghost use Rattle.image_shape.specs.Shapes.{shape, refusal_of};
ghost use Rattle.image.specs.Image.{image_of};
ghost use Rattle.astc_numbers.specs.Numbers.{map_answer_in, map_in};
ghost use Rattle.astc.specs.Surface.{channels_answer, channels_in, floats_in, cursor, step_answer_in, stepped_in, moved_in};

// uint32_t astc_decode_block(const uint8_t *block, size_t block_len, size_t bw, size_t bh, uint32_t
// *out, size_t out_len)
#[unsafe(no_mangle)]
pub extern "C" fn astc_decode_block(block: &[u8], bw: usize, bh: usize, out: &mut [u32]) -> u32
    ensures value { result ≡
        answer_of block.now (footprint bw bh) (length out.old) }
    ensures out_after { out.new ≡
        painted_of block.now (footprint bw bh) out.old }
{
    astc::astc_decode_block(block, bw, bh, out)
}

// uint32_t astc_block_map(const uint8_t *block, size_t block_len, size_t bw, size_t bh, uint32_t
// *map, size_t map_len)
#[unsafe(no_mangle)]
pub extern "C" fn astc_block_map(block: &[u8], bw: usize, bh: usize, map: &mut [u32]) -> u32
    ensures value { result ≡
        map_answer_in (block_map block.now (footprint bw bh))
        (length map.old) }
    ensures map_after { map.new ≡
        map_in (block_map block.now (footprint bw bh)) map.old }
{
    astc::astc_block_map(block, bw, bh, map)
}

// uint32_t astc_block_channels(uint32_t options, const uint8_t *block, size_t block_len, size_t bw,
// size_t bh, uint32_t *channels, size_t channels_len, uint8_t *floats, size_t floats_len)
#[unsafe(no_mangle)]
pub extern "C" fn astc_block_channels(
    options: u32,
    block: &[u8],
    bw: usize,
    bh: usize,
    channels: &mut [u32],
    floats: &mut [u8],
) -> u32
    ensures { (result ≡
        channels_answer options block.now (footprint bw bh)
        (length channels.old) (length floats.old)) ×
        (channels.new ≡
        channels_in options block.now (footprint bw bh) (length floats.old)
        channels.old) ×
        (floats.new ≡
        floats_in options block.now (footprint bw bh) (length channels.old)
        floats.old) }
{
    astc::astc_block_channels(options, block, bw, bh, channels, floats)
}

// uint32_t astc_decode_image(const uint8_t *data, size_t data_len, size_t width, size_t height,
// size_t bw, size_t bh, uint32_t *out, size_t out_len)
#[unsafe(no_mangle)]
pub extern "C" fn astc_decode_image(
    data: &[u8],
    width: usize,
    height: usize,
    bw: usize,
    bh: usize,
    out: &mut [u32],
) -> u32
    ensures value { result ≡
        refusal_of (shape width height bw bh) (length «data».now)
        (length out.old) }
    ensures out_after { out.new ≡
        image_of «data».now (shape width height bw bh) out.old }
{
    astc::astc_decode_image(data, width, height, bw, bh, out)
}

// uint32_t astc_image_step(const uint8_t *data, size_t data_len, size_t width, size_t height,
// size_t bw, size_t bh, size_t next, size_t blocks, uint32_t *out, size_t out_len, uint64_t *moved,
// size_t moved_len)
#[unsafe(no_mangle)]
pub extern "C" fn astc_image_step(
    data: &[u8],
    width: usize,
    height: usize,
    bw: usize,
    bh: usize,
    next: usize,
    blocks: usize,
    out: &mut [u32],
    moved: &mut [u64],
) -> u32
    ensures value { result ≡
        step_answer_in (cursor width height bw bh next) (length «data».now) blocks
        (length out.old) (length moved.old) }
    ensures out_after { out.new ≡
        stepped_in «data».now (cursor width height bw bh next) blocks
        (length moved.old) out.old }
    ensures moved_after { moved.new ≡
        moved_in «data».now (cursor width height bw bh next) blocks
        (length out.old) moved.old }
{
    astc::astc_image_step(data, width, height, bw, bh, next, blocks, out, moved)
}
