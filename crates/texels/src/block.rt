// What is known of a block before its texels are painted.
ghost use Rattle.std.specs.Prelude.{◌≡◌, ℕ, ◌≤◌, ◌<◌, get_or};
ghost use Rattle.texels.specs.PaintGiven.{PaintGiven};

use endpoints_colours::Endpoints;
use footprint::{TEXELS, WEIGHTS};

// A block that is not void, as its texels are painted: n texels in a number of partitions and
// planes, the second plane for one channel, the endpoints of each partition, the weights of both
// planes and the partition of each texel. It refers to the long arrays, so that it costs no copy
// of them. The channel is a number that is read for two planes alone, and n stands beside the
// arrays: `PaintGiven` and `texel_word` are stated over these numbers.
#[derive(Clone, Copy)]
pub struct BlockData<'a> {
    pub n: usize,
    pub parts: usize,
    pub planes: usize,
    pub channel: usize,
    pub endpoints: [Endpoints; 4],
    pub weights: &'a [u8; WEIGHTS],
    pub partition: &'a [u8; TEXELS],
    pub ghost given: { PaintGiven n parts planes endpoints weights.now partition.now },
}
