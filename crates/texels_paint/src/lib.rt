// Painting: the words of a block's texels from its endpoints, weights and partitions.
#![tactic(auto)]

ghost use Rattle.std.specs.Prelude.{◌≡◌, ◌*◌, ◌≤◌, ◌<◌, IfSome, Some};
ghost use Rattle.laws.specs.Lists.{put};
ghost use Rattle.lanes.specs.Lanes.{lane_at, eights};
ghost use Rattle.texels.specs.Texels.{texel_word};
ghost use Rattle.texels.specs.Kinds.{kind_of, kind_in, AllOf};

use endpoints_colours::{Endpoints, Mark};
use lanes::LANES;
use texels::BlockData;

mod mixed;

// The one mark of a partition's colour and alpha, where they have one.
fn kind_of(e: Endpoints) -> Option<Mark>
    ensures { kind_in result ≡ kind_of e }
{
    if e.color == e.alpha {
        Some(e.color)
    } else {
        None
    }
}

// The one mark of all partitions in use, where they have one. `all` would give a bool, which then had
// to be turned into the mark or None: no plainer.
fn common_kind(d: &BlockData) -> Option<Mark>
    ensures { IfSome result (λ m. AllOf (kind_in (Some m)) d.now.parts d.now.endpoints) }
{
    let kind = kind_of(d.endpoints[0]);
    for p in 1..d.parts {
        if kind_of(d.endpoints[p]) != kind {
            return None;
        }
    }
    kind
}

// Puts the words of all texels, to the next multiple of 8, into lanes: lane 2 * i has the low 16
// bits of texel i, lane 2 * i + 1 the high ones.
pub fn applicate_color(out: &mut [u16; LANES], d: &BlockData)
    ensures { out.new ≡
        put (lane_at (texel_word d.now.endpoints d.now.weights.now d.now.partition.now d.now.planes
        d.now.channel)) 0 (2 * eights d.now.n) out.old }
{
    match common_kind(d) {
        Some(Mark::Ldr) => texels_ldr::paint_ldr(out, d),
        Some(Mark::Hdr) => texels_hdr::paint_hdr(out, d),
        None => mixed::paint_any(out, d),
    }
}
