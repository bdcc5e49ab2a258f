// The blocks of an image, painted one after the other by what the block promises.
#![tactic(auto)]

ghost use Rattle.std.specs.Prelude.{◌≡◌, cond, ◌+◌, ◌-◌, ◌^◌, ◌≤◌, ◌<◌, length};
ghost use Rattle.answers.specs.Answers.{is_bad};
ghost use Rattle.answers.specs.Results.{verdict_number};
ghost use Rattle.lanes.specs.Lanes.{most_lanes};
ghost use Rattle.block_map.specs.Answer.{map_answer};
ghost use Rattle.image_shape.specs.Shapes.{total_of, bytes_of};
ghost use Rattle.image_shape.specs.ShapeLaws.{Sized};
ghost use Rattle.image_blocks.specs.Painted.{painted_blocks, bad_in};
ghost use Rattle.image_blocks.specs.Spots.{At, next_of};

use answers::Verdict;
use image_shape::Bounded;
use lanes::{Form, LANES};

// A block of an image: its number, its column and its row.
#[derive(Clone, Copy, Debug, PartialEq, Eq, Hash)]
pub struct Spot {
    pub block: usize,
    pub column: usize,
    pub row: usize,
}

// The block after the one at a spot, where a row has `across` blocks.
fn next(at: Spot, across: usize) -> Spot
    requires { (at.block + 1 < 2 ^ 64) × ((at.row ≤ at.block) × (at.column < across)) }
    ensures { result ≡ next_of at across }
{
    if at.column + 1 == across {
        return Spot {
            block: at.block + 1,
            column: 0,
            row: at.row + 1,
        };
    }
    Spot {
        block: at.block + 1,
        column: at.column + 1,
        row: at.row,
    }
}

// What a block adds to the count of those that break a rule. The verdict is tested by its number,
// since `bad_in` of the specs, which paint_blocks promises, counts by that.
fn bad_of(verdict: Verdict) -> usize
    ensures { (result ≡ cond (is_bad (verdict_number verdict)) 1 0) × (result ≤ 1) }
{
    usize::from(answers::is_bad(usize::from(verdict)))
}

// Paints a block. The lanes of a legal block's words are put into `lanes`. The three ways are those of
// `block::decode_words`; in each it is pixels of an image that are put, not a run of words, so that a
// common walk would take both ways of putting as closures with contracts of their own: no plainer.
fn paint_block(
    data: &[u8],
    m: Bounded,
    at: Spot,
    lanes: &mut [u16; LANES],
    out: &mut [u32],
) -> Verdict
    requires sized { Sized m.shape (length «data».now) (length out.old) }
    requires in_image { at.block < total_of m.shape }
    requires at { At m.shape at }
    requires all_lanes { length lanes.old ≡ most_lanes }
    ensures value { verdict_number result ≡ map_answer (bytes_of «data».now at.block) m.shape.footprint }
    ensures all_lanes_after { length lanes.new ≡ most_lanes }
    ensures out_after { out.new ≡
        painted_blocks «data».now m.shape at.block (at.block + 1) out.old }
{
    let start = 16 * at.block;
    let end = start + 16;
    let b = block_load::load(&data[start..end]);
    if params_low::is_void(b) {
        image_window::fill_block(block_void::void_color(b), m, at.column, at.row, out);
        return Verdict::VoidExtent;
    }
    match block_ordinary::decode_ordinary(b, m.shape.footprint, lanes, Form::Words) {
        Ok(()) => {
            image_window::copy_block(lanes, m, at.column, at.row, out);
            Verdict::Legal
        }
        Err(rule) => {
            image_window::fill_block(block::MAGENTA, m, at.column, at.row, out);
            Verdict::Broken(rule)
        }
    }
}

// Paints the blocks from `first` to before `end`, and counts those that break a rule. The spot goes on
// beside the counter: made of the counter anew, it would take a division and a remainder for each
// block, and is no plainer.
pub fn paint_blocks(data: &[u8], m: Bounded, first: usize, end: usize, out: &mut [u32]) -> usize
    requires sized { Sized m.shape (length «data».now) (length out.old) }
    requires in_order { first ≤ end }
    requires in_image { end ≤ total_of m.shape }
    ensures value { result ≡ bad_in «data».now m.shape first (end - first) }
    ensures out_after { out.new ≡
        painted_blocks «data».now m.shape first end out.old }
{
    let mut lanes = [0u16; LANES];
    let across = image_shape::along(m.shape.width, m.shape.footprint.width);
    let mut at = Spot {
        block: first,
        column: first % across,
        row: first / across,
    };
    let mut bad = 0;
    for _ in first..end {
        bad += bad_of(paint_block(data, m, at, &mut lanes, out));
        at = next(at, across);
    }
    bad
}
