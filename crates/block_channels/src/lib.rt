// The channels of a block's texels, bytes and floats: those of all texels as C reads them, and
// those of one texel by value.
#![tactic(auto)]

ghost use Rattle.std.specs.Prelude.{◌≡◌, true, false, ◌*◌, ◌≤◌, ◌<◌, length};
ghost use Rattle.answers.specs.Results.{refusal_number, verdict_number, broken, answered};
ghost use Rattle.laws.specs.Lists.{put};
ghost use Rattle.footprint.specs.Footprints.{texels_of, listed};
ghost use Rattle.bits.specs.Blocks.{value_of};
ghost use Rattle.params_low.specs.Low.{is_void};
ghost use Rattle.block_ordinary.specs.Ordinary.{block_answer, lanes_in};
ghost use Rattle.block_map.specs.Answer.{answer_of};
ghost use Rattle.block.specs.Block.{block_bits};
ghost use Rattle.block_channels.specs.BlockChannels.{magenta_samples, number_at, marks_at, answered_at, room_of, numbers_of, marks_in, refused_by, texel_answered};

use answers::{Refusal, Rule, Verdict};
use bits::Block;
use channels::{Sample, Samples, Texel, texel_of};
use footprint::Footprint;
use lanes::{Form, LANES};

// A block's answer, and the channels of one of its texels; a refusal has bytes of 0. The answer is a
// number because the definition texel_answered has it so.
#[derive(Clone, Copy)]
pub struct Answered {
    pub answer: usize,
    pub texel: Texel,
}

// What a block that breaks a rule is painted with.
fn magenta() -> Samples
    ensures { result ≡ magenta_samples }
{
    Samples {
        r: Sample::Byte(255),
        g: Sample::Byte(0),
        b: Sample::Byte(255),
        a: Sample::Byte(255),
    }
}

// Puts the samples of a legal block that is not void, at a listed footprint, into lanes, or says
// which rule the block breaks first.
fn decode_samples(b: Block, f: Footprint, lanes: &mut [u16; LANES]) -> Result<(), Rule>
    requires { (is_void (value_of b) ≡ false) × (listed f ≡ true) }
    ensures value { broken result ≡ block_answer (value_of b) f }
    ensures lanes_after { lanes.new ≡ lanes_in Form.Samples (value_of b) f lanes.old }
{
    block_ordinary::decode_ordinary(b, f, lanes, Form::Samples)
}

// Puts the numbers and the marks of a block at a listed footprint. `block::decode_words` says why it and
// `texel_at` are not one function with that one, and why they take a slice.
fn put_block(s: &[u8], f: Footprint, out: &mut [u32], floats: &mut [u8]) -> Verdict
    requires { (length s.now ≡ 16) × (listed f ≡ true) × (4 * texels_of f ≤ length out.old) ×
        (texels_of f ≤ length floats.old) }
    ensures { (verdict_number result ≡ block_answer (block_bits s.now) f) ×
        (out.new ≡ put (number_at s.now f) 0 (4 * texels_of f) out.old)
        × (floats.new ≡
        put (marks_at s.now f) 0 (texels_of f) floats.old) }
{
    let n = f.width * f.height;
    let b = block_load::load(s);
    if params_low::is_void(b) {
        texels_numbers::fill_texels(out, floats, n, block_void::void_samples(b));
        return Verdict::VoidExtent;
    }
    let mut lanes = [0u16; LANES];
    match decode_samples(b, f, &mut lanes) {
        Ok(()) => {
            texels_numbers::put_texels(out, floats, n, &lanes);
            Verdict::Legal
        }
        Err(rule) => {
            texels_numbers::fill_texels(out, floats, n, magenta());
            Verdict::Broken(rule)
        }
    }
}

// The answer and the channels of texel t of a block at a listed footprint.
fn texel_at(s: &[u8], f: Footprint, t: usize) -> Answered
    requires { (length s.now ≡ 16) × (listed f ≡ true) × (t < texels_of f) }
    ensures { result ≡ answered_at s.now f t }
{
    let b = block_load::load(s);
    if params_low::is_void(b) {
        return Answered {
            answer: usize::from(Verdict::VoidExtent),
            texel: texel_of(block_void::void_samples(b)),
        };
    }
    let mut lanes = [0u16; LANES];
    match decode_samples(b, f, &mut lanes) {
        Ok(()) => Answered {
            answer: usize::from(Verdict::Legal),
            texel: texel_of(texels_read::samples_at(&lanes, t)),
        },
        Err(rule) => Answered {
            answer: usize::from(rule),
            texel: texel_of(magenta()),
        },
    }
}

// The texels for which two outputs of so many places have room.
fn room_of(places: usize, marks: usize) -> usize
    ensures { result ≡ room_of places marks }
{
    (places / 4).min(marks)
}

// Puts four numbers a texel into `out`, red, green, blue and alpha, bytes or the bits of floats,
// and into `floats` which of them are floats. A refusal leaves both outputs as they were.
pub fn decode_channels(
    s: &[u8],
    f: Footprint,
    out: &mut [u32],
    floats: &mut [u8],
) -> Result<Verdict, Refusal>
    ensures { (answered result ≡
        answer_of s.now f
        (room_of (length out.old) (length floats.old))) ×
        (out.new ≡
        numbers_of s.now f (length floats.old) out.old) ×
        (floats.new ≡
        marks_in s.now f (length out.old) floats.old) }
{
    block_refusal::refusal(s.len(), f, room_of(out.len(), floats.len()))?;
    Ok(put_block(s, f, out, floats))
}

// What a refused call for one texel answers: its number, and bytes of 0.
fn refused(refusal: Refusal) -> Answered
    ensures { result ≡ refused_by (refusal_number refusal) }
{
    Answered {
        answer: usize::from(refusal),
        texel: texel_of(Samples {
            r: Sample::Byte(0),
            g: Sample::Byte(0),
            b: Sample::Byte(0),
            a: Sample::Byte(0),
        }),
    }
}

// The answer of a block and the channels of its texel t, of those that are counted row by row.
pub fn texel_channels(s: &[u8], f: Footprint, t: usize) -> Answered
    ensures { result ≡ texel_answered s.now f t }
{
    match block_refusal::texel_refusal(s.len(), f, t) {
        Ok(()) => texel_at(s, f, t),
        Err(refusal) => refused(refusal),
    }
}
