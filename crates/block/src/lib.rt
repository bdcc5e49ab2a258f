// A block: from sixteen bytes to the words of its texels.
#![tactic(auto)]

ghost use Rattle.std.specs.Prelude.{◌≡◌, true, ◌≤◌, length};
ghost use Rattle.answers.specs.Results.{verdict_number, answered};
ghost use Rattle.laws.specs.Lists.{put};
ghost use Rattle.footprint.specs.Footprints.{texels_of, listed};
ghost use Rattle.block_ordinary.specs.Ordinary.{block_answer};
ghost use Rattle.block_map.specs.Answer.{answer_of};
ghost use Rattle.block.specs.Block.{block_bits, word_at, painted_of};

use answers::{Refusal, Verdict};
use footprint::Footprint;
use lanes::{Form, LANES};

// What a block that breaks a rule is painted with.
pub const MAGENTA: u32 = 0xffff_00ff;

// Paints the words of a block at a listed footprint, from a slice because `block_load::load` takes one.
// block_channels goes through the kinds of a block alike, but puts something else for each: one function
// for both would take three closures that write to the outputs, which is no plainer.
fn decode_words(s: &[u8], f: Footprint, out: &mut [u32]) -> Verdict
    requires { (length s.now ≡ 16) × ((listed f ≡ true) × (texels_of f ≤ length out.old)) }
    ensures value { verdict_number result ≡ block_answer (block_bits s.now) f }
    ensures out_after { out.new ≡
        put (word_at s.now f) 0 (texels_of f) out.old }
{
    let n = f.width * f.height;
    let b = block_load::load(s);
    if params_low::is_void(b) {
        lanes::fill(block_void::void_color(b), out, 0, n);
        return Verdict::VoidExtent;
    }
    let mut lanes = [0u16; LANES];
    match block_ordinary::decode_ordinary(b, f, &mut lanes, Form::Words) {
        Ok(()) => {
            lanes::copy(&lanes, 0, out, 0, n);
            Verdict::Legal
        }
        Err(rule) => {
            lanes::fill(MAGENTA, out, 0, n);
            Verdict::Broken(rule)
        }
    }
}

// Paints the words of a block of sixteen bytes; a refusal leaves the output as it was.
pub fn decode_astc_block(s: &[u8], f: Footprint, out: &mut [u32]) -> Result<Verdict, Refusal>
    ensures value { answered result ≡ answer_of s.now f (length out.old) }
    ensures out_after { out.new ≡ painted_of s.now f out.old }
{
    block_refusal::refusal(s.len(), f, out.len())?;
    Ok(decode_words(s, f, out))
}
