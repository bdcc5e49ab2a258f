// A block that is not void: from its fields to the lanes of its texels. Block, footprint, lanes and form
// go through three functions one by one, as `lanes_in` takes them. That weights and partitions are all
// 0 at entry is said in contracts, since a type cannot say it of an output.
#![tactic(auto)]

ghost use Rattle.std.specs.Prelude.{◌≡◌, true, false, replicate};
ghost use Rattle.answers.specs.Results.{broken};
ghost use Rattle.bits.specs.Blocks.{value_of};
ghost use Rattle.footprint.specs.Footprints.{most_texels, most_weights, listed};
ghost use Rattle.footprint.specs.Sides.{Sides};
ghost use Rattle.params_low.specs.Low.{is_void};
ghost use Rattle.params.specs.Params.{ends_field, weights_field};
ghost use Rattle.block_ordinary.specs.Ordinary.{block_answer, ends_of, weights_in, partitions_in, form_of, lanes_in};
ghost use Rattle.block_ordinary.specs.Facts.{Facts, Ready};

use answers::Rule;
use bits::Block;
use endpoints_colours::Endpoints;
use footprint::{Footprint, TEXELS, WEIGHTS};
use lanes::{Form, LANES};
use params::Params;
use texels::BlockData;
use weights_grid::Grid;

// The endpoints of a legal block's partitions.
fn ends_of(b: Block, p: Params) -> [Endpoints; 4]
    requires { Facts p }
    ensures { result ≡ ends_of p (ends_field p (value_of b)) }
{
    let k = p.config;
    let range = p.endpoint_range;
    let modes = p.modes;
    let mut seq = [0u8; 72];
    sequence::decode_intseq(
        &mut seq,
        b,
        k.low_len,
        sequence_ranges::range_of(range),
        k.values,
    );
    let mut ev = [0u8; 32];
    endpoints_unquantise::unquantize(&mut ev, k.values, range, &seq);
    endpoints::decode_endpoints(k.parts, modes, &ev)
}

// Puts the weights of a legal block's texels into out, which is all 0.
fn weights_of(out: &mut [u8; WEIGHTS], b: Block, p: Params, f: Footprint)
    requires out_value { out.old ≡ replicate most_weights 0 }
    requires ready { Ready p f }
    ensures { out.new ≡ weights_in p f (weights_field p (value_of b)) }
{
    let k = p.config;
    let mut seq = [0u8; 72];
    sequence::decode_intseq_reverse(
        &mut seq,
        b,
        sequence_ranges::range_of(k.weight_range),
        k.width * k.height * k.planes,
    );
    let g = Grid {
        footprint: f,
        width: k.width,
        height: k.height,
        planes: k.planes,
    };
    weights::decode_weights(out, g, k.weight_range, &seq);
}

// Puts the partition of each texel of a legal block into out, which is all 0.
fn partition_of(out: &mut [u8; TEXELS], p: Params, f: Footprint)
    requires { (out.old ≡ replicate most_texels 0) × ((Facts p) × (Sides f)) }
    ensures { out.new ≡ partitions_in p f }
{
    let k = p.config;
    if k.parts == 1 {
        return;
    }
    partition::select_partition(out, k.number as u32, k.parts, f);
}

// Puts the lanes of a legal block, its words or its samples: by a switch and no closure, because
// `form_of` and `lanes_in` are stated over `Form`.
fn put_ordinary(b: Block, p: Params, f: Footprint, lanes: &mut [u16; LANES], form: Form)
    requires { Ready p f }
    ensures { lanes.new ≡ form_of form p (value_of b) f lanes.old }
{
    let k = p.config;
    let mut weights = [0u8; WEIGHTS];
    let mut partition = [0u8; TEXELS];
    weights_of(&mut weights, b, p, f);
    partition_of(&mut partition, p, f);
    let d = BlockData {
        n: f.width * f.height,
        parts: k.parts,
        planes: k.planes,
        channel: p.channel,
        endpoints: ends_of(b, p),
        weights: &weights,
        partition: &partition,
    };
    match form {
        Form::Words => texels_paint::applicate_color(lanes, &d),
        Form::Samples => texels_samples::put_samples(lanes, &d),
    }
}

// Puts the lanes of a block at a listed footprint, or says which rule it breaks first.
fn put_if_legal(b: Block, f: Footprint, lanes: &mut [u16; LANES], form: Form) -> Result<(), Rule>
    requires b_value { is_void (value_of b) ≡ false }
    requires f_value { listed f ≡ true }
    ensures value { broken result ≡ block_answer (value_of b) f }
    ensures lanes_after { lanes.new ≡ lanes_in form (value_of b) f lanes.old }
{
    let p = params::legal_params(b, f)?;
    put_ordinary(b, p, f, lanes, form);
    Ok(())
}

// Puts the lanes of a legal block at a listed footprint; of a block that breaks a rule it puts none
// and gives the rule. Block and footprint are made anew of their numbers, which are then handed over
// in registers.
pub fn decode_ordinary(
    b: Block,
    f: Footprint,
    lanes: &mut [u16; LANES],
    form: Form,
) -> Result<(), Rule>
    requires b_value { is_void (value_of b) ≡ false }
    requires f_value { listed f ≡ true }
    ensures value { broken result ≡ block_answer (value_of b) f }
    ensures lanes_after { lanes.new ≡ lanes_in form (value_of b) f lanes.old }
{
    let own = Block { lo: b.lo, hi: b.hi };
    let foot = Footprint {
        width: f.width,
        height: f.height,
    };
    put_if_legal(own, foot, lanes, form)
}
