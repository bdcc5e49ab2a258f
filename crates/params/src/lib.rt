// The parameters of a block: its answer, its configuration, its endpoint modes and their range.
#![tactic(auto)]

ghost use Rattle.std.specs.Prelude.{◌≡◌, false, ◌<◌, IfOk};
ghost use Rattle.answers.specs.Results.{rule_number};
ghost use Rattle.bits.specs.Blocks.{value_of};
ghost use Rattle.params_low.specs.Low.{is_void};
ghost use Rattle.params_modes.specs.ModeLaws.{Coded};
ghost use Rattle.params_rules.specs.Fields.{extra_in};
ghost use Rattle.params.specs.Params.{channel_of, upper_of, code_in, legal, refused, params_of, told};

use answers::{Rule, Verdict};
use bits::Block;
use footprint::Footprint;
use params_config::Config;
use params_modes::Modes;
use params_room::Legal;

// The mode code is the mode bits as they stand in a block, as one number; the base that goes with
// it stands in the configuration. The record keeps its answer, since the definition `params_of` and
// the theorems `range-widest`, `one_answer` and `local` speak of it; `legal_params` gives the same
// as a result. The channel is a number, 0 to 3 as it stands in the block and 0 without a second
// plane, and no `Option`: the definition `channel_of` gives that number. The planes are a number
// too, 1 or 2, as the definition `config_of` gives them.
#[derive(Clone, Copy, Debug, PartialEq, Eq, Hash)]
pub struct Params {
    pub answer: usize,
    pub config: Config,
    pub channel: usize,
    pub mode_code: usize,
    pub modes: [u8; 4],
    pub endpoint_range: usize,
}

// The extra field: the mode bits below the weights, and below those the channel of the second
// plane.
fn extra_field(b: Block, k: Legal) -> usize
    ensures { (result ≡ extra_in k.config (value_of b)) × (result < 1024) }
{
    let len = params_rules::extra_len(k.config);
    bits::getbits(b, 128 - (k.config.weight_len + len), len) as usize
}

fn channel_of(planes: usize, e: usize) -> usize
    ensures { result ≡ channel_of planes e }
{
    if planes == 2 { e % 4 } else { 0 }
}

fn upper_of(planes: usize, e: usize) -> usize
    requires { e < 1024 }
    ensures { (result ≡ upper_of planes e) × (result < 1024) }
{
    if planes == 2 { e / 4 } else { e }
}

// The mode bits as they stand in a block whose extra field is e.
fn mode_code(k: Legal, e: usize) -> usize
    requires { e < 1024 }
    ensures { (result ≡ code_in k.config e) × (Coded k.config.base result) }
{
    let k = k.config;
    if k.base == 0 {
        return k.low_modes;
    }
    k.low_modes + 16 * upper_of(k.planes, e)
}

// The parameters of a legal block: k is what its low configuration says.
fn accept(b: Block, k: Legal) -> Params
    ensures { result ≡ legal k.config (extra_in k.config (value_of b)) }
{
    let endpoint_range = params_room::end_range(k);
    let e = extra_field(b, k);
    let code = mode_code(k, e);
    let config = k.config;
    let modes = Modes {
        parts: config.parts,
        base: config.base,
        code,
    };
    Params {
        answer: usize::from(Verdict::Legal),
        config,
        channel: channel_of(config.planes, e),
        mode_code: code,
        modes: params_modes::modes_of(modes),
        endpoint_range,
    }
}

fn refuse(rule: Rule) -> Params
    ensures { result ≡ refused (rule_number rule) }
{
    Params {
        answer: usize::from(rule),
        config: Config::default(),
        channel: 0,
        mode_code: 0,
        modes: [0; 4],
        endpoint_range: 0,
    }
}

// The parameters of the block b, which is not void, at the footprint f, or the first rule that it
// breaks. The chain of low_config, is_reserved, read_config and judge stands here and once more in
// `params_map::decode_block_map`, though one function could serve both. This one has a single
// caller in the decoder and is compiled into it, so that numbers that nobody reads there are not
// worked out (docs/DECISIONS.md); the map's calls would be further callers. No type says that a
// block is not void: the definitions `params_of` and `is_void` speak of the number that the block
// is.
pub fn legal_params(b: Block, f: Footprint) -> Result<Params, Rule>
    requires { is_void (value_of b) ≡ false }
    ensures params { told result ≡ params_of (value_of b) f }
    ensures legal { IfOk result (λ p. p.answer ≡ 0) }
{
    let c = params_low::low_config(b);
    if params_config::is_reserved(c) {
        return Err(Rule::ReservedMode);
    }
    let config = params_config::read_config(c);
    params_rules::judge(config, f)?;
    Ok(accept(b, Legal { config }))
}

// The same in one record, whose answer is the number of the rule.
pub fn decode_block_params(b: Block, f: Footprint) -> Params
    requires { is_void (value_of b) ≡ false }
    ensures { result ≡ params_of (value_of b) f }
{
    match legal_params(b, f) {
        Ok(params) => params,
        Err(rule) => refuse(rule),
    }
}
