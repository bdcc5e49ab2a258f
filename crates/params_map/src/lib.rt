// The map of a block: where its fields stand.
#![tactic(auto)]

ghost use Rattle.std.specs.Prelude.{◌≡◌, ◌<◌};
ghost use Rattle.bits.specs.Blocks.{value_of};
ghost use Rattle.sequence_ranges.specs.Ranges.{top_of};
ghost use Rattle.params_map.specs.Map.{legal_map, no_map, map_of};

use answers::{Rule, Verdict};
use bits::Block;
use footprint::Footprint;
use params_room::Legal;
use sequence_ranges::Kind;

// The answer of a block and, where it is legal, start and length of each of its fields and the
// largest value of its endpoints' range. The answer is a field and a number, and the map no Result:
// it is what `block_map` gives for any input, and the theorems `one_answer`, `in_order` and others
// speak of its answer.
#[derive(Clone, Copy, Debug, Default, PartialEq, Eq, Hash)]
pub struct BlockMap {
    pub answer: usize,
    pub top: usize,
    pub low_at: usize,
    pub low_len: usize,
    pub end_at: usize,
    pub end_len: usize,
    pub extra_at: usize,
    pub extra_len: usize,
    pub weight_at: usize,
    pub weight_len: usize,
}

// The largest value of the range of number q. A range goes by its number, as in the definition
// `top_of`.
fn top_of(q: usize) -> usize
    requires { q < 21 }
    ensures { result ≡ top_of q }
{
    let r = sequence_ranges::range_of(q);
    match r.kind {
        Kind::Plain => (1 << r.bits) - 1,
        Kind::Trits => (3 << r.bits) - 1,
        Kind::Quints => (5 << r.bits) - 1,
    }
}

// The map of a legal block: k is what its low configuration says.
fn legal_map(k: Legal) -> BlockMap
    ensures { result ≡ legal_map k.config }
{
    let range = params_room::end_range(k);
    let k = k.config;
    let extra = params_rules::extra_len(k);
    let weight = k.weight_len;
    BlockMap {
        answer: usize::from(Verdict::Legal),
        top: top_of(range),
        low_at: 0,
        low_len: k.low_len,
        end_at: k.low_len,
        end_len: params_config::range_bits(range, k.values),
        extra_at: 128 - (weight + extra),
        extra_len: extra,
        weight_at: 128 - weight,
        weight_len: weight,
    }
}

// The map of any other answer: all its numbers are 0.
pub fn no_map(answer: usize) -> BlockMap
    ensures { result ≡ no_map answer }
{
    BlockMap {
        answer,
        ..BlockMap::default()
    }
}

// The map of the block b at the footprint f. Its chain of checks stands in `params::legal_params`
// too, which says why.
pub fn decode_block_map(b: Block, f: Footprint) -> BlockMap
    ensures { result ≡ map_of (value_of b) f }
{
    if params_low::is_void(b) {
        return no_map(usize::from(Verdict::VoidExtent));
    }
    let c = params_low::low_config(b);
    if params_config::is_reserved(c) {
        return no_map(usize::from(Rule::ReservedMode));
    }
    let config = params_config::read_config(c);
    match params_rules::judge(config, f) {
        Ok(()) => legal_map(Legal { config }),
        Err(rule) => no_map(usize::from(rule)),
    }
}
