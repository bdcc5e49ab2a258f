// The map of a block of sixteen bytes, for any input.
#![tactic(auto)]

ghost use Rattle.std.specs.Prelude.{◌≡◌};
ghost use Rattle.block_map.specs.Answer.{block_map};

use footprint::Footprint;
use params_map::BlockMap;

// The map of a block of sixteen bytes; for any answer but 0 all its numbers are 0.
pub fn block_map(s: &[u8], f: Footprint) -> BlockMap
    ensures { result ≡ block_map s.now f }
{
    match block_refusal::first_refusal(s.len(), f) {
        Ok(()) => params_map::decode_block_map(block_load::load(s), f),
        Err(refusal) => params_map::no_map(usize::from(refusal)),
    }
}
