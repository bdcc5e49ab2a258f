// The rules that a block may break, from the size of its grid to the room for its endpoints.
#![tactic(auto)]

ghost use Rattle.std.specs.Prelude.{◌≡◌};
ghost use Rattle.answers.specs.Results.{broken};
ghost use Rattle.params_config.specs.Bounds.{ConfigBounds};
ghost use Rattle.params_rules.specs.Rules.{extra_len, used, end_verdict, verdict};

use answers::Rule;
use footprint::Footprint;
use params_config::Config;

// The length of the extra field: mode bits, and two for the channel of the second plane.
pub fn extra_len(k: Config) -> usize
    requires { ConfigBounds k }
    ensures { result ≡ extra_len k }
{
    k.mode_bits + 2 * (k.planes - 1)
}

// All bits of a block but those of its endpoints.
pub fn used_bits(k: Config) -> usize
    requires { ConfigBounds k }
    ensures { result ≡ used k }
{
    k.low_len + extra_len(k) + k.weight_len
}

// Tests rules 15 and 16, on the endpoint values.
fn judge_ends(k: Config) -> Result<(), Rule>
    requires { ConfigBounds k }
    ensures { broken result ≡ end_verdict k }
{
    if 18 < k.values {
        return Err(Rule::TooManyValues);
    }
    if 128 < (13 * k.values + 4) / 5 + used_bits(k) {
        return Err(Rule::TooLittleRoom);
    }
    Ok(())
}

// The first of rules 11 to 16 that what k says breaks at the footprint f.
pub fn judge(k: Config, f: Footprint) -> Result<(), Rule>
    requires { ConfigBounds k }
    ensures { broken result ≡ verdict k f }
{
    if f.width < k.width || f.height < k.height {
        return Err(Rule::GridTooLarge);
    }
    if 64 < k.width * k.height * k.planes {
        return Err(Rule::TooManyWeights);
    }
    if k.weight_len < 24 || 96 < k.weight_len {
        return Err(Rule::WeightBits);
    }
    if k.planes == 2 && k.parts == 4 {
        return Err(Rule::DualPlaneOfFour);
    }
    judge_ends(k)
}
