// What the C surface checks of a call before the decoder does: its options, and the places for
// where a step led.
#![tactic(auto)]

ghost use Rattle.std.specs.Prelude.{◌≡◌};
ghost use Rattle.answers.specs.Results.{refused};
ghost use Rattle.astc_checks.specs.Checks.{options_refusal, places_refusal};

use answers::Refusal;
use image_shape::Shape;

// Why a call with these options is refused, if it is.
#[tactic(auto, unfolding(crate::specs::Checks::options_refusal))]
pub fn options_refusal(options: u32) -> Result<(), Refusal>
    ensures { refused result ≡ options_refusal options }
{
    if options != 0 {
        return Err(Refusal::Options);
    }
    Ok(())
}

// Why a step without the three places in which C reads where it led is refused, the image's own
// refusals first.
#[tactic(auto, unfolding(crate::specs::Checks::places_refusal))]
pub fn places_refusal(m: Shape, len: usize, room: usize, places: usize) -> Result<(), Refusal>
    ensures { refused result ≡ places_refusal m len room places }
{
    if places < 3 {
        image_shape::refusal(m, len, room)?;
        return Err(Refusal::OutputTooShort);
    }
    Ok(())
}
