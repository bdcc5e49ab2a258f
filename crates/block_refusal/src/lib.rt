// Whether a call for a block is refused, before the block itself is looked at.
#![tactic(auto)]

ghost use Rattle.std.specs.Prelude.{◌≡◌};
ghost use Rattle.answers.specs.Results.{refused};
ghost use Rattle.block_refusal.specs.Refusal.{first_refusal, block_refusal, texel_refusal};

use answers::Refusal;
use footprint::Footprint;

// Why every call with `len` bytes and this footprint is refused.
pub fn first_refusal(len: usize, f: Footprint) -> Result<(), Refusal>
    ensures { refused result ≡ first_refusal len f }
{
    if len != 16 {
        return Err(Refusal::BlockLength);
    }
    if footprint::is_listed(f) {
        return Ok(());
    }
    Err(Refusal::Footprint)
}

// Why a call for all texels is refused, with room for so many.
pub fn refusal(len: usize, f: Footprint, room: usize) -> Result<(), Refusal>
    ensures { refused result ≡ block_refusal len f room }
{
    first_refusal(len, f)?;
    if room < f.width * f.height {
        return Err(Refusal::OutputTooShort);
    }
    Ok(())
}

// Why a call for the texel t, counted row by row, is refused.
pub fn texel_refusal(len: usize, f: Footprint, t: usize) -> Result<(), Refusal>
    ensures { refused result ≡ texel_refusal len f t }
{
    first_refusal(len, f)?;
    if t < f.width * f.height {
        return Ok(());
    }
    Err(Refusal::Position)
}
