// The endpoint modes of high dynamic range. Modes, sub-modes and major components are numbers: they
// are the standard's, and the definitions `endpoints_of`, `seven_mode`, `seven_major` and `swapped`
// speak of them.
#![tactic(auto)]

ghost use Rattle.std.specs.Prelude.{◌≡◌, ◌<◌};
ghost use Rattle.endpoints_colours.specs.Marks.{marks_of};
ghost use Rattle.endpoints_rules.specs.Modes.{endpoints_of};

use endpoints_colours::{Endpoints, Mark, Values};

mod hdr;
mod hdr11;

// The endpoints of an HDR mode from its values.
pub fn decode_hdr(mode: u8, v: Values) -> Endpoints
    requires { (mode < 16) × ((marks_of mode).color ≡ Mark.Hdr) }
    ensures { result ≡ endpoints_of mode v }
{
    match mode {
        2 => hdr::luminance_large(v.v0, v.v1),
        3 => hdr::luminance_small(v.v0, v.v1),
        7 => hdr::decode_endpoints_hdr7(v.v0, v.v1, v.v2, v.v3),
        _ => hdr11::decode_endpoints_hdr11(v, hdr11::alphas_of(mode, v)),
    }
}
