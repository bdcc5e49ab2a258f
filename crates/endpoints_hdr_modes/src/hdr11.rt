// The endpoint modes 11, 14 and 15, of high dynamic range.
ghost use Rattle.std.specs.Prelude.{◌≡◌, cond, ◌+◌, ◌<◌, eqb};
ghost use Rattle.endpoints_rules.specs.Hdr.{rgb, alphas, opaque, less};
ghost use Rattle.endpoints_rules.specs.Hdr11.{hdr11, plain_alphas, offset_alphas, hdr_alphas};
ghost use Rattle.endpoints_hdr_eleven.specs.Hdr11Laws.{ElevenBounds};

use crate::hdr;
use endpoints_colours::{Alphas, Endpoints, Mark, Values};
use endpoints_hdr_eleven::Eleven;
use endpoints_rules::Rgb;

fn first_eleven(e: Eleven) -> Rgb
    requires { ElevenBounds e }
    ensures { result ≡
        rgb (less e.a e.c) (less e.a (e.b0 + e.c + e.d0))
        (less e.a (e.b1 + e.c + e.d1)) }
{
    hdr::rgb_of(
        e.a.saturating_sub(e.c),
        e.a.saturating_sub(e.b0 + e.c + e.d0),
        e.a.saturating_sub(e.b1 + e.c + e.d1),
    )
}

fn second_eleven(e: Eleven) -> Rgb
    requires { ElevenBounds e }
    ensures { result ≡ rgb e.a (less e.a e.b0) (less e.a e.b1) }
{
    hdr::rgb_of(e.a, e.a.saturating_sub(e.b0), e.a.saturating_sub(e.b1))
}

#[tactic(auto, unfolding(endpoints_rules::specs::Hdr11::hdr11, endpoints_rules::specs::Hdr11::eleven_major, endpoints_rules::specs::Hdr11::eleven_mode))]
pub(crate) fn decode_endpoints_hdr11(v: Values, t: Alphas) -> Endpoints
    ensures { result ≡ hdr11 v t }
{
    let major = v.v4 / 128 + v.v5 / 128 * 2;
    if major == 3 {
        return hdr::set_endpoint_hdr(
            hdr::rgb_of(
                u16::from(v.v0) * 16,
                u16::from(v.v2) * 16,
                u16::from(v.v4) % 128 * 32,
            ),
            hdr::rgb_of(
                u16::from(v.v1) * 16,
                u16::from(v.v3) * 16,
                u16::from(v.v5) % 128 * 32,
            ),
            t,
        );
    }
    let e = endpoints_hdr_eleven::parts_of_eleven(v.v1 / 128 + v.v2 / 128 * 2 + v.v3 / 128 * 4, v);
    hdr::set_endpoint_hdr(
        hdr::swap(major, first_eleven(e)),
        hdr::swap(major, second_eleven(e)),
        t,
    )
}

fn alphas_by(first: u16, add: u16, sub: u16) -> Alphas
    requires { (first < 4096) × (add < 4096) }
    ensures { result ≡ alphas first (less (first + add) sub) Mark.Hdr }
{
    hdr::hdr_alphas_of(first, (first + add).saturating_sub(sub).min(4095))
}

#[tactic(auto, unfolding(endpoints_rules::specs::Hdr11::offset_alphas))]
fn offset_alphas(mode: u8, x: u16, y: u16) -> Alphas
    requires { (mode < 3) × (x < 128) × (y < 128) }
    ensures { result ≡ offset_alphas mode x y }
{
    match mode {
        0 => alphas_by((x + y / 64 * 128) * 16, (y + 32) % 64 * 16, 512),
        1 => alphas_by((x + y / 32 * 128) * 8, (y + 16) % 32 * 8, 128),
        _ => alphas_by((x + y / 16 * 128) * 4, (y + 8) % 16 * 4, 32),
    }
}

#[tactic(auto, unfolding(endpoints_rules::specs::Hdr11::hdr_alphas))]
fn hdr_alphas(v: Values) -> Alphas
    ensures { result ≡ hdr_alphas v }
{
    let mode = v.v6 / 128 + v.v7 / 128 * 2;
    let x = u16::from(v.v6) % 128;
    let y = u16::from(v.v7) % 128;
    if mode == 3 {
        return hdr::hdr_alphas_of(x * 32, y * 32);
    }
    offset_alphas(mode, x, y)
}

// The alphas of modes 11, 14 and 15.
pub(crate) fn alphas_of(mode: u8, v: Values) -> Alphas
    ensures { result ≡
        cond (eqb mode 11) opaque (cond (eqb mode 14) (plain_alphas v) (hdr_alphas v)) }
{
    match mode {
        11 => hdr::hdr_alphas_of(0x780, 0x780),
        14 => Alphas {
            first: u16::from(v.v6),
            second: u16::from(v.v7),
            mark: Mark::Ldr,
        },
        _ => hdr_alphas(v),
    }
}
