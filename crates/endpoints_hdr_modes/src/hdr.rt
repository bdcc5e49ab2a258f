// The endpoint modes 2, 3 and 7, of high dynamic range, and what mode 11 shares with them. The
// sub-mode and the major component of mode 7 are the standard's numbers, read from bits, as the
// definitions `seven_mode`, `seven_major` and `swapped` have them.
ghost use Rattle.std.specs.Prelude.{◌≡◌, ◌<◌};
ghost use Rattle.endpoints_rules.specs.Hdr.{hdr, grey, rgb, alphas, swapped, luminance_large, luminance_small, seven_major, seven_mode, seven_less, hdr7};
ghost use Rattle.endpoints_hdr_seven.specs.HdrLaws.{Below};

use endpoints_colours::{Alphas, Endpoints, Mark};
use endpoints_rules::{Rgb, Seven};

pub(crate) fn rgb_of(r: u16, g: u16, b: u16) -> Rgb
    ensures { result ≡ rgb r g b }
{
    Rgb { r, g, b }
}

pub(crate) fn hdr_alphas_of(first: u16, second: u16) -> Alphas
    ensures { result ≡ alphas first second Mark.Hdr }
{
    Alphas {
        first,
        second,
        mark: Mark::Hdr,
    }
}

pub(crate) fn set_endpoint_hdr(c: Rgb, d: Rgb, t: Alphas) -> Endpoints
    ensures { result ≡ hdr c d t }
{
    let alpha = t.mark;
    Endpoints {
        r0: c.r,
        g0: c.g,
        b0: c.b,
        a0: t.first,
        r1: d.r,
        g1: d.g,
        b1: d.b,
        a1: t.second,
        color: Mark::Hdr,
        alpha,
    }
}

fn set_endpoint_grey(y0: u16, y1: u16) -> Endpoints
    ensures { result ≡ grey y0 y1 }
{
    set_endpoint_hdr(
        rgb_of(y0, y0, y0),
        rgb_of(y1, y1, y1),
        hdr_alphas_of(0x780, 0x780),
    )
}

#[tactic(auto, unfolding(endpoints_rules::specs::Hdr::luminance_large))]
pub(crate) fn luminance_large(v0: u8, v1: u8) -> Endpoints
    ensures { result ≡ luminance_large v0 v1 }
{
    let x = u16::from(v0) * 16;
    let y = u16::from(v1) * 16;
    if v0 <= v1 {
        set_endpoint_grey(x, y)
    } else {
        set_endpoint_grey(y + 8, x - 8)
    }
}

#[tactic(auto, unfolding(endpoints_rules::specs::Hdr::luminance_small))]
pub(crate) fn luminance_small(v0: u8, v1: u8) -> Endpoints
    ensures { result ≡ luminance_small v0 v1 }
{
    let x = u16::from(v0) % 128;
    let w = u16::from(v1);
    if 128 <= v0 {
        let y = w / 32 * 512 + x * 4;
        return set_endpoint_grey(y, (y + w % 32 * 4).min(4095));
    }
    let y = w / 16 * 256 + x * 2;
    set_endpoint_grey(y, (y + w % 16 * 2).min(4095))
}

#[tactic(auto, unfolding(endpoints_rules::specs::Hdr::swapped))]
pub(crate) fn swap(major: u8, c: Rgb) -> Rgb
    ensures { result ≡ swapped major c }
{
    match major {
        1 => rgb_of(c.g, c.r, c.b),
        2 => rgb_of(c.b, c.g, c.r),
        _ => c,
    }
}

#[tactic(auto, unfolding(endpoints_rules::specs::Hdr::seven_major))]
fn major_seven(n: u8) -> u8
    ensures { result ≡ seven_major n }
{
    match n {
        12..=14 => n % 4,
        15 => 0,
        _ => n / 4,
    }
}

#[tactic(auto, unfolding(endpoints_rules::specs::Hdr::seven_mode))]
fn mode_seven(n: u8) -> u8
    ensures { (result ≡ seven_mode n) × (result < 6) }
{
    match n {
        12..=14 => 4,
        15 => 5,
        _ => n % 4,
    }
}

// A colour of mode 7 less s: the second endpoint where s is 0, the first where s is the scale. In
// sub-modes 0 to 4 green and blue are differences to red.
#[tactic(auto, unfolding(endpoints_rules::specs::Hdr::seven_less))]
fn less_seven(mode: u8, c: Seven, s: u16) -> Rgb
    requires parts { Below 4096 c }
    requires scale { s < 4096 }
    ensures { result ≡ seven_less mode c s }
{
    let r = c.r.saturating_sub(s);
    if mode == 5 {
        rgb_of(r, c.g.saturating_sub(s), c.b.saturating_sub(s))
    } else {
        rgb_of(r, c.r.saturating_sub(c.g + s), c.r.saturating_sub(c.b + s))
    }
}

#[tactic(auto, unfolding(endpoints_rules::specs::Hdr::seven_value, endpoints_rules::specs::Hdr::hdr7))]
pub(crate) fn decode_endpoints_hdr7(v0: u8, v1: u8, v2: u8, v3: u8) -> Endpoints
    ensures { result ≡ hdr7 v0 v1 v2 v3 }
{
    let n = v0 / 64 + v1 / 128 * 4 + v2 / 128 * 8;
    let mode = mode_seven(n);
    let major = major_seven(n);
    let c = endpoints_hdr_seven::parts_of_seven(mode, v0, v1, v2, v3);
    set_endpoint_hdr(
        swap(major, less_seven(mode, c, c.s)),
        swap(major, less_seven(mode, c, 0)),
        hdr_alphas_of(0x780, 0x780),
    )
}
