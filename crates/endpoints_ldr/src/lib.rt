// The endpoint modes of low dynamic range. A mode is a number, as it is in the standard's table and
// in the definition `endpoints_of`; `offset_alphas` and `opaque_or` test that number.
#![tactic(auto)]

ghost use Rattle.std.specs.Prelude.{◌≡◌, cond, ◌*◌, ◌/◌, ◌<◌, min, eqb};
ghost use Rattle.endpoints_colours.specs.Colours.{each, ldr};
ghost use Rattle.endpoints_colours.specs.Marks.{marks_of};
ghost use Rattle.endpoints_rules.specs.Ldr.{contracted, clamped, clamped_pair, luminance, luminance_offset, luminance_alpha_offset, scaled, direct, offset};
ghost use Rattle.endpoints_rules.specs.Modes.{endpoints_of};
ghost use Rattle.endpoints_ldr.specs.LdrLaws.{transferred, opaque_alphas, transferred_alphas, Narrow};

use endpoints_colours::{Alphas, Endpoints, Mark, Rgba, Values};

// A base that has taken the top bit of its offset, and what is left of the offset, with 32 added.
#[derive(Clone, Copy, Debug, PartialEq, Eq, Hash)]
pub struct Transfer {
    pub base: u16,
    pub offset: u16,
}

fn set_endpoint(c: Rgba, d: Rgba) -> Endpoints
    ensures { result ≡ ldr c d }
{
    Endpoints {
        r0: c.r,
        g0: c.g,
        b0: c.b,
        a0: c.a,
        r1: d.r,
        g1: d.g,
        b1: d.b,
        a1: d.a,
        color: Mark::Ldr,
        alpha: Mark::Ldr,
    }
}

// Red and green are moved half the way to blue. That they are narrow is asked here and by its
// callers: the definitions of specs/ take colours of any size, so the type cannot hold it.
fn contract(c: Rgba) -> Rgba
    requires { Narrow c }
    ensures { result ≡ contracted c }
{
    Rgba {
        r: (c.r + c.b) / 2,
        g: (c.g + c.b) / 2,
        b: c.b,
        a: c.a,
    }
}

fn set_endpoint_blue(c: Rgba, d: Rgba) -> Endpoints
    requires { Narrow c × Narrow d }
    ensures { result ≡ ldr (contracted c) (contracted d) }
{
    set_endpoint(contract(c), contract(d))
}

// Takes 32 from a number to which it was added, and brings what is left into 0..255.
fn clamp(x: u16) -> u16
    ensures { result ≡ clamped x }
{
    x.saturating_sub(32).min(255)
}

fn clamp_each(c: Rgba) -> Rgba
    ensures { result ≡ each clamped c }
{
    Rgba {
        r: clamp(c.r),
        g: clamp(c.g),
        b: clamp(c.b),
        a: clamp(c.a),
    }
}

// The endpoints of two colours to whose components 32 is added, clamped to 0..255.
fn set_endpoint_clamp(c: Rgba, d: Rgba) -> Endpoints
    ensures { result ≡ clamped_pair c d }
{
    set_endpoint(clamp_each(c), clamp_each(d))
}

// The endpoints of two colours to whose components 32 is added, both contracted and then clamped to
// 0..255.
fn set_endpoint_blue_clamp(c: Rgba, d: Rgba) -> Endpoints
    requires { Narrow c × Narrow d }
    ensures { result ≡ clamped_pair (contracted c) (contracted d) }
{
    set_endpoint_clamp(contract(c), contract(d))
}

#[tactic(auto, unfolding(endpoints_rules::specs::Ldr::base_of, endpoints_rules::specs::Ldr::offset_of))]
fn bit_transfer_signed(offset: u8, base: u8) -> Transfer
    ensures { (result ≡ transferred offset base) × (result.base < 256) × (result.offset < 64) }
{
    Transfer {
        base: u16::from(base) / 2 + u16::from(offset) / 128 * 128,
        offset: (u16::from(offset) / 2 + 32) % 64,
    }
}

// A colour with three equal components and an alpha.
fn grey(x: u16, a: u16) -> Rgba
    ensures { result ≡ record { r = x; g = x; b = x; a = a } }
{
    Rgba {
        r: x,
        g: x,
        b: x,
        a,
    }
}

#[tactic(auto, unfolding(endpoints_rules::specs::Ldr::luminance))]
fn luminance_endpoints(v0: u8, v1: u8, a0: u8, a1: u8) -> Endpoints
    ensures { result ≡ luminance v0 v1 a0 a1 }
{
    set_endpoint(
        grey(u16::from(v0), u16::from(a0)),
        grey(u16::from(v1), u16::from(a1)),
    )
}

#[tactic(auto, unfolding(endpoints_rules::specs::Ldr::luminance_offset, endpoints_rules::specs::Ldr::luminance))]
fn luminance_offset(v0: u8, v1: u8) -> Endpoints
    ensures { result ≡ luminance_offset v0 v1 }
{
    let l = u16::from(v0) / 4 + u16::from(v1) / 64 * 64;
    set_endpoint(grey(l, 255), grey((l + u16::from(v1) % 64).min(255), 255))
}

#[tactic(auto, unfolding(endpoints_rules::specs::Ldr::luminance_alpha_offset))]
fn luminance_alpha_offset(v0: u8, v1: u8, v2: u8, v3: u8) -> Endpoints
    ensures { result ≡ luminance_alpha_offset v0 v1 v2 v3 }
{
    let t = bit_transfer_signed(v1, v0);
    let u = bit_transfer_signed(v3, v2);
    set_endpoint_clamp(
        grey(t.base + 32, u.base + 32),
        grey(t.base + t.offset, u.base + u.offset),
    )
}

// The product of two bytes, less its low eight bits.
fn share(x: u8, s: u8) -> u16
    ensures { result ≡ x * s / 256 }
{
    u16::from(x) * u16::from(s) / 256
}

// The endpoints of modes 6 and 10: the second is the colour of the values, the first is that colour
// times the scale.
#[tactic(auto, unfolding(endpoints_rules::specs::Ldr::scaled))]
fn scaled_endpoints(v: Values, a0: u8, a1: u8) -> Endpoints
    ensures { result ≡ scaled v a0 a1 }
{
    set_endpoint(
        Rgba {
            r: share(v.v0, v.v3),
            g: share(v.v1, v.v3),
            b: share(v.v2, v.v3),
            a: u16::from(a0),
        },
        Rgba {
            r: u16::from(v.v0),
            g: u16::from(v.v1),
            b: u16::from(v.v2),
            a: u16::from(a1),
        },
    )
}

#[tactic(auto, unfolding(endpoints_rules::specs::Ldr::direct))]
fn direct_endpoints(v: Values, a0: u8, a1: u8) -> Endpoints
    ensures { result ≡ direct v a0 a1 }
{
    let c = Rgba {
        r: u16::from(v.v0),
        g: u16::from(v.v2),
        b: u16::from(v.v4),
        a: u16::from(a0),
    };
    let d = Rgba {
        r: u16::from(v.v1),
        g: u16::from(v.v3),
        b: u16::from(v.v5),
        a: u16::from(a1),
    };
    if c.r + c.g + c.b <= d.r + d.g + d.b {
        set_endpoint(c, d)
    } else {
        set_endpoint_blue(d, c)
    }
}

// The alphas of modes 9 and 13, with 32 added.
fn offset_alphas(mode: u8, v6: u8, v7: u8) -> Alphas
    ensures { result ≡ cond (eqb mode 9) opaque_alphas (transferred_alphas v6 v7) }
{
    if mode == 9 {
        return Alphas {
            first: 255 + 32,
            second: 255 + 32,
            mark: Mark::Ldr,
        };
    }
    let t = bit_transfer_signed(v7, v6);
    Alphas {
        first: t.base + 32,
        second: t.base + t.offset,
        mark: Mark::Ldr,
    }
}

// The endpoints of modes 9 and 13, from their values and from alphas to which 32 is added.
#[tactic(auto, unfolding(endpoints_rules::specs::Ldr::offset))]
fn offset_endpoints(v: Values, t: Alphas) -> Endpoints
    ensures { result ≡ offset v t.first t.second }
{
    let r = bit_transfer_signed(v.v1, v.v0);
    let g = bit_transfer_signed(v.v3, v.v2);
    let b = bit_transfer_signed(v.v5, v.v4);
    let c = Rgba {
        r: r.base + 32,
        g: g.base + 32,
        b: b.base + 32,
        a: t.first,
    };
    let d = Rgba {
        r: r.base + r.offset,
        g: g.base + g.offset,
        b: b.base + b.offset,
        a: t.second,
    };
    if 96 <= r.offset + g.offset + b.offset {
        set_endpoint_clamp(c, d)
    } else {
        set_endpoint_blue_clamp(d, c)
    }
}

fn opaque_or(mode: u8, opaque: u8, x: u8) -> u8
    ensures { result ≡ cond (eqb mode opaque) 255 x }
{
    if mode == opaque { 255 } else { x }
}

// The endpoints of an LDR mode from its values.
pub fn decode_ldr(mode: u8, v: Values) -> Endpoints
    requires { (mode < 16) × ((marks_of mode).color ≡ Mark.Ldr) }
    ensures { result ≡ endpoints_of mode v }
{
    match mode {
        0 => luminance_endpoints(v.v0, v.v1, 255, 255),
        1 => luminance_offset(v.v0, v.v1),
        4 => luminance_endpoints(v.v0, v.v1, v.v2, v.v3),
        5 => luminance_alpha_offset(v.v0, v.v1, v.v2, v.v3),
        6 | 10 => scaled_endpoints(v, opaque_or(mode, 6, v.v4), opaque_or(mode, 6, v.v5)),
        8 | 12 => direct_endpoints(v, opaque_or(mode, 8, v.v6), opaque_or(mode, 8, v.v7)),
        _ => offset_endpoints(v, offset_alphas(mode, v.v6, v.v7)),
    }
}
