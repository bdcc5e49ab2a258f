// Blending: a texel's channel from its endpoints and its weight, and the word of four channels.
// Endpoints and weights are numbers of the width that a loop blends eight of at once; so their
// bounds are asked, and not kept in types of their own.
#![tactic(auto)]

ghost use Rattle.std.specs.Prelude.{◌≡◌, ◌≤◌, ◌<◌};
ghost use Rattle.blend.specs.Blend.{expand, half_of, ldr_channel, hdr_half, hdr_channel, word_of};

// The packed word of four channels.
pub fn color(r: u8, g: u8, b: u8, a: u8) -> u32
    ensures { result ≡ word_of r g b a }
{
    u32::from_le_bytes([b, g, r, a])
}

// An endpoint expanded to 16 bits, which is 257 times a byte.
fn expanded(v: u32) -> u32
    requires { v ≤ 286 }
    ensures { (result ≡ expand v) × (result < 131072) }
{
    v << 8 | v
}

// The LDR channel of two endpoints at a weight, for endpoints of up to 286.
pub fn select_color(v0: u32, v1: u32, weight: u32) -> u8
    requires { (v0 ≤ 286) × ((v1 ≤ 286) × (weight ≤ 64)) }
    ensures { result ≡ ldr_channel v0 v1 weight }
{
    let x0 = expanded(v0);
    let x1 = expanded(v1);
    let c = (x0 * (64 - weight) + x1 * weight + 32) / 64;
    ((255 * c + 32768) / 65536 % 256) as u8
}

// The LDR channel of two bytes at a weight. It needs 16 bits only, so that a loop blends eight
// texels at once.
pub fn select_color_byte(v0: u16, v1: u16, weight: u16) -> u16
    requires { (v0 ≤ 255) × ((v1 ≤ 255) × (weight ≤ 64)) }
    ensures { (result ≡ ldr_channel v0 v1 weight) × (result ≤ 255) }
{
    let v = v0 * (64 - weight) + v1 * weight;
    (v + 32 - v / 8192) / 64
}

// The half of the 16 bits of a blended HDR channel. The low 11 bits rise by 3 eighths, from 512 on
// by 4 and from 1536 on by 5.
fn hdr_half(c: u32) -> u16
    requires { c < 65536 }
    ensures { result ≡ half_of c }
{
    let m = c % 2048;
    (c / 2048 * 1024 + (3 * m + m.saturating_sub(512) + m.saturating_sub(1536)) / 8) as u16
}

// The half of an HDR channel at a weight, for endpoints of 12 bits.
pub fn select_half(v0: u32, v1: u32, weight: u32) -> u16
    requires { (v0 < 4096) × ((v1 < 4096) × (weight ≤ 64)) }
    ensures { (result ≡ hdr_half v0 v1 weight) × (result < 32768) }
{
    hdr_half((v0 * (64 - weight) + v1 * weight + 2) / 4)
}

// The HDR channel at a weight, for endpoints of 12 bits.
pub fn select_color_hdr(v0: u32, v1: u32, weight: u32) -> u8
    requires { (v0 < 4096) × ((v1 < 4096) × (weight ≤ 64)) }
    ensures { result ≡ hdr_channel v0 v1 weight }
{
    half::hdr_to_u8(select_half(v0, v1, weight))
}
