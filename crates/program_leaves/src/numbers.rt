// Answers on halves, blended channels and words.
ghost use Rattle.std.specs.Prelude.{◌≤◌, ◌<◌};

use crate::frame;

// The bits of a float, and all ones for a NaN.
fn float_bits(f: f32) -> u32 {
    if f.is_nan() { 0xffff_ffff } else { f.to_bits() }
}

fn put_half(out: &mut [u8; 288], i: usize, h: u16)
    requires { i < 279 }
{
    frame::put_u32(out, i, float_bits(half::fp16_ieee_to_fp32_value(h)));
    frame::put_u32(out, i + 4, float_bits(half::half_times_255(h)));
    out[i + 8] = half::f16_to_u8(h);
    if h < 32768 {
        out[i + 9] = half::hdr_to_u8(h);
    }
}

// Answers with what is made of sixteen halves, ten bytes each. The HDR rule is asked for halves
// without a sign alone.
pub(crate) fn reply_halves(out: &mut [u8; 288], ask: &[u8; 32]) {
    let first = frame::pair_at(ask, 1);
    for i in 0..16 {
        put_half(out, 10 * usize::from(i), first.wrapping_add(i));
    }
}

// The channel of two endpoints at a weight by the LDR formula, 0 where an endpoint is out of its bounds.
// The other two rules are asked in the same way, each within bounds of its own: a common function over
// a closure would need those bounds in the closure's contract, and is no plainer.
fn ldr(v0: u16, v1: u16, w: u16) -> u8
    requires { w ≤ 64 }
{
    if v0 <= 286 && v1 <= 286 {
        blend::select_color(u32::from(v0), u32::from(v1), u32::from(w))
    } else {
        0
    }
}

// The same by the LDR rule in 16 bits.
fn ldr_byte(v0: u16, v1: u16, w: u16) -> usize
    requires { w ≤ 64 }
{
    if v0 <= 255 && v1 <= 255 {
        usize::from(blend::select_color_byte(v0, v1, w))
    } else {
        0
    }
}

// The same by the HDR rule.
fn hdr(v0: u16, v1: u16, w: u16) -> u8
    requires { w ≤ 64 }
{
    if v0 <= 4095 && v1 <= 4095 {
        blend::select_color_hdr(u32::from(v0), u32::from(v1), u32::from(w))
    } else {
        0
    }
}

// Answers with the channels of two endpoints at all weights, by each of the three rules.
pub(crate) fn reply_blend(out: &mut [u8; 288], ask: &[u8; 32]) {
    let v0 = frame::pair_at(ask, 1);
    let v1 = frame::pair_at(ask, 3);
    for w in 0..65 {
        let i = usize::from(w);
        out[i] = ldr(v0, v1, w);
        frame::put(out, 65 + i, ldr_byte(v0, v1, w));
        out[130 + i] = hdr(v0, v1, w);
    }
}

// Answers with the word of four channels.
pub(crate) fn reply_color(out: &mut [u8; 288], ask: &[u8; 32]) {
    frame::put_u32(out, 0, blend::color(ask[1], ask[2], ask[3], ask[4]));
}
