// Halves, IEEE 754's binary16, as `f32`s and as bytes.
#![tactic(auto)]

ghost use Rattle.std.specs.Prelude.{◌≡◌, false, ◌<◌};
ghost use Rattle.half.specs.Half.{half, value, product_of, hdr_byte_of, void_byte_of};

// The value of the half with no sign, the exponent's field x and the digits t.
fn magnitude(x: u32, t: u32) -> f32
    requires field { x < 32 }
    requires digits { t < 1024 }
    ensures { result ≡ value false x t }
{
    match (x, t) {
        (31, 0) => f32::INFINITY,
        (31, _) => f32::NAN,
        (0, _) => (t as f32) * 5.9604644775390625e-8,
        _ => f32::from_bits((x + 112) * 8388608 + t * 8192),
    }
}

// The half with the pattern h as the equal `f32`, and every NaN as a NaN.
pub fn fp16_ieee_to_fp32_value(h: u16) -> f32
    ensures { result ≡ half h }
{
    let n = u32::from(h);
    let f = magnitude(n / 1024 % 32, n % 1024);
    if n < 32768 { f } else { -f }
}

// 255 times the half: an `f32` holds it, so that nothing is rounded.
pub fn half_times_255(h: u16) -> f32
    ensures { result ≡ product_of h }
{
    fp16_ieee_to_fp32_value(h) * 255.0
}

// The byte of an HDR channel's half, which has no sign. From 1.0 on, infinity and NaN with it, it
// is 255, and below 2^-13 it is 0, so that the half is brought between the two first. Then 2^23
// times its product is a whole number, and the casts lose nothing (an `f32` beyond 2^24 is cast to
// no integer, an `f64` is). The product is no NaN, so it is widened by `as`: `f64::from` would also
// test for one.
pub fn hdr_to_u8(h: u16) -> u8
    requires { h < 32768 }
    ensures { result ≡ hdr_byte_of h }
{
    let p = half_times_255(h.clamp(0x800, 0x3c00));
    ((p as f64 * 8388608.0) as i32 as u32 / 8388608) as u8
}

// The byte of a void extent's half, as the original's `f32_to_u8` has it: the HDR rule up to plus
// infinity, then 0 for every NaN and every negative number, but 255 for minus infinity.
pub fn f16_to_u8(h: u16) -> u8
    ensures { result ≡ void_byte_of h }
{
    match h {
        0..=0x7c00 => hdr_to_u8(h),
        0xfc00 => 255,
        _ => 0,
    }
}
