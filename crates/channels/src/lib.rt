// A channel of a texel as it is answered, a byte or a float. It is decoded as a byte or as a half;
// here are the value that is answered and the byte that it is reduced to.
#![tactic(auto)]

ghost use Rattle.std.specs.Prelude.{◌≡◌, not, T};
ghost use Rattle.std.specs.Float.{binary32};
ghost use Rattle.std.specs.Float.Ieee.{nan_bits, of_bits};
ghost use Rattle.channels.specs.Channels.{channel_of, texel_of, byte_of, nan_byte, reduced_by};

// A channel as it is decoded: a byte, or the pattern of a half.
#[derive(Clone, Copy, Debug, PartialEq, Eq, Hash)]
pub enum Sample {
    Byte(u8),
    Half(u16),
}

// A channel as it is answered.
#[derive(Clone, Copy, Debug, PartialEq)]
pub enum Channel {
    Byte(u8),
    Float(f32),
}

// The four channels of a texel as they are decoded. This and `Texel` are two records, and no
// generic one: the definition `texel_of` goes from the one to the other, and `void_samples`,
// `block_samples` and `word_from` are stated over them too.
#[derive(Clone, Copy, Debug, PartialEq, Eq, Hash)]
pub struct Samples {
    pub r: Sample,
    pub g: Sample,
    pub b: Sample,
    pub a: Sample,
}

// The four channels of a texel as they are answered.
#[derive(Clone, Copy, Debug, PartialEq)]
pub struct Texel {
    pub r: Channel,
    pub g: Channel,
    pub b: Channel,
    pub a: Channel,
}

// By whose rule a float is reduced to a byte: that of an ordinary block's HDR channels, or that of
// a void block's colour.
#[derive(Clone, Copy, Debug, PartialEq, Eq, Hash)]
pub enum Rule {
    Ordinary,
    Void,
}

impl Rule {
    // The byte of a NaN.
    fn nan_byte(self) -> u8
        ensures { result ≡ nan_byte self }
    {
        match self {
            Rule::Ordinary => 255,
            Rule::Void => 0,
        }
    }
}

impl From<Sample> for Channel {
    ghost from_gives = { λ s c. c ≡ channel_of s };

    fn from(s: Sample) -> Channel {
        match s {
            Sample::Byte(b) => Channel::Byte(b),
            Sample::Half(h) => Channel::Float(half::fp16_ieee_to_fp32_value(h)),
        }
    }
}

// The four channels of a texel as they are answered, from its samples. It keeps its name and is no
// `From`, as docs/PROMISES.md and its callers have it.
pub fn texel_of(s: Samples) -> Texel
    ensures { result ≡ texel_of s }
{
    Texel {
        r: s.r.into(),
        g: s.g.into(),
        b: s.b.into(),
        a: s.a.into(),
    }
}

// The byte of the float with the pattern b, which is no NaN. The float is less than 1 below the
// pattern 0x3f80_0000, and its byte is 0 below 0x3b80_0000; between them its 24 digits times 255
// are shifted down. An infinity is 255 with either sign, and every other negative float is 0.
fn pattern_byte(b: u32) -> u8
    requires { T (not (nan_bits binary32 b)) }
    ensures { result ≡ byte_of 0 (of_bits binary32 b) }
{
    match b {
        0..0x3b80_0000 => 0,
        0x3b80_0000..0x3f80_0000 => { (255 * (8388608 + b % 8388608) >> (150 - b / 8388608)) as u8 }
        0x3f80_0000..0x8000_0000 => 255,
        0xff80_0000 => 255,
        _ => 0,
    }
}

// The byte of a float, and `nan` for a NaN.
fn byte_of(x: f32, nan: u8) -> u8
    ensures { result ≡ byte_of nan x }
{
    if x.is_nan() {
        return nan;
    }
    pattern_byte(x.to_bits())
}

// A channel reduced to eight bits.
pub fn reduced(c: Channel, rule: Rule) -> u8
    ensures { result ≡ reduced_by rule c }
{
    match c {
        Channel::Byte(b) => b,
        Channel::Float(x) => byte_of(x, rule.nan_byte()),
    }
}
