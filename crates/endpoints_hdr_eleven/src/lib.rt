// The numbers of which endpoint mode 11 makes its colours, put together from the values' bits.
#![tactic(auto)]

ghost use Rattle.std.specs.Prelude.{◌≡◌, ◌-◌, ◌*◌, ◌/◌, ◌+◌, ◌^◌, ◌≤◌, ◌<◌, get_or};
ghost use Rattle.endpoints_rules.specs.Hdr11.{up};
ghost use Rattle.endpoints_hdr_eleven.specs.Hdr11Laws.{bases, differences, commons, kept, offsets, eleven_of, ElevenBounds};

use endpoints_colours::Values;

// The numbers of mode 11: the base, two differences, what both endpoints differ by, and two
// offsets. Their bounds are no part of the type: specs/ defines them for values that are no bytes
// too.
#[derive(Clone, Copy, Debug, PartialEq, Eq, Hash)]
pub struct Eleven {
    pub a: u16,
    pub b0: u16,
    pub b1: u16,
    pub c: u16,
    pub d0: u16,
    pub d1: u16,
}

// An offset whose top bit is set is a large number in the original: any from 4096 on makes the
// endpoint 0.
fn keep(d: u16, half: u16) -> u16
    ensures { (result ≡ kept d half) × (result ≤ 4096 + half) }
{
    if d < half { d } else { 4096 }
}

// One of the eight sub-modes.
#[derive(Clone, Copy, Debug, PartialEq, Eq, Hash)]
struct SubMode {
    number: u8,
    ghost one_of_eight: { number < 8 },
}

impl SubMode {
    #[tactic(auto, unfolding(crate::specs::Hdr11Laws::bases))]
    fn base_eleven(self, v: Values) -> u16
        ensures { (result ≡ get_or (bases v) self.number 0) × (up self.number result < 4096) }
    {
        let a = u16::from(v.v0) + u16::from(v.v1) / 64 % 2 * 256;
        let x2 = u16::from(v.v2) / 64 % 2;
        let x3 = u16::from(v.v3) / 64 % 2;
        let x4 = u16::from(v.v4) / 64 % 2;
        let y4 = u16::from(v.v4) / 32 % 2;
        let y5 = u16::from(v.v5) / 32 % 2;
        match self.number {
            2 => a + x2 * 512,
            3 => a + x4 * 512,
            4 => a + y4 * 512 + y5 * 1024,
            5 => a + x2 * 512 + x3 * 1024,
            6 => a + y4 * 512 + y5 * 1024 + x4 * 2048,
            7 => a + x2 * 512 + x3 * 1024 + x4 * 2048,
            _ => a,
        }
    }

    // The difference from byte x, whose high bit some modes take from byte y.
    #[tactic(auto, unfolding(crate::specs::Hdr11Laws::differences))]
    fn difference(self, x: u8, y: u8) -> u16
        ensures { (result ≡ get_or (differences x y) self.number 0) × (result < 256) }
    {
        let w = u16::from(x);
        match self.number {
            0 | 3 | 6 => w % 128,
            1 | 4 => w % 128 + u16::from(y) / 64 % 2 * 128,
            _ => w % 64,
        }
    }

    #[tactic(auto, unfolding(crate::specs::Hdr11Laws::commons))]
    fn common(self, v: Values) -> u16
        ensures { (result ≡ get_or (commons v) self.number 0) × (result < 256) }
    {
        let c = u16::from(v.v1) % 64;
        let x5 = u16::from(v.v5) / 64 % 2 * 64;
        match self.number {
            2 => c + u16::from(v.v3) / 64 % 2 * 64,
            3 | 6 | 7 => c + x5,
            5 => c + x5 + u16::from(v.v4) / 64 % 2 * 128,
            _ => c,
        }
    }

    #[tactic(auto, unfolding(crate::specs::Hdr11Laws::offsets))]
    fn offset(self, x: u8) -> u16
        ensures { (result ≡ get_or (offsets x) self.number 0) × (result ≤ 4160) }
    {
        let w = u16::from(x);
        match self.number {
            0 | 2 => keep(w % 128, 64),
            4 | 6 => keep(w % 32, 16),
            _ => keep(w % 64, 32),
        }
    }

    // What the numbers of the sub-mode are multiplied by: 2^(3 - number/2).
    fn scale(self) -> u16
        ensures { (result ≡ 2 ^ (3 - self.number / 2)) × (result ≤ 8) }
    {
        match self.number / 2 {
            0 => 8,
            1 => 4,
            2 => 2,
            _ => 1,
        }
    }
}

#[tactic(auto, unfolding(crate::specs::Hdr11Laws::eleven_of))]
pub fn parts_of_eleven(mode: u8, v: Values) -> Eleven
    requires { mode < 8 }
    ensures { (result ≡ eleven_of mode v) × (ElevenBounds result) }
{
    let m = SubMode { number: mode };
    let by = m.scale();
    Eleven {
        a: m.base_eleven(v) * by,
        b0: m.difference(v.v2, v.v4) * by,
        b1: m.difference(v.v3, v.v5) * by,
        c: m.common(v) * by,
        d0: m.offset(v.v4) * by,
        d1: m.offset(v.v5) * by,
    }
}
