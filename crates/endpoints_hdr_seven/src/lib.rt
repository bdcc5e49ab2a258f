// The numbers of which endpoint mode 7 makes its colours, put together from the values' bits.
#![tactic(auto)]

ghost use Rattle.std.specs.Prelude.{◌≡◌, ◌*◌, ◌<◌};
ghost use Rattle.endpoints_rules.specs.Hdr.{seven_of};
ghost use Rattle.endpoints_hdr_seven.specs.HdrLaws.{Below, seven_by};

use endpoints_rules::Seven;

fn seven_by(r: u16, g: u16, b: u16, s: u16, by: u16) -> Seven
    requires { (r * by < 4096) × (g * by < 4096) × (b * by < 4096) × (s * by < 4096) }
    ensures { (result ≡ seven_by r g b s by) × (Below 4096 result) }
{
    Seven {
        r: r * by,
        g: g * by,
        b: b * by,
        s: s * by,
    }
}

// The numbers of sub-mode 0 to 5. A sub-mode is the standard's number, read from bits, as the
// definition `seven_of` takes it.
pub fn parts_of_seven(mode: u8, v0: u8, v1: u8, v2: u8, v3: u8) -> Seven
    requires { mode < 6 }
    ensures { (result ≡ seven_of mode v0 v1 v2 v3) × (Below 4096 result) }
{
    let r = u16::from(v0) % 64;
    let g = u16::from(v1);
    let b = u16::from(v2);
    let s = u16::from(v3);
    let x0 = g / 64 % 2;
    let x1 = g / 32 % 2;
    let x2 = b / 64 % 2;
    let x3 = b / 32 % 2;
    let x4 = s / 128;
    let x5 = s / 64 % 2;
    let x6 = s / 32 % 2;
    let red = r + x4 * 64 + x2 * 128;
    match mode {
        0 => seven_by(
            red + x1 * 256 + x0 * 512 + x3 * 1024,
            g % 32,
            b % 32,
            s % 128,
            2,
        ),
        1 => seven_by(
            red + x0 * 256 + x6 * 512 + x5 * 1024,
            g % 64,
            b % 64,
            s % 32,
            2,
        ),
        2 => seven_by(
            r + x3 * 64 + x2 * 128 + x1 * 256 + x0 * 512,
            g % 32,
            b % 32,
            s,
            4,
        ),
        3 => seven_by(red + x0 * 256, g % 64, b % 64, s % 128, 8),
        4 => seven_by(r + x4 * 64 + x5 * 128, g % 128, b % 128, s % 64, 16),
        _ => seven_by(r + x4 * 64, g % 128, b % 128, s % 128, 32),
    }
}
