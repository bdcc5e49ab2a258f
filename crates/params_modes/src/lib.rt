// The endpoint modes of a block's partitions, by the base and the mode bits that stand in the
// block, and the values that they take.
#![tactic(auto)]

ghost use Rattle.std.specs.Prelude.{◌≡◌, ◌≤◌, ◌<◌};
ghost use Rattle.params_modes.specs.Modes.{class_in, mode_in, mode_at, modes_of, values_to};
ghost use Rattle.params_modes.specs.ModeLaws.{Coded};

// The modes as they stand in a block: its partitions, the base, and the mode bits as one number.
// The base is a number, 0 where one mode serves all partitions, as the definitions `class_in` and
// `mode_in` take it.
#[derive(Clone, Copy, Debug, PartialEq, Eq, Hash)]
pub struct Modes {
    pub parts: usize,
    pub base: usize,
    pub code: usize,
    pub ghost few: { parts ≤ 4 },
    pub ghost coded: { Coded base code },
}

// The class of partition i's mode: a quarter of it, rounded down. A partition goes by its number,
// which is also its place in the array of modes, and each function asks that it is below 4: the
// definitions speak of the number.
fn class_of(m: Modes, i: usize) -> usize
    requires { i < 4 }
    ensures { (result ≡ class_in m.base m.code i) × (result ≤ 3) }
{
    if m.base == 0 {
        m.code / 4
    } else {
        m.base - 1 + (m.code >> i) % 2
    }
}

fn mode_of(m: Modes, i: usize) -> usize
    requires { i < 4 }
    ensures { (result ≡ mode_in m.parts m.base m.code i) × (result < 16) }
{
    if m.base == 0 {
        return m.code;
    }
    4 * class_of(m, i) + (m.code >> (m.parts + 2 * i)) % 4
}

fn mode_at(m: Modes, i: usize) -> u8
    requires { i < 4 }
    ensures { result ≡ mode_at m.parts m.base m.code i }
{
    if i < m.parts { mode_of(m, i) as u8 } else { 0 }
}

// The modes of all partitions; where there is no partition, 0. A loop over the four, or a closure
// for `array::from_fn`, would be no plainer than four calls.
pub fn modes_of(m: Modes) -> [u8; 4]
    ensures { result ≡ modes_of m.parts m.base m.code }
{
    [mode_at(m, 0), mode_at(m, 1), mode_at(m, 2), mode_at(m, 3)]
}

// The endpoint values of all partitions. A sum over a mapped range would be no plainer: its closure
// would need a contract of its own, and a bound so that the sum fits.
pub fn values_of(m: Modes) -> usize
    ensures { result ≡ values_to m.base m.code m.parts }
{
    let mut n = 0;
    for i in 0..m.parts {
        n += 2 * (class_of(m, i) + 1);
    }
    n
}
