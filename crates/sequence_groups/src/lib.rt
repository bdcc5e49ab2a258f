// One group of an integer sequence, five values with their trits or three with their quints, put
// into an output, and zeros after the last; and what a sequence of groups is.
#![tactic(auto)]

ghost use Rattle.std.specs.Prelude.{◌≡◌, ℕ, ◌+◌, ◌*◌, ◌%◌, ◌^◌, ◌≤◌};
ghost use Rattle.laws.specs.Lists.{put};
ghost use Rattle.sequence_ranges.specs.Ranges.{range};
ghost use Rattle.sequence_ranges.specs.Digits.{packed};
ghost use Rattle.sequence_groups.specs.Sequence.{digits_of, group_from};

use sequence_ranges::Kind;

// Groups with trits and with quints have a function each to put them and to find their digits: they
// differ in the number of values and in where the digits' bits stand, and one loop over a table of
// those places would be no plainer.

// The digits of a group of five. From its lowest bit upwards the group is m0 t0 m1 t1 m2 t2 m3 t3
// m4 t4. Each m has b bits; the t have 2, 2, 1, 2 and 1 bits, and put together they are the place
// of the digits in the table.
fn trit_digits(b: usize, d: u64) -> u64
    requires { b ≤ 6 }
    ensures { result ≡ packed (digits_of Kind.Trits b d) }
{
    let mut m = d >> b;
    let mut x = m % 4;
    m >>= b;
    x += m / 4 % 4 * 4;
    m >>= b;
    x += m / 16 % 2 * 16;
    m >>= b;
    x += m / 32 % 4 * 32;
    m >>= b;
    x += m / 128 % 2 * 128;
    u64::from(sequence_ranges::trits()[x as usize])
}

// The digits of a group of three. From its lowest bit upwards the group is m0 t0 m1 t1 m2 t2. Each
// m has b bits; the t have 3, 2 and 2 bits, and put together they are the place of the digits in
// the table.
fn quint_digits(b: usize, d: u64) -> u64
    requires { b ≤ 5 }
    ensures { result ≡ packed (digits_of Kind.Quints b d) }
{
    let mut m = d >> b;
    let mut x = m % 8;
    m >>= b;
    x += m / 8 % 4 * 8;
    m >>= b;
    x += m / 32 % 4 * 32;
    u64::from(sequence_ranges::quints()[x as usize])
}

// A value of a group: the lowest digit of e above the low b bits of d. The two parts share no bit,
// so that they are joined by a sum, as the definition of a value has it.
fn value(e: u64, d: u64, b: usize) -> u8
    requires { (b ≤ 8) × ((e % 8 + 1) * 2 ^ b ≤ 256) }
    ensures { result ≡ e % 8 * 2 ^ b + d % 2 ^ b }
{
    ((e % 8 << b) + d % (1 << b)) as u8
}

// Puts the five values of the group d, with their trits, to the places from i on. The place is a
// number that is asked to be at most 64, as docs/PROMISES.md has it: the five must fit in `out`.
pub fn put_trits(out: &mut [u8; 72], i: usize, b: usize, d: u64)
    requires { (i ≤ 64) × (b ≤ 6) }
    ensures { out.new ≡
        put (group_from (range Kind.Trits b) d i) i (i + 5) out.old }
{
    let e = trit_digits(b, d);
    let mut m = d;
    out[i] = value(e, m, b);
    m >>= b;
    out[i + 1] = value(e / 8, m / 4, b);
    m >>= b;
    out[i + 2] = value(e / 64, m / 16, b);
    m >>= b;
    out[i + 3] = value(e / 512, m / 32, b);
    m >>= b;
    out[i + 4] = value(e / 4096, m / 128, b);
}

// Puts the three values of the group d, with their quints, to the places from i on.
pub fn put_quints(out: &mut [u8; 72], i: usize, b: usize, d: u64)
    requires { (i ≤ 64) × (b ≤ 5) }
    ensures { out.new ≡
        put (group_from (range Kind.Quints b) d i) i (i + 3) out.old }
{
    let e = quint_digits(b, d);
    let mut m = d;
    out[i] = value(e, m, b);
    m >>= b;
    out[i + 1] = value(e / 8, m / 8, b);
    m >>= b;
    out[i + 2] = value(e / 64, m / 32, b);
}

// Puts five zeros after n values, since the last group may have written so far past them. It is one
// call of the library, and stays a function, since docs/PROMISES.md promises it.
pub fn clear(out: &mut [u8; 72], n: usize)
    requires { n ≤ 64 }
    ensures { out.new ≡ put (λ (k : ℕ). 0) n (n + 5) out.old }
{
    out[n..n + 5].fill(0);
}
