// Encoded weights brought to 0..64, by their range.
#![tactic(auto)]

ghost use Rattle.std.specs.Prelude.{◌≡◌, ℕ, ◌+◌, ◌*◌, ◌/◌, ◌%◌, ◌≤◌, ◌<◌, get_or};
ghost use Rattle.weights_unquantise.specs.Unquantise.{raised, weight_of};
ghost use Rattle.weights_unquantise.specs.Forms.{each, plain_of, sum_of, turned, mixed_of};
ghost use Rattle.sequence_ranges.specs.Ranges.{range_of, levels};

use footprint::WEIGHTS;

// Adds one to a number above 32, so that weights reach 64. A sum with the test as a number would be no plainer.
fn raise(x: u16) -> u8
    requires { x < 64 }
    ensures { result ≡ raised x }
{
    if x < 33 { x as u8 } else { (x + 1) as u8 }
}

// Turns over the seven bits of t where `odd`, the lowest bit of a value, is 1.
fn turn(odd: u16, t: u16) -> u16
    requires { t ≤ 127 }
    ensures { (result ≡ turned odd t) × (result < 64) }
{
    if odd == 0 { t / 4 } else { 32 + (127 - t) / 4 }
}

// The weight of a value of plain bits: their repetition to six bits is a product and what is left
// over beside it.
fn plain(v: u8, by: u16, over: u16) -> u8
    requires { (v < 256) × (by ≤ 63) × (over ≤ 8) }
    ensures { result ≡ plain_of by over v }
{
    let x = u16::from(v);
    raise((x * by + (x >> over)) % 64)
}

// The digit of v times c, plus the bits of v above the lowest times `by`.
fn sum(v: u16, bits: u16, c: u16, by: u16) -> u16
    requires { (bits ≤ 3) × (sum_of bits c by v ≤ 127) }
    ensures { (result ≡ sum_of bits c by v) × (result ≤ 127) }
{
    (v >> bits) * c + v % (1 << bits) / 2 * by
}

// The weight of a value of trits or quints with bits. The product with `by` puts the bits above the
// lowest where the standard's pattern has them.
fn mixed(v: u8, bits: u16, c: u16, by: u16) -> u8
    requires { (bits ≤ 3) × (sum_of bits c by v ≤ 127) }
    ensures { result ≡ mixed_of bits c by v }
{
    let x = u16::from(v);
    raise(turn(x % 2, sum(x, bits, c, by)))
}

// Puts what `weight` makes of each of n values, to the next multiple of 8. It is compiled anew for
// each rule, whose numbers are then part of the loop. `texels_hdr::put_bytes` says why it is not one function with
// this one.
fn put_each<F: Fn(u8) -> u8>(out: &mut [u8; WEIGHTS], n: usize, seq: &[u8; 72], weight: F)
    requires few { n ≤ 64 }
    requires callable { (k : ℕ) → F.pre weight (get_or seq.now k 0) }
    ensures { (f : ℕ → ℕ) → ((k r : ℕ) → F.post weight (get_or seq.now k 0) r →
        r ≡ f (get_or seq.now k 0)) → out.new ≡ each f seq.now n out.old }
{
    for i in 0..lanes::eights(n) {
        out[i] = weight(seq[i]);
    }
}

// Puts the weight that each of n encoded values of range q stands for.
pub fn unquantize(out: &mut [u8; WEIGHTS], n: usize, q: usize, seq: &[u8; 72])
    requires { (n ≤ 64) × (q < 12) × ((k : ℕ) → get_or seq.now k 0 < levels (range_of q)) }
    ensures { out.new ≡ each (weight_of q) seq.now n out.old }
{
    match q {
        0 => put_each(out, n, seq, |v| plain(v, 63, 8)),
        1 => put_each(out, n, seq, |v| v * 32),
        2 => put_each(out, n, seq, |v| plain(v, 21, 8)),
        3 => put_each(out, n, seq, |v| v * 16),
        4 => put_each(out, n, seq, |v| mixed(v, 1, 50, 0)),
        5 => put_each(out, n, seq, |v| plain(v, 9, 8)),
        6 => put_each(out, n, seq, |v| mixed(v, 1, 28, 0)),
        7 => put_each(out, n, seq, |v| mixed(v, 2, 23, 69)),
        8 => put_each(out, n, seq, |v| plain(v, 4, 2)),
        9 => put_each(out, n, seq, |v| mixed(v, 2, 13, 66)),
        10 => put_each(out, n, seq, |v| mixed(v, 3, 11, 33)),
        _ => put_each(out, n, seq, |v| plain(v, 2, 4)),
    }
}
