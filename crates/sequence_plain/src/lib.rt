// Six values of an integer sequence of plain bits, put into an output.
#![tactic(auto)]

ghost use Rattle.std.specs.Prelude.{◌≡◌, ◌+◌, ◌%◌, ◌^◌, ◌≤◌};
ghost use Rattle.laws.specs.Lists.{put};
ghost use Rattle.sequence_plain.specs.Plain.{plain_from};

// The low b bits of d. It is not `bits::low`, which serves 64 bits too and tests for them; here
// there are at most 8, and no test.
fn low(d: u64, b: usize) -> u8
    requires { b ≤ 8 }
    ensures { result ≡ d % 2 ^ b }
{
    (d % (1 << b)) as u8
}

// Puts the six lowest values of b bits in d to the places from i on.
pub fn put_plain(out: &mut [u8; 72], i: usize, b: usize, d: u64)
    requires { (i ≤ 64) × (b ≤ 8) }
    ensures { out.new ≡ put (plain_from b d i) i (i + 6) out.old }
{
    let mut m = d;
    out[i] = low(m, b);
    m >>= b;
    out[i + 1] = low(m, b);
    m >>= b;
    out[i + 2] = low(m, b);
    m >>= b;
    out[i + 3] = low(m, b);
    m >>= b;
    out[i + 4] = low(m, b);
    m >>= b;
    out[i + 5] = low(m, b);
}
