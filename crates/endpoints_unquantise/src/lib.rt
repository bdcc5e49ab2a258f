// Encoded endpoint values brought to bytes, in loops by closed forms of the standard's rules.
#![tactic(auto)]

ghost use Rattle.std.specs.Prelude.{◌≡◌, ℕ, ◌%◌, ◌≤◌, ◌<◌, get_or, replicate};
ghost use Rattle.laws.specs.Lists.{put};
ghost use Rattle.lanes.specs.Lanes.{eights};
ghost use Rattle.sequence_ranges.specs.Ranges.{range_of, levels};
ghost use Rattle.endpoints_unquantise.specs.Unquantised.{endpoint_values};
ghost use Rattle.endpoints_unquantise.specs.Closed.{flipped, unpacked, copied, Narrow, NarrowRepeat, Unpacks, Repeats};

// The rule by which a range of trits or quints becomes bytes. Value d * 2^bits + m, with x the bits
// of m above the lowest, is d * by + x * spread + (x >> over) before the lowest bit is brought in.
#[derive(Clone, Copy, Debug, PartialEq, Eq, Hash)]
pub struct Rule {
    pub bits: u16,
    pub by: u16,
    pub spread: u16,
    pub over: u16,
}

// The rule by which the bits of a plain value are repeated: v * spread + (v >> over).
#[derive(Clone, Copy, Debug, PartialEq, Eq, Hash)]
pub struct Repeat {
    pub spread: u16,
    pub over: u16,
}

impl Rule {
    fn new(bits: u16, by: u16, spread: u16, over: u16) -> Rule
        ensures { result ≡ record { bits = bits; by = by; spread = spread; over = over } }
    {
        Rule {
            bits,
            by,
            spread,
            over,
        }
    }
}

// The range of a sequence of endpoint values, by its number.
#[derive(Clone, Copy, Debug, PartialEq, Eq, Hash)]
struct Range {
    number: usize,
    ghost of_endpoints: { (4 ≤ number) × (number < 21) },
}

impl Range {
    fn trit_rule(self) -> Rule
        requires { self.number % 3 ≡ 1 }
        ensures { Unpacks self.number result }
    {
        match self.number {
            4 => Rule::new(1, 204, 0, 8),
            7 => Rule::new(2, 93, 278, 8),
            10 => Rule::new(3, 44, 133, 8),
            13 => Rule::new(4, 22, 65, 8),
            16 => Rule::new(5, 11, 32, 2),
            _ => Rule::new(6, 5, 16, 4),
        }
    }

    fn quint_rule(self) -> Rule
        requires { self.number % 3 ≡ 0 }
        ensures { Unpacks self.number result }
    {
        match self.number {
            6 => Rule::new(1, 113, 0, 8),
            9 => Rule::new(2, 54, 268, 8),
            12 => Rule::new(3, 26, 130, 1),
            15 => Rule::new(4, 13, 64, 1),
            _ => Rule::new(5, 6, 32, 3),
        }
    }

    fn rule_of(self) -> Rule
        requires { self.number % 3 ≡ 2 → ⊥ }
        ensures { Unpacks self.number result }
    {
        if self.number % 3 == 1 {
            self.trit_rule()
        } else {
            self.quint_rule()
        }
    }

    fn repeat_of(self) -> Repeat
        requires { self.number % 3 ≡ 2 }
        ensures { Repeats self.number result }
    {
        match self.number {
            5 => Repeat {
                spread: 36,
                over: 1,
            },
            8 => Repeat {
                spread: 17,
                over: 8,
            },
            11 => Repeat { spread: 8, over: 2 },
            14 => Repeat { spread: 4, over: 4 },
            17 => Repeat { spread: 2, over: 6 },
            _ => Repeat { spread: 1, over: 8 },
        }
    }
}

// x where v is even, and its complement where v is odd.
fn flip(v: u8, x: u8) -> u8
    ensures { result ≡ flipped v x }
{
    if v % 2 == 0 { x } else { 255 - x }
}

// A rule that makes a byte of each value, in numbers of 16 bits where it is narrow enough.
trait ByteRule: Copy {
    ghost narrow: { Self → Type 0 };

    ghost byte: { Self → ℕ → ℕ };

    fn byte(self, v: u8) -> u8
        requires { narrow self }
        ensures { result ≡ byte self v };
}

impl ByteRule for Rule {
    ghost narrow = { Narrow };

    ghost byte = { unpacked };

    fn byte(self, v: u8) -> u8 {
        let w = u16::from(v);
        let x = w % (1 << self.bits) / 2;
        let t = (w >> self.bits) * self.by + x * self.spread + (x >> self.over);
        flip(v, (t / 4 % 256) as u8)
    }
}

impl ByteRule for Repeat {
    ghost narrow = { NarrowRepeat };

    ghost byte = { copied };

    fn byte(self, v: u8) -> u8 {
        let w = u16::from(v);
        ((w * self.spread + (w >> self.over)) % 256) as u8
    }
}

// Puts the bytes of n values, and of zeros up to the next multiple of 8, so that the loop has no
// remainder.
fn put_all<R: ByteRule>(out: &mut [u8; 32], n: usize, rule: R, seq: &[u8; 72])
    requires few { n ≤ 18 }
    requires narrow { R.narrow rule }
    ensures { out.new ≡ put (λ (k : ℕ). R.byte rule (get_or seq.now k 0)) 0 (eights n) out.old }
{
    let m = lanes::eights(n);
    for i in 0..m {
        out[i] = rule.byte(seq[i]);
    }
}

// The first n values of a sequence of the range q, each as the byte that it stands for. The arrays
// are longer than n, since the loop fills eight places at a time.
pub fn unquantize(out: &mut [u8; 32], n: usize, q: usize, seq: &[u8; 72])
    requires out_value { out.old ≡ replicate 32 0 }
    requires n_bound { (n ≤ 18) × (4 ≤ q) × (q < 21) }
    requires by_index { (i : ℕ) → get_or seq.now i 0 < levels (range_of q) }
    requires by_index_2 { (i : ℕ) → n ≤ i → get_or seq.now i 0 ≡ 0 }
    ensures { out.new ≡ endpoint_values q seq.now }
{
    let range = Range { number: q };
    if q % 3 == 2 {
        put_all(out, n, range.repeat_of(), seq);
    } else {
        put_all(out, n, range.rule_of(), seq);
    }
}
