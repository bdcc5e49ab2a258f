// How the values of a sequence are packed: plain, with trits or with quints.
ghost use Rattle.std.specs.Prelude.{◌≡◌, List, ℕ, ◌+◌, ◌*◌, ◌/◌, ◌^◌, ◌≤◌, ◌<◌, replicate};
ghost use Rattle.laws.specs.Lists.{put};
ghost use Rattle.std.proofs.Common.{lit<, lit≤};
ghost use Rattle.bits.specs.Blocks.{value_of};
ghost use Rattle.bits.specs.declared.Block.{Block};
ghost use Rattle.sequence_ranges.specs.Ranges.{range, most};
ghost use Rattle.sequence_ranges.specs.declared.Kind.{Kind};
ghost use Rattle.sequence_groups.specs.Sequence.{values_of, group_from};
ghost use Rattle.sequence_groups.specs.TurnLaws.{Turned};
ghost use Rattle.sequence_plain.specs.Plain.{plain_from};
ghost use Rattle.sequence_values.specs.PackingLaws.{plain-below, trits-below, quints-below, plain-turn, trits-turn, quints-turn, plain-none, trits-none, quints-none};

// How values of b bits each are packed in groups.
pub(crate) trait Packing {
    // How many values are put at a time: those of a group, or six plain ones.
    const VALUES: usize;

    ghost VALUES: { ℕ };

    ghost kind: { Kind };

    // The bits that so many values take, of b plain bits each.
    ghost bits: { ℕ → ℕ };

    // What stands at place k of the output once the group d is put from place i on.
    ghost from: { ℕ → ℕ → ℕ → ℕ → ℕ };

    fn size(b: usize) -> usize
        requires { b ≤ most kind }
        ensures { result ≡ bits b };

    // Puts the values at the low end of d to the places from i on.
    fn put(out: &mut [u8; 72], i: usize, b: usize, d: u64)
        requires place { i ≤ 64 }
        requires legal { b ≤ most kind }
        ensures { out.new ≡ put (from b d i) i (i + VALUES) out.old };

    ghost few: { (0 < VALUES) × (VALUES ≤ 6) };

    // A word has more bits.
    ghost below: { (b : ℕ) → b ≤ most kind → bits b < 64 };

    // A group is put and its bits are skipped: the values before the next are in their places.
    ghost turn: { (b w n i : ℕ) (s t : Block) (xs ys : List ℕ) → i < n → b ≤ most kind →
        Turned (range kind b) w n i (value_of s) xs → ys ≡ put (from b s.lo i) i (i + VALUES) xs →
        value_of t ≡ value_of s / 2 ^ bits b → Turned (range kind b) w n (i + VALUES) (value_of t) ys };

    // Values of no bits are 0.
    ghost none: { (b w n : ℕ) → b ≤ most kind → bits b ≡ 0 →
        replicate 72 0 ≡ values_of (range kind b) w n };
}

pub(crate) struct Plain;

impl Packing for Plain {
    const VALUES: usize = 6;

    ghost VALUES = { 6 };

    ghost kind = { Kind.Plain };

    ghost bits = { λ b. 6 * b };

    ghost from = { plain_from };

    ghost few = { (lit< tt, lit≤ tt) };

    ghost below = { plain-below };

    ghost turn = { plain-turn };

    ghost none = { plain-none };

    fn size(b: usize) -> usize {
        6 * b
    }

    fn put(out: &mut [u8; 72], i: usize, b: usize, d: u64) {
        sequence_plain::put_plain(out, i, b, d)
    }
}

pub(crate) struct Trits;

impl Packing for Trits {
    const VALUES: usize = 5;

    ghost VALUES = { 5 };

    ghost kind = { Kind.Trits };

    ghost bits = { λ b. 5 * b + 8 };

    ghost from = { λ b. group_from (range Kind.Trits b) };

    ghost few = { (lit< tt, lit≤ tt) };

    ghost below = { trits-below };

    ghost turn = { trits-turn };

    ghost none = { trits-none };

    fn size(b: usize) -> usize {
        5 * b + 8
    }

    fn put(out: &mut [u8; 72], i: usize, b: usize, d: u64) {
        sequence_groups::put_trits(out, i, b, d)
    }
}

pub(crate) struct Quints;

impl Packing for Quints {
    const VALUES: usize = 3;

    ghost VALUES = { 3 };

    ghost kind = { Kind.Quints };

    ghost bits = { λ b. 3 * b + 7 };

    ghost from = { λ b. group_from (range Kind.Quints b) };

    ghost few = { (lit< tt, lit≤ tt) };

    ghost below = { quints-below };

    ghost turn = { quints-turn };

    ghost none = { quints-none };

    fn size(b: usize) -> usize {
        3 * b + 7
    }

    fn put(out: &mut [u8; 72], i: usize, b: usize, d: u64) {
        sequence_groups::put_quints(out, i, b, d)
    }
}
