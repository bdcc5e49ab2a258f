// Counts of 64 bits.
#![tactic(auto)]

ghost use Rattle.std.specs.Prelude.{◌≡◌, cond, ◌≤◌};
ghost use Rattle.program_counts.specs.Counts.{more};

// A count with n more. Past the largest number it would stay at that, which no run reaches.
pub fn added(count: usize, n: usize) -> usize
    ensures { result ≡ more count n }
{
    count.saturating_add(n)
}

// What a test adds to a count of the tests that hold.
pub fn one_if(holds: bool) -> usize
    ensures { (result ≡ cond holds 1 0) × (result ≤ 1) }
{
    usize::from(holds)
}
