// Words and counts held to what they should be, for the programs that compare.
#![tactic(auto)]

ghost use Rattle.std.specs.Prelude.{◌≡◌, ◌<◌, length};
ghost use Rattle.program_compare.specs.Compare.{expected_at, differences, differs_from};

// What a word holds before it is painted, and keeps where it stands after the painted ones.
pub const MARKER: u32 = 0x0102_0304;

// What word k should hold where n words were painted, as `whole` has them.
fn expected(whole: &[u32], n: usize, k: usize) -> u32
    requires { k < length whole.now }
    ensures { result ≡ expected_at whole.now n k }
{
    if k < n { whole[k] } else { MARKER }
}

// How many of the words hold something else than they should where n words were painted, as `whole`
// has them. What a word should be depends on its place, so that a chain would number the words, pair,
// filter and count them: no plainer than the places one by one, as `differences` of the specs has them.
pub fn count_differences(words: &[u32], whole: &[u32], n: usize) -> usize
    requires { length words.now ≡ length whole.now }
    ensures { result ≡
        differences words.now whole.now n (length words.now) }
{
    let mut found = 0;
    for k in 0..words.len() {
        found += program_counts::one_if(words[k] != expected(whole, n, k));
    }
    found
}

// What a walk in steps came to: whether it still moved, the blocks painted, those that break a
// rule, and the steps refused. Whether it moved stands in a flag since `differs_from` of the specs,
// which `differs` promises, reads it there.
#[derive(Clone, Copy, Debug, PartialEq, Eq, Hash)]
pub struct Came {
    pub moving: bool,
    pub painted: usize,
    pub bad: usize,
    pub refused: usize,
}

// Whether a walk over an image of so many blocks, of which so many break a rule, left any other
// words or counts than it should.
#[tactic(auto, unfolding(crate::specs::Compare::differs_from))]
pub fn differs(w: Came, blocks: usize, bad: usize, found: usize) -> bool
    ensures { result ≡ differs_from w blocks bad found }
{
    w.moving || w.refused != 0 || w.painted != blocks || w.bad != bad || found != 0
}
