// What a stored record of a block is, and how it is counted: whether a decoder gives its answer and
// its words. Its head is a footprint's width and height, the answer, and the sixteen bytes of a
// block; for each texel a word of four bytes, the low one first, is stored after it. An answer is a
// number here, since `differs_from` and `record_in` of the specs, which the promises name, take it so.
#![tactic(auto)]

ghost use Rattle.std.specs.Prelude.{◌≡◌, ◌<◌};
ghost use Rattle.footprint.specs.Footprints.{most_texels};
ghost use Rattle.program_stored.specs.Stored.{word_at, stored_words, texels_of, differs_from, closed_at, counted_in, record_in, answer_in};

use footprint::TEXELS;

// The stored word of texel k.
fn word_at(stored: &[u8; 576], k: usize) -> u32
    requires { k < most_texels }
    ensures { result ≡ word_at stored.now k }
{
    let at = 4 * k;
    u32::from_le_bytes([stored[at], stored[at + 1], stored[at + 2], stored[at + 3]])
}

// The words that are stored, 0 after the last. They are read by the number of their texel, since
// `stored_words` of the specs puts them by that.
fn stored_words(stored: &[u8; 576]) -> [u32; TEXELS]
    ensures { result ≡ stored_words stored.now }
{
    let mut words = [0u32; TEXELS];
    for k in 0..TEXELS {
        words[k] = word_at(stored, k);
    }
    words
}

// The texels of a record's footprint.
fn texels(head: &[u8; 19]) -> usize
    ensures { result ≡ texels_of head.now }
{
    usize::from(head[0]) * usize::from(head[1])
}

// Whether a decoder gave another answer than is stored, or other words in any place.
fn differs(head: &[u8; 19], stored: &[u8; 576], answer: usize, words: &[u32; TEXELS]) -> bool
    ensures { result ≡
        differs_from head.now stored.now answer words.now }
{
    answer != usize::from(head[2])
        || program_compare::count_differences(words, &stored_words(stored), texels(head)) > 0
}

// What the records so far came to, and whether another may follow. That stands in a flag since
// `closed_at` and `counted_in` of the specs, which the promises name, write it there.
#[derive(Clone, Copy, Debug, PartialEq, Eq, Hash, Default)]
pub struct Tally {
    pub running: bool,
    pub blocks: usize,
    pub words: usize,
    pub different: usize,
    pub malformed: usize,
}

// The tally at the list's end, or at a malformed record: a flag, as `closed_at` of the specs takes it.
#[tactic(auto, unfolding(crate::specs::Stored::closed_at))]
pub fn closed(t: Tally, malformed: bool) -> Tally
    ensures { result ≡ closed_at t malformed }
{
    Tally {
        running: false,
        malformed: program_counts::added(t.malformed, program_counts::one_if(malformed)),
        ..t
    }
}

// The tally with a record of so many words.
#[tactic(auto, unfolding(crate::specs::Stored::counted_in))]
fn counted(t: Tally, words: usize, different: bool) -> Tally
    ensures { result ≡ counted_in t words different }
{
    Tally {
        running: true,
        blocks: program_counts::added(t.blocks, 1),
        words: program_counts::added(t.words, words),
        different: program_counts::added(t.different, program_counts::one_if(different)),
        ..t
    }
}

// Counts a whole record against a decoder's answer and words, and its stored answer among the
// answers.
pub fn count_record(
    t: Tally,
    answers: &mut [usize; 256],
    head: &[u8; 19],
    stored: &[u8; 576],
    answer: usize,
    words: &[u32; TEXELS],
) -> Tally
    ensures value { result ≡
        record_in t head.now stored.now answer words.now }
    ensures answers_after { answers.new ≡ answer_in answers.old head.now }
{
    let stored_answer = usize::from(head[2]);
    answers[stored_answer] = program_counts::added(answers[stored_answer], 1);
    counted(t, texels(head), differs(head, stored, answer, words))
}
