// Decodes a stored list of blocks anew, and counts the records whose answer or words come out
// otherwise. A record of standard input is a footprint's width and height, the answer, the sixteen
// bytes of a block, and for each texel a word of four bytes, the low one first.
#![tactic(auto)]

ghost use Rattle.std.specs.Prelude.{◌≡◌};
ghost use Rattle.program_stored.specs.Stored.{answer_in};
ghost use Rattle.program_replay.specs.Replay.{footprint_in, replayed_in};

use footprint::{Footprint, TEXELS};
use program_compare::MARKER;
use program_stored::Tally;
use program_text::STDIN;

// The footprint of a record. The other programs that read one have these lines too: a function for all
// would be public, with a crate for two conversions.
fn footprint_of(head: &[u8; 19]) -> Footprint
    ensures { result ≡ footprint_in head.now }
{
    Footprint {
        width: usize::from(head[0]),
        height: usize::from(head[1]),
    }
}

// Why no whole record was read.
#[derive(Clone, Copy, Debug, PartialEq, Eq, Hash)]
pub enum NoRecord {
    Malformed,
    Missing,
}

// Reads the words of n texels.
fn read_words(stored: &mut [u8; 576], n: usize) -> Result<(), NoRecord> {
    if TEXELS < n {
        return Err(NoRecord::Malformed);
    }
    let size = 4 * n;
    if io::read_full(STDIN, &mut stored[..size]) < size {
        return Err(NoRecord::Malformed);
    }
    Ok(())
}

fn read_record(head: &mut [u8; 19], stored: &mut [u8; 576]) -> Result<(), NoRecord> {
    match io::read_full(STDIN, head) {
        0 => Err(NoRecord::Missing),
        1..19 => Err(NoRecord::Malformed),
        _ => read_words(stored, usize::from(head[0]) * usize::from(head[1])),
    }
}

// Decodes the block of a whole record anew and counts the record, and its stored answer among the
// answers.
fn replay_record(t: Tally, answers: &mut [usize; 256], head: &[u8; 19], stored: &[u8; 576]) -> Tally
    ensures value { result ≡ replayed_in t head.now stored.now }
    ensures answers_after { answers.new ≡ answer_in answers.old head.now }
{
    let mut words = [MARKER; TEXELS];
    let f = footprint_of(head);
    let h = &head[..];
    let answer = answers::answer_number(block::decode_astc_block(&h[3..19], f, &mut words));
    program_stored::count_record(t, answers, head, stored, answer, &words)
}

// Reads a record and counts it. Why the list ends is told by a flag, since `closed_at` of the specs,
// which `closed` promises, has it so.
fn replay(t: Tally, answers: &mut [usize; 256]) -> Tally {
    let mut head = [0u8; 19];
    let mut stored = [0u8; 576];
    match read_record(&mut head, &mut stored) {
        Ok(()) => replay_record(t, answers, &head, &stored),
        Err(why) => program_stored::closed(t, why == NoRecord::Malformed),
    }
}

// A proved loop has to end, and nothing says that the records do: it has more turns than any run
// uses.
fn replay_all(answers: &mut [usize; 256]) -> Tally {
    let mut t = Tally {
        running: true,
        ..Tally::default()
    };
    for _ in 0..u64::MAX {
        t = replay(t, answers);
        if !t.running {
            break;
        }
    }
    t
}

// Each label is written out, so that it is seen to have at most the 43 bytes that `print_count` asks
// for: a loop over labels would need that of all of them as a fact, and is no plainer.
fn print_answers(answers: &[usize; 256]) {
    program_text::print_count(b"answer 0: ", answers[0]);
    program_text::print_count(b"answer 1: ", answers[1]);
    program_text::print_count(b"answer 10: ", answers[10]);
    program_text::print_count(b"answer 11: ", answers[11]);
    program_text::print_count(b"answer 12: ", answers[12]);
    program_text::print_count(b"answer 13: ", answers[13]);
    program_text::print_count(b"answer 14: ", answers[14]);
    program_text::print_count(b"answer 15: ", answers[15]);
    program_text::print_count(b"answer 16: ", answers[16]);
}

fn main() {
    let mut answers = [0usize; 256];
    let t = replay_all(&mut answers);
    program_text::print_count(b"blocks ", t.blocks);
    print_answers(&answers);
    program_text::print_count(b"words ", t.words);
    program_text::print_count(b"different ", t.different);
    program_text::print_count(b"malformed ", t.malformed);
}
