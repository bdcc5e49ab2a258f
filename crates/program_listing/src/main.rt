// Lists blocks: a line for each record of standard input, with its number, its answer and its first
// texel's colour. A record is 18 bytes: the width and height of a footprint, and a block. A short
// last one has the answer 20.
#![tactic(auto)]

ghost use Rattle.std.specs.Prelude.{◌≡◌, ◌≤◌, length};
ghost use Rattle.program_text.specs.Text.{Placed};
ghost use Rattle.program_listing.specs.Listing.{answer_in, words_in, record_line};

use answers::Refusal;
use footprint::{Footprint, TEXELS};
use program_text::{STDERR, STDIN, STDOUT};
use std::io::Read;

// Paints the words of the block in a record's bytes and gives its answer, by number as `answer_in` of
// the specs has it. The other programs that read a footprint have its lines too: a function for all
// would be public, with a crate for two conversions.
fn answer_of(bytes: &[u8], words: &mut [u32]) -> usize
    ensures value { result ≡ answer_in bytes.now (length words.old) }
    ensures words_after { words.new ≡ words_in bytes.now words.old }
{
    if bytes.len() != 18 {
        return usize::from(Refusal::BlockLength);
    }
    let f = Footprint {
        width: usize::from(bytes[0]),
        height: usize::from(bytes[1]),
    };
    answers::answer_number(block::decode_astc_block(&bytes[2..], f, words))
}

// Lays out the line of a record and gives its length. The line may be longer, as in `lay_out` of
// program_line.
fn lay_out_record(line: &mut [u8], number: u64, bytes: &[u8]) -> usize
    requires { 126 ≤ length line.old }
    ensures placed { Placed line.old 0 (record_line number bytes.now)
        line.new result }
    ensures upper_bound { result ≤ 126 }
{
    let mut words = [0u32; TEXELS];
    let answer = answer_of(bytes, &mut words);
    program_line::lay_out(line, number, answer, words[0])
}

// Says on the error output that the input cannot be read, where it ended for that: a further read
// tells.
fn report_end(rt: &HostRuntime) {
    let mut probe = [0u8; 1];
    if rt.stdin().read(&mut probe).is_err() {
        io::write_all(STDERR, b"listing: cannot read the records\n");
    }
}

// Writes a line, and says on the error output where that fails.
fn write_line(line: &[u8]) -> bool {
    if io::write_all(STDOUT, line) {
        return true;
    }
    io::write_all(STDERR, b"listing: cannot write the lines\n");
    false
}

// Lists the record of a number, and says whether another may follow it.
fn list(rt: &HostRuntime, number: u64) -> bool {
    let mut record = [0u8; 18];
    let got = io::read_full(STDIN, &mut record);
    if got == 0 {
        report_end(rt);
        return false;
    }
    let mut line = [0u8; 126];
    let end = lay_out_record(&mut line, number, &record[..got]);
    let is_written = write_line(&line[..end]);
    if got < 18 {
        report_end(rt);
        return false;
    }
    is_written
}

// A proved loop has to end, and nothing says that the input does: it would stop at a number that no
// run reaches.
fn main(rt: HostRuntime) {
    for number in 0..u64::MAX {
        if !list(&rt, number) {
            break;
        }
    }
}
