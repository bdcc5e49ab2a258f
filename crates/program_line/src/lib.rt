// The line of a listed block: its number, its answer, and its first texel's colour where the block
// was painted.
#![tactic(auto)]

ghost use Rattle.std.specs.Prelude.{◌+◌, ◌≤◌, length};
ghost use Rattle.program_text.specs.Text.{Placed};
ghost use Rattle.program_line.specs.Line.{field_of, colour_of, line_of};

use answers::Refusal;

// Puts a space and a number into the line.
fn put_field(line: &mut [u8], at: usize, n: u64) -> usize
    requires { at + 21 ≤ length line.old }
    ensures placed { Placed line.old at (field_of n) line.new result }
    ensures upper_bound { result ≤ at + 21 }
{
    let after = program_text::put_text(line, at, b" ");
    program_text::put_number(line, after, n)
}

// Puts a word's red, green, blue and alpha into the line.
fn put_colour(line: &mut [u8], at: usize, word: u32) -> usize
    requires { at + 84 ≤ length line.old }
    ensures placed { Placed line.old at (colour_of word) line.new result }
    ensures upper_bound { result ≤ at + 84 }
{
    let [blue, green, red, alpha] = word.to_le_bytes();
    let after_red = put_field(line, at, u64::from(red));
    let after_green = put_field(line, after_red, u64::from(green));
    let after_blue = put_field(line, after_green, u64::from(blue));
    put_field(line, after_blue, u64::from(alpha))
}

// Lays out the line of a block by its number, its answer and its first texel's word, and gives the
// line's length. The answer is a number since `line_of` of the specs, which this promises, takes it so;
// the line may be any of at least 126 bytes, as promised.
pub fn lay_out(line: &mut [u8], number: u64, answer: usize, word: u32) -> usize
    requires { 126 ≤ length line.old }
    ensures placed { Placed line.old 0 (line_of number answer word) line.new
        result }
    ensures upper_bound { result ≤ 126 }
{
    let start = program_text::put_number(line, 0, number);
    let after = put_field(line, start, answer as u64);
    if answer < Refusal::BlockLength as usize {
        let end = put_colour(line, after, word);
        return program_text::put_text(line, end, b"\n");
    }
    program_text::put_text(line, after, b"\n")
}
