// A line of text that is laid out piece by piece: bytes, and numbers in decimal.
#![tactic(auto)]

ghost use Rattle.std.specs.Prelude.{◌≡◌, ◌+◌, ◌≤◌, length};
ghost use Rattle.program_text.specs.Text.{decimal, count_line, Placed};

// The numbers of the standard streams, which the kit's io takes as they are.
pub const STDIN: i32 = 0;

pub const STDOUT: i32 = 1;

pub const STDERR: i32 = 2;

// Puts a text into the line at a place, and gives the place after it.
pub fn put_text(line: &mut [u8], at: usize, text: &[u8]) -> usize
    requires { at + length text.now ≤ length line.old }
    ensures { Placed line.old at text.now line.new result }
{
    let after = at + text.len();
    line[at..after].copy_from_slice(text);
    after
}

// Puts a number's decimal digits into the line at a place, and gives the place after them.
pub fn put_number(line: &mut [u8], at: usize, n: u64) -> usize
    requires { at + 20 ≤ length line.old }
    ensures placed { Placed line.old at (decimal n) line.new result }
    ensures upper_bound { result ≤ at + 20 }
{
    let mut digits = [0u8; 20];
    let count = io::decimal(n, &mut digits);
    put_text(line, at, &digits[..count])
}

// Lays out a line of a label and a count, and gives its length.
pub fn lay_out_count(line: &mut [u8], label: &[u8], count: usize) -> usize
    requires { length label.now + 21 ≤ length line.old }
    ensures placed { Placed line.old 0 (count_line label.now count)
        line.new result }
    ensures upper_bound { result ≤ length line.old }
{
    let start = put_text(line, 0, label);
    let after = put_number(line, start, count as u64);
    put_text(line, after, b"\n")
}

// Writes a line of a label and a count to the output, and gives its length.
pub fn print_count(label: &[u8], count: usize) -> usize
    requires { length label.now ≤ 43 }
    ensures { result ≡ length (count_line label.now count) }
{
    let mut line = [0u8; 64];
    let end = lay_out_count(&mut line, label, count);
    io::write_all(STDOUT, &line[..end]);
    end
}
