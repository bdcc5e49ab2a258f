// Answers requests for the values of the layers, so that the Rust side can hold them to the
// original. A request is 32 bytes: what is asked for, up to fifteen numbers, and a block. An answer
// is 288 bytes; what a request does not fill is 0, and so is all of it where the numbers are out of
// bounds.
#![tactic(auto)]

mod colours;
mod frame;
mod grids;
mod numbers;
mod parameters;
mod sequences;

use program_text::{STDIN, STDOUT};

// What is asked for is a number, as the Rust side writes it.
fn reply(out: &mut [u8; 288], ask: &[u8; 32]) {
    match ask[0] {
        1 => sequences::reply_bits(out, ask),
        2 => sequences::reply_tables(out, ask),
        3 => sequences::reply_sequence(out, ask),
        4 => numbers::reply_halves(out, ask),
        5 => parameters::reply_params(out, ask),
        6 => colours::reply_endpoints(out, ask),
        7 => grids::reply_weights(out, ask),
        8 => grids::reply_partition(out, ask),
        9 => numbers::reply_blend(out, ask),
        10 => numbers::reply_color(out, ask),
        _ => {}
    }
}

// Answers one request, and says whether there was one.
fn answer() -> bool {
    let mut ask = [0u8; 32];
    if io::read_full(STDIN, &mut ask) < 32 {
        return false;
    }
    let mut out = [0u8; 288];
    reply(&mut out, &ask);
    io::write_all(STDOUT, &out)
}

// A proved loop has to end, and nothing says that the requests do: it has more turns than any run
// uses.
fn main() {
    for _ in 0..u64::MAX {
        if !answer() {
            break;
        }
    }
}
