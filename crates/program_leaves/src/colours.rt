// Answers on the endpoints of partitions. Bounds are tested by pairs of `<=`: with `contains` the
// proof did not get its facts from the tests.
ghost use Rattle.std.specs.Prelude.{◌≡◌, ℕ, ◌≤◌, ◌<◌, get_or};
ghost use Rattle.endpoints.specs.Endpoints.{count_to};

use crate::{frame, sequences};
use bits::Block;
use endpoints_colours::Endpoints;

fn put_end(out: &mut [u8; 288], i: usize, channels: [u16; 4])
    requires { i < 280 }
{
    for (k, channel) in channels.into_iter().enumerate() {
        frame::put_u16(out, i + 2 * k, channel);
    }
}

fn put_endpoints(out: &mut [u8; 288], i: usize, e: Endpoints)
    requires { i < 270 }
{
    put_end(out, i, [e.r0, e.g0, e.b0, e.a0]);
    put_end(out, i + 8, [e.r1, e.g1, e.b1, e.a1]);
    out[i + 16] = e.color as u8;
    out[i + 17] = e.alpha as u8;
}

// The values that the modes of the first partitions take. The functions of the layers for these and
// for the offset are private to their crates, endpoints and params_low.
fn count_to(modes: [u8; 4], parts: usize) -> usize
    requires { parts ≤ 4 }
    ensures { result ≡ count_to modes parts }
{
    let mut n = 0;
    for i in 0..parts {
        n += 2 * (usize::from(modes[i]) / 4 + 1);
    }
    n
}

// Where the endpoints of a block start.
fn offset_of(parts: usize) -> usize
    ensures { result ≤ 128 }
{
    if parts == 1 { 17 } else { 29 }
}

// The parts, modes and range go on through two functions, the second with the values counted and known
// to be few: a type for them would be no plainer, since it has other facts in each.
fn put_partitions(out: &mut [u8; 288], parts: usize, modes: [u8; 4], q: usize, n: usize, b: Block)
    requires { ((1 ≤ parts) × (parts ≤ 4)) × (((i : ℕ) → get_or modes i 0 < 16) ×
        ((n ≡ count_to modes parts) × ((n ≤ 18) × ((4 ≤ q) × (q < 21))))) }
{
    let seq = sequences::values_of(b, q, n, offset_of(parts));
    let mut ev = [0u8; 32];
    endpoints_unquantise::unquantize(&mut ev, n, q, &seq);
    let ends = endpoints::decode_endpoints(parts, modes, &ev);
    for (i, e) in ends.into_iter().enumerate() {
        put_endpoints(out, 18 * i, e);
    }
}

fn put_modes(out: &mut [u8; 288], parts: usize, modes: [u8; 4], q: usize, b: Block)
    requires { ((1 ≤ parts) × (parts ≤ 4)) ×
        (((i : ℕ) → get_or modes i 0 < 16) × ((4 ≤ q) × (q < 21))) }
{
    let n = count_to(modes, parts);
    if n <= 18 {
        put_partitions(out, parts, modes, q, n, b);
    }
}

// A number of a request as a mode.
fn mode_at(ask: &[u8; 32], i: usize) -> u8
    requires { i < 32 }
    ensures { result < 16 }
{
    ask[i] % 16
}

// Answers with the endpoints of up to four partitions, from values of range q.
pub(crate) fn reply_endpoints(out: &mut [u8; 288], ask: &[u8; 32]) {
    let parts = frame::at(ask, 1);
    let q = frame::at(ask, 6);
    let modes = [
        mode_at(ask, 2),
        mode_at(ask, 3),
        mode_at(ask, 4),
        mode_at(ask, 5),
    ];
    if 1 <= parts && parts <= 4 && 4 <= q && q <= 20 {
        put_modes(out, parts, modes, q, frame::block_of(ask));
    }
}
