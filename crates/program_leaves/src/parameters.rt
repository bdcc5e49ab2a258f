// Answers on the parameters of a block.
use crate::frame;
use answers::Verdict;
use params::Params;
use params_config::Config;
use params_map::BlockMap;

fn put_config(out: &mut [u8; 288], k: Config) {
    frame::put(out, 1, k.width);
    frame::put(out, 2, k.height);
    frame::put(out, 3, k.weight_range);
    frame::put(out, 4, k.planes);
    frame::put(out, 5, k.parts);
    frame::put(out, 6, k.values);
    frame::put(out, 7, k.low_len);
    frame::put(out, 8, k.mode_bits);
    frame::put(out, 9, k.weight_len);
}

fn put_params(out: &mut [u8; 288], p: Params) {
    let k = p.config;
    frame::put(out, 0, p.answer);
    put_config(out, k);
    frame::put(out, 10, p.channel);
    frame::put_bytes(out, 11, &p.modes);
    frame::put_u16(out, 15, (k.number % 65536) as u16);
    frame::put(out, 17, p.endpoint_range);
}

fn put_map(out: &mut [u8; 288], m: BlockMap) {
    frame::put(out, 18, m.top);
    frame::put(out, 19, m.low_len);
    frame::put(out, 20, m.end_at);
    frame::put(out, 21, m.end_len);
    frame::put(out, 22, m.extra_at);
    frame::put(out, 23, m.extra_len);
    frame::put(out, 24, m.weight_at);
    frame::put(out, 25, m.weight_len);
}

// Answers with the parameters of the block at a footprint, and with whether that footprint is
// listed.
pub(crate) fn reply_params(out: &mut [u8; 288], ask: &[u8; 32]) {
    let f = frame::footprint_at(ask, 1);
    let b = frame::block_of(ask);
    frame::put(out, 26, usize::from(footprint::is_listed(f)));
    if params_low::is_void(b) {
        frame::put(out, 0, usize::from(Verdict::VoidExtent));
        return;
    }
    put_params(out, params::decode_block_params(b, f));
    put_map(out, params_map::decode_block_map(b, f));
}
