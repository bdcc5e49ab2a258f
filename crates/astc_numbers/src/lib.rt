// What C reads beside words: the map of a block as nine numbers, and where a step led as three.
#![tactic(auto)]

ghost use Rattle.std.specs.Prelude.{◌≡◌, ℕ, ◌≤◌, get_or, length};
ghost use Rattle.laws.specs.Lists.{put};
ghost use Rattle.footprint.specs.Footprints.{footprint};
ghost use Rattle.block_map.specs.Answer.{block_map};
ghost use Rattle.block_map.specs.AnswerLaws.{MapBounds};
ghost use Rattle.astc_numbers.specs.Numbers.{numbers_of, map_answer_in, map_in, led_to};

use answers::Refusal;
use footprint::Footprint;
use params_map::BlockMap;

fn numbers_of(m: BlockMap) -> [u32; 9]
    requires { MapBounds m }
    ensures { result ≡ numbers_of m }
{
    [
        m.top as u32,
        m.low_at as u32,
        m.low_len as u32,
        m.end_at as u32,
        m.end_len as u32,
        m.extra_at as u32,
        m.extra_len as u32,
        m.weight_at as u32,
        m.weight_len as u32,
    ]
}

// Puts nine numbers into the first places of out, one by one: with `copy_from_slice` they were stored
// twice, and the map of a void block took a third more time.
fn put_numbers(out: &mut [u32], n: &[u32; 9])
    requires { 9 ≤ length out.old }
    ensures { out.new ≡
        put (λ (k : ℕ). get_or n.now k 0) 0 9 out.old }
{
    for i in 0..9 {
        out[i] = n[i];
    }
}

// Puts the map of a block at the footprint bw by bh into the first nine places of `map`, and gives
// the answer by number, as the map's record has it.
pub fn put_map(block: &[u8], bw: usize, bh: usize, map: &mut [u32]) -> usize
    ensures value { result ≡
        map_answer_in (block_map block.now (footprint bw bh))
        (length map.old) }
    ensures map_after { map.new ≡
        map_in (block_map block.now (footprint bw bh)) map.old }
{
    let f = Footprint {
        width: bw,
        height: bh,
    };
    let m = block_map::block_map(block, f);
    if m.answer >= Refusal::BlockLength as usize {
        return m.answer;
    }
    if map.len() < 9 {
        return Refusal::OutputTooShort as usize;
    }
    put_numbers(map, &numbers_of(m));
    m.answer
}

// Puts a step's next block, the blocks painted and those of them that break a rule into the first
// three places of `moved`.
pub fn put_led(moved: &mut [u64], next: usize, painted: usize, bad: usize)
    requires { 3 ≤ length moved.old }
    ensures { moved.new ≡
        put (λ (k : ℕ). get_or (led_to next painted bad) k 0) 0 3 moved.old }
{
    moved[..3].copy_from_slice(&[next as u64, painted as u64, bad as u64]);
}
