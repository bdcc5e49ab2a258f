// The range of a legal block's endpoint values: the widest for which the other fields leave room.
#![tactic(auto)]

ghost use Rattle.std.specs.Prelude.{◌≡◌, ◌-◌, ◌%◌, ◌≤◌, ◌<◌};
ghost use Rattle.params_room.specs.Room.{widest, end_range};
ghost use Rattle.params_room.specs.Closed.{Roomy, inverse_of, whole_bits};
ghost use Rattle.params_room.specs.RoomLaws.{LegalConfig};

use params_config::Config;

// What the low configuration says of a block that breaks no rule.
#[derive(Clone, Copy, Debug, PartialEq, Eq, Hash)]
pub struct Legal {
    pub config: Config,
    pub ghost legal: { LegalConfig config },
}

// 65536 / n, rounded up, for the counts n of 2, 4 and so on to 18.
const INVERSES: [usize; 9] = [32768, 16384, 10923, 8192, 6554, 5462, 4682, 4096, 3641];

// By this a division of a room by n is a product.
fn inverse(n: usize) -> usize
    requires { (n % 2 ≡ 0) × (2 ≤ n) × (n ≤ 18) }
    ensures { (result ≡ inverse_of n) × (result ≤ 32768) }
{
    INVERSES[n / 2 - 1]
}

// The whole bits of room that each of n values can have.
fn whole_bits(n: usize, room: usize) -> usize
    requires { Roomy n room }
    ensures { (result ≡ whole_bits n room) × ((2 ≤ result) × (result ≤ 64)) }
{
    room * inverse(n) / 65536
}

// The widest range whose n values fit room bits. With k whole bits a value, three ranges can be it:
// trits with k - 1 bits, quints with k - 2, and plain ones with k.
fn widest_range(n: usize, room: usize) -> usize
    requires { Roomy n room }
    ensures { (result ≡ widest 16 n (128 - room)) × (result < 21) }
{
    let k = whole_bits(n, room);
    if 8 <= k {
        return 20;
    }
    if (k - 1) * n + (n * 8 + 4) / 5 <= room {
        return 3 * k - 2;
    }
    if (k - 2) * n + (n * 7 + 2) / 3 <= room {
        return 3 * k - 3;
    }
    3 * k - 4
}

// The range of the endpoint values, by its number: the definitions `end_range` and `widest` speak
// of it.
pub fn end_range(k: Legal) -> usize
    ensures { (result ≡ end_range k.config) × (result < 21) }
{
    widest_range(k.config.values, 128 - params_rules::used_bits(k.config))
}
