// The endpoints of a block's partitions, from their modes and the unquantised values.
#![tactic(auto)]

ghost use Rattle.std.specs.Prelude.{◌≡◌, ℕ, ◌≤◌, ◌<◌, get_or};
ghost use Rattle.endpoints_colours.specs.Marks.{is_hdr, marks_of};
ghost use Rattle.endpoints_rules.specs.Modes.{endpoints_of};
ghost use Rattle.endpoints.specs.Endpoints.{values_at, count_of, count_to, endpoints_list};

use endpoints_colours::{Endpoints, Values};

#[tactic(auto, unfolding(crate::specs::Endpoints::values_at))]
fn values_at(ev: &[u8; 32], k: usize) -> Values
    requires { k ≤ 24 }
    ensures { result ≡ values_at ev.now k }
{
    Values {
        v0: ev[k],
        v1: ev[k + 1],
        v2: ev[k + 2],
        v3: ev[k + 3],
        v4: ev[k + 4],
        v5: ev[k + 5],
        v6: ev[k + 6],
        v7: ev[k + 7],
    }
}

fn values_of(mode: u8) -> usize
    ensures { result ≡ count_of mode }
{
    2 * (usize::from(mode) / 4 + 1)
}

// Whether a mode makes HDR colours.
#[tactic(auto, unfolding(endpoints_colours::specs::Marks::marks_of, endpoints_colours::specs::Marks::marks_table))]
fn makes_hdr(mode: u8) -> bool
    requires { mode < 16 }
    ensures { result ≡ is_hdr (marks_of mode).color }
{
    matches!(mode, 2 | 3 | 7 | 11 | 14 | 15)
}

// The endpoints of a mode from its values. A mode is a number below 16, and no type of its own: it
// is a place in the standard's table, and docs/PROMISES.md has it as a number.
fn decode_mode(mode: u8, v: Values) -> Endpoints
    requires { mode < 16 }
    ensures { result ≡ endpoints_of mode v }
{
    if makes_hdr(mode) {
        endpoints_hdr_modes::decode_hdr(mode, v)
    } else {
        endpoints_ldr::decode_ldr(mode, v)
    }
}

// The endpoints of the first partitions, whose values stand one after the other. The arrays have
// room for four partitions, the most that a block has.
pub fn decode_endpoints(parts: usize, modes: [u8; 4], ev: &[u8; 32]) -> [Endpoints; 4]
    requires le_parts { (1 ≤ parts) × (parts ≤ 4) }
    requires by_index { (i : ℕ) → i < parts → get_or modes i 0 < 16 }
    requires parts_bound { count_to modes parts ≤ 18 }
    ensures { result ≡ endpoints_list parts modes ev.now }
{
    let mut out = [Endpoints::default(); 4];
    let mut k = 0;
    for i in 0..parts {
        let m = modes[i];
        out[i] = decode_mode(m, values_at(ev, k));
        k += values_of(m);
    }
    out
}
