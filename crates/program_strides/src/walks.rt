// Steps over one image, and what they came to.
ghost use Rattle.std.specs.Prelude.{◌≡◌};
ghost use Rattle.program_strides.specs.Strides.{came_of};

use crate::Walk;
use program_compare::Came;

// The walk with one step more, of so many blocks.
fn walked(w: Walk, data: &[u8], blocks: usize, out: &mut [u32]) -> Walk {
    let before = w.cursor;
    let step = before.step(data, blocks, out);
    let cursor = step.cursor;
    Walk {
        moving: cursor.next != before.next,
        cursor,
        steps: program_counts::added(w.steps, 1),
        painted: program_counts::added(w.painted, step.painted),
        bad: program_counts::added(w.bad, step.bad),
        refused: program_counts::added(w.refused, program_counts::one_if(step.answer != 0)),
    }
}

// Steps through an image until the cursor stays where it is, or for so many turns.
pub(crate) fn walk_through(
    start: image::Cursor,
    data: &[u8],
    blocks: usize,
    turns: usize,
    out: &mut [u32],
) -> Walk {
    let mut w = Walk {
        moving: true,
        cursor: start,
        steps: 0,
        painted: 0,
        bad: 0,
        refused: 0,
    };
    for _ in 0..turns {
        w = walked(w, data, blocks, out);
        if !w.moving {
            break;
        }
    }
    w
}

// What a walk came to, to be held to what it should.
pub(crate) fn came(w: Walk) -> Came
    ensures { result ≡ came_of w }
{
    Came {
        moving: w.moving,
        painted: w.painted,
        bad: w.bad,
        refused: w.refused,
    }
}
