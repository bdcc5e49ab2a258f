// An image painted whole, or in steps by a cursor.
#![tactic(auto)]

ghost use Rattle.std.specs.Prelude.{◌≡◌, ◌+◌, ◌^◌, ◌<◌, length};
ghost use Rattle.answers.specs.Results.{refusal_number, refused};
ghost use Rattle.image_shape.specs.Shapes.{refusal_of};
ghost use Rattle.image.specs.Image.{image_of, refused_at, moved_by, step_of, stepped};

use answers::{Refusal, Verdict};
use image_shape::Shape;

// An image on its way: the blocks before `next` are painted.
#[derive(Clone, Copy, Debug, PartialEq, Eq, Hash)]
pub struct Cursor {
    pub shape: Shape,
    pub next: usize,
}

// What a step comes to: its answer, the cursor for the next one, the blocks painted, and how many
// of them break a rule. The answer is a number because the definition step_of has it so.
#[derive(Clone, Copy, Debug, PartialEq, Eq, Hash)]
pub struct Step {
    pub answer: usize,
    pub cursor: Cursor,
    pub painted: usize,
    pub bad: usize,
}

fn refused(c: Cursor, refusal: Refusal) -> Step
    ensures { result ≡ refused_at c (refusal_number refusal) }
{
    Step {
        answer: usize::from(refusal),
        cursor: c,
        painted: 0,
        bad: 0,
    }
}

// An accepted step of n blocks.
fn moved(c: Cursor, n: usize, bad: usize) -> Step
    requires { c.next + n < 2 ^ 64 }
    ensures { result ≡ moved_by c n bad }
{
    Step {
        answer: usize::from(Verdict::Legal),
        cursor: Cursor {
            next: c.next + n,
            ..c
        },
        painted: n,
        bad,
    }
}

// Paints the image of its blocks' bytes; a refusal leaves the output as it was.
pub fn decode_astc(data: &[u8], m: Shape, out: &mut [u32]) -> Result<(), Refusal>
    ensures value { refused result ≡ refusal_of m (length «data».now) (length out.old) }
    ensures out_after { out.new ≡ image_of «data».now m out.old }
{
    let bounded = image_shape::refusal(m, data.len(), out.len())?;
    let end = image_shape::total(bounded);
    image_blocks::paint_blocks(data, bounded, 0, end, out);
    Ok(())
}

impl Cursor {
    // Paints the next blocks, as many as are asked for or are left. A refused step hands the cursor
    // back as given.
    pub fn step(self, data: &[u8], blocks: usize, out: &mut [u32]) -> Step
        ensures value { result ≡
            step_of «data».now self blocks (length out.old) }
        ensures out_after { out.new ≡
            stepped «data».now self blocks out.old }
    {
        let next = self.next;
        let checked = image_shape::step_refusal(self.shape, next, data.len(), blocks, out.len());
        match checked {
            Ok(bounded) => {
                let end = image_shape::total(bounded);
                let n = blocks.min(end - next);
                let bad = image_blocks::paint_blocks(data, bounded, next, next + n, out);
                moved(self, n, bad)
            }
            Err(refusal) => refused(self, refusal),
        }
    }
}
