// Paints images in steps of many sizes, and counts the runs that come out otherwise than the image
// painted whole.
#![tactic(auto)]

use crate::shapes::Start;
use answers::Refusal;
use program_compare::MARKER;

mod blocks;
mod shapes;
mod walks;

// How many blocks a step paints, in the runs over an image.
const STEP_SIZES: [usize; 7] = [1, 2, 3, 5, 7, 16, 100];

// The pixels of the largest image, of 40 by 32.
const MOST_PIXELS: usize = 1280;

// The bytes of the most blocks of an image, of 10 by 8.
const MOST_BYTES: usize = 1280;

// What the steps over an image came to so far, and whether the last one moved the cursor. That
// stands in a flag since `came_of` of the specs reads it there, for what the walk is held to.
#[derive(Clone, Copy, Debug, PartialEq, Eq, Hash)]
pub struct Walk {
    pub moving: bool,
    pub cursor: image::Cursor,
    pub steps: usize,
    pub painted: usize,
    pub bad: usize,
    pub refused: usize,
}

// What the images so far came to.
#[derive(Clone, Copy, Debug, PartialEq, Eq, Hash, Default)]
pub struct Tally {
    pub images: usize,
    pub runs: usize,
    pub steps: usize,
    pub painted: usize,
    pub bad: usize,
    pub words: usize,
    pub different: usize,
}

// The tally with a run in steps, whose words were all compared.
fn with_run(t: Tally, w: Walk, different: bool) -> Tally {
    Tally {
        runs: program_counts::added(t.runs, 1),
        steps: program_counts::added(t.steps, w.steps),
        painted: program_counts::added(t.painted, w.painted),
        bad: program_counts::added(t.bad, w.bad),
        words: program_counts::added(t.words, MOST_PIXELS),
        different: program_counts::added(t.different, program_counts::one_if(different)),
        ..t
    }
}

// The tally with an image painted whole. One that was refused, or changed words after its own,
// counts as a run that differs.
fn with_image(t: Tally, outcome: Result<(), Refusal>, stray: usize) -> Tally {
    Tally {
        images: program_counts::added(t.images, 1),
        different: program_counts::added(
            t.different,
            program_counts::one_if(outcome.is_err() || stray != 0),
        ),
        ..t
    }
}

// Paints an image in steps of so many blocks, and counts it. Each step but the last paints a block,
// so that two turns more than there are blocks are never used up. The bad blocks are counted once for
// the runs of all sizes; a type for them and the whole words would be made for this one call, and
// would be no plainer than the six parameters.
fn run(
    t: Tally,
    start: Start,
    data: &[u8],
    whole: &[u32; MOST_PIXELS],
    bad: usize,
    size: usize,
) -> Tally {
    let mut words = [MARKER; MOST_PIXELS];
    let blocks = shapes::blocks_of(start);
    let w = walks::walk_through(start.cursor, data, size, blocks + 2, &mut words);
    let found = program_compare::count_differences(&words, whole, shapes::pixels_of(start));
    with_run(
        t,
        w,
        program_compare::differs(walks::came(w), blocks, bad, found),
    )
}

// Paints an image in steps of each size.
fn run_all(t: Tally, start: Start, data: &[u8], whole: &[u32; MOST_PIXELS]) -> Tally {
    let m = start.cursor.shape;
    let bad = blocks::count_bad(data, m.footprint);
    let mut tally = t;
    for size in STEP_SIZES {
        tally = run(tally, start, data, whole, bad, size);
    }
    tally
}

// Paints an image whole, and then in steps.
fn compare(t: Tally, start: Start, data: &[u8]) -> Tally {
    let mut whole = [MARKER; MOST_PIXELS];
    let outcome = image::decode_astc(data, start.cursor.shape, &mut whole);
    let stray = program_compare::count_differences(&whole, &whole, shapes::pixels_of(start));
    run_all(with_image(t, outcome, stray), start, data, &whole)
}

// Image i of the fourteen footprints at six sizes.
fn image_at(t: Tally, i: usize) -> Tally {
    let mut data = [0u8; MOST_BYTES];
    blocks::fill(&mut data, i);
    let start = shapes::start_of(i / 6, i % 6);
    let size = 16 * shapes::blocks_of(start);
    compare(t, start, &data[..size])
}

fn all_images() -> Tally {
    let mut t = Tally::default();
    for i in 0..84 {
        t = image_at(t, i);
    }
    t
}

fn main() {
    let t = all_images();
    program_text::print_count(b"images ", t.images);
    program_text::print_count(b"runs in steps ", t.runs);
    program_text::print_count(b"steps ", t.steps);
    program_text::print_count(b"blocks painted ", t.painted);
    program_text::print_count(b"bad blocks ", t.bad);
    program_text::print_count(b"words compared ", t.words);
    program_text::print_count(b"different ", t.different);
}
