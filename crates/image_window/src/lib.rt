// The window of a block in an image: where its pixels stand, copied from lanes or filled with one
// word.
#![tactic(auto)]

ghost use Rattle.std.specs.Prelude.{◌≡◌, ℕ, ◌+◌, ◌*◌, ◌≤◌, ◌<◌, length};
ghost use Rattle.lanes.specs.Lanes.{joined_at};
ghost use Rattle.image_shape.specs.Shapes.{across_of, down_of, pixels_of, texel_of};
ghost use Rattle.image_window.specs.Windows.{Inside, block_at, window_of, rows_put, RowsFit, marked, is_in};

use image_shape::Bounded;
use lanes::LANES;

// The first column of the blocks in column x.
fn left_of(m: Bounded, x: usize) -> usize
    requires { x < across_of m.shape }
    ensures { (result ≡ x * m.shape.footprint.width) × (result < m.shape.width) }
{
    x * m.shape.footprint.width
}

// The first row of the blocks in row y.
fn top_of(m: Bounded, y: usize) -> usize
    requires { y < down_of m.shape }
    ensures { (result ≡ y * m.shape.footprint.height) × (result < m.shape.height) }
{
    y * m.shape.footprint.height
}

// Where the pixels of row y from column x on stand.
fn place(m: Bounded, y: usize, x: usize) -> usize
    requires { (y < m.shape.height) × (x < m.shape.width) }
    ensures { result ≡ y * m.shape.width + x }
{
    y * m.shape.width + x
}

// Where a block's pixels stand: the place of the first, and how many columns and rows of them lie
// in the image.
#[derive(Clone, Copy, Debug, PartialEq, Eq, Hash)]
pub struct Window {
    pub at: usize,
    pub columns: usize,
    pub rows: usize,
}

// The window of the block in column x and row y. The three functions that take such a block take its
// column and row bare: a type with the fact that they are inside would need a proof of it wherever
// image_blocks makes one, which is at each of its calls, and a spot there has the block's number too.
fn window_of(m: Bounded, x: usize, y: usize) -> Window
    requires { Inside m.shape x y }
    ensures { result ≡ window_of m.shape (block_at m.shape x y) }
{
    let left = left_of(m, x);
    let top = top_of(m, y);
    let s = m.shape;
    Window {
        at: place(m, top, left),
        columns: s.footprint.width.min(s.width - left),
        rows: s.footprint.height.min(s.height - top),
    }
}

// Puts a word of its own, by row and column, into each of the first n places of each row of a window
// of out, whose rows start `width` apart. The n is beside the window, so that a caller can give it as
// a number that the compiler knows.
fn put_rows<F: Fn(usize, usize) -> u32>(word: F, out: &mut [u32], w: Window, width: usize, n: usize)
    ghost word_of: { ℕ → ℕ → ℕ }
    requires fit { RowsFit w.at width n w.rows (length out.old) }
    requires words { (y x : ℕ) → y < w.rows → x < n → (F.pre word y x) × ((r : ℕ) → F.post word y x r → r ≡ word_of y x) }
    ensures { out.new ≡ rows_put word_of w.at width n w.rows out.old }
{
    for r in 0..w.rows {
        let start = w.at + r * width;
        for i in 0..n {
            out[start + i] = word(r, i);
        }
    }
}

// Copies the words of the block in column x and row y to its pixels, as far as it lies in the
// image.
pub fn copy_block(lanes: &[u16; LANES], m: Bounded, x: usize, y: usize, out: &mut [u32])
    requires { (Inside m.shape x y) × (pixels_of m.shape ≤ length out.old) }
    ensures { out.new ≡
        marked (is_in m.shape (block_at m.shape x y) (block_at m.shape x y + 1))
        (λ (k : ℕ). joined_at lanes.now (texel_of m.shape k)) out.old }
{
    let w = window_of(m, x, y);
    let bw = m.shape.footprint.width;
    put_rows(
        |y, x| lanes::word(lanes, y * bw + x),
        out,
        w,
        m.shape.width,
        w.columns,
    );
}

// Fills the pixels of the block in column x and row y, as far as it lies in the image, with one
// word. A row as wide as a footprint has a loop of its own: of a number of places that the compiler
// knows.
pub fn fill_block(word: u32, m: Bounded, x: usize, y: usize, out: &mut [u32])
    requires { (Inside m.shape x y) × (pixels_of m.shape ≤ length out.old) }
    ensures { out.new ≡
        marked (is_in m.shape (block_at m.shape x y) (block_at m.shape x y + 1)) (λ (k : ℕ). word) out.old }
{
    let w = window_of(m, x, y);
    let width = m.shape.width;
    let columns = w.columns;
    let same = |_: usize, _: usize| word;
    match columns {
        4 => put_rows(same, out, w, width, 4),
        5 => put_rows(same, out, w, width, 5),
        6 => put_rows(same, out, w, width, 6),
        8 => put_rows(same, out, w, width, 8),
        10 => put_rows(same, out, w, width, 10),
        12 => put_rows(same, out, w, width, 12),
        _ => put_rows(same, out, w, width, columns),
    }
}
