// Where pixels lie: coordinates, the clip rectangle, the place of a pixel in its buffer, and the pixels that a line and
// a blit visit (document 01, Entry layout and Pixels).

#![tactic(auto)]

mod visible;

ghost use Rattle.std.specs.Prelude.{◌≡◌, ◌<◌, ◌≤◌, eqb};
ghost use Rattle.geometry.specs.Coordinates.{coordinate_of, point_of};
ghost use Rattle.geometry.specs.Clip.{rect_of, in_rect, window_of, in_window, place_of};
ghost use Rattle.geometry.specs.Line.{distance, steps_of, line_count, nearest_of, line_visit};
ghost use Rattle.geometry.specs.Blit.{blit_count, blit_cell, away, cell_visit};

pub use visible::{Part, Range, visible_count, visible_index};

// Coordinates are held 98,304 up: this is the coordinate 0.
pub const ORIGIN: usize = 98304;

#[derive(Clone, Copy)]
pub struct Point {
    pub x: usize,
    pub y: usize,
}

// The size of a picture buffer, in pixels.
#[derive(Clone, Copy)]
pub struct Extent {
    pub width: u32,
    pub height: u32,
}

fn coordinate(half: u32) -> usize
    requires { half < 65536 }
    ensures { result ≡ coordinate_of half }
{
    (half as usize + 32768) % 65536 + 65536
}

// The point in a register: x in the high half, y in the low half.
#[tactic(auto, unfolding(crate::specs::Coordinates::point_of))]
pub fn point_of(word: u32) -> Point
    ensures { result ≡ point_of word }
{
    Point {
        x: coordinate(word / 65536),
        y: coordinate(word % 65536),
    }
}

// A rectangle by its corners, both inside.
#[derive(Clone, Copy)]
pub struct Rect {
    pub left: usize,
    pub top: usize,
    pub right: usize,
    pub bottom: usize,
}

// The clip rectangle of CLPTL and CLPBR.
pub fn rect_of(top_left: u32, bottom_right: u32) -> Rect
    ensures { result ≡ rect_of top_left bottom_right }
{
    let a = point_of(top_left);
    let b = point_of(bottom_right);
    Rect {
        left: a.x,
        top: a.y,
        right: b.x,
        bottom: b.y,
    }
}

impl Rect {
    pub fn contains(self, p: Point) -> bool
        ensures { result ≡ in_rect self p }
    {
        (self.left <= p.x) & (p.x <= self.right) & (self.top <= p.y) & (p.y <= self.bottom)
    }
}

// The part of a buffer that clip and buffer let through: left <= x < right and top <= y < bottom.
// Kept: no Rect, whose right and bottom are inside.
#[derive(Clone, Copy)]
pub struct Window {
    pub left: usize,
    pub right: usize,
    pub top: usize,
    pub bottom: usize,
}

impl Window {
    pub fn contains(self, p: Point) -> bool
        ensures { result ≡ in_window self p }
    {
        (self.left <= p.x) & (p.x < self.right) & (self.top <= p.y) & (p.y < self.bottom)
    }
}

// The window of a buffer, and of the clip rectangle where `clip` is set.
#[tactic(auto, unfolding(crate::specs::Clip::window_of, crate::specs::Coordinates::point_of))]
pub fn window_of(extent: Extent, clip: bool, top_left: u32, bottom_right: u32) -> Window
    ensures { result ≡ window_of extent clip top_left bottom_right }
{
    let right = ORIGIN + extent.width as usize;
    let bottom = ORIGIN + extent.height as usize;
    if clip {
        let c = rect_of(top_left, bottom_right);
        return Window {
            left: ORIGIN.max(c.left),
            right: right.min(c.right + 1),
            top: ORIGIN.max(c.top),
            bottom: bottom.min(c.bottom + 1),
        };
    }
    Window {
        left: ORIGIN,
        right,
        top: ORIGIN,
        bottom,
    }
}

// The place of a point in a buffer, if it lies in it.
#[tactic(auto, unfolding(crate::specs::Clip::place_of))]
pub fn place_of(extent: Extent, p: Point) -> Option<usize>
    ensures { result ≡ place_of extent p }
{
    let x = p.x.checked_sub(ORIGIN)?;
    let y = p.y.checked_sub(ORIGIN)?;
    if extent.width as usize <= x {
        return None;
    }
    if extent.height as usize <= y {
        return None;
    }
    Some(y * (extent.width as usize) + x)
}

// n, the number of steps from one end of a line to the other.
pub fn line_steps(from: u32, to: u32) -> usize
    ensures { result ≡ steps_of (point_of from) (point_of to) }
{
    let a = point_of(from);
    let b = point_of(to);
    a.x.abs_diff(b.x).max(a.y.abs_diff(b.y))
}

// How many pixels a line visits; skip_last is NLST.
#[tactic(auto, unfolding(crate::specs::Coordinates::point_of))]
pub fn line_count(from: u32, to: u32, skip_last: bool) -> usize
    ensures { result ≡ line_count (point_of from) (point_of to) skip_last }
{
    let n = line_steps(from, to);
    if skip_last { n } else { n + 1 }
}

// One coordinate of pixel i of a line of n steps from a to b.
#[tactic(auto, unfolding(crate::specs::Line::nearest_of))]
fn nearest(n: usize, i: usize, a: usize, b: usize) -> usize
    requires { (n < 65536) × (i ≤ n) × (a < 131072) × (b < 131072) }
    ensures { result ≡ nearest_of n i a b }
{
    if n == 0 {
        return a;
    }
    let e = (n - i) * a + i * b;
    (2 * e + n - 1) / (2 * n)
}

// Where visit k of a line lies, if it has one.
#[tactic(auto, unfolding(crate::specs::Line::line_visit, crate::specs::Coordinates::point_of))]
pub fn line_visit(from: u32, to: u32, skip_last: bool, k: usize) -> Option<Point>
    ensures { result ≡ line_visit (point_of from) (point_of to) skip_last k }
{
    if line_count(from, to, skip_last) <= k {
        return None;
    }
    let n = line_steps(from, to);
    let a = point_of(from);
    let b = point_of(to);
    let x = nearest(n, k, a.x, b.x);
    let y = nearest(n, k, a.y, b.y);
    Some(Point { x, y })
}

// How many pixels a blit visits, from XY2: width x height.
pub fn blit_count(size: u32) -> usize
    ensures { result ≡ blit_count size }
{
    ((size / 65536) as usize) * ((size % 65536) as usize)
}

// Where a visit lies in the rectangle of a blit: column and row, counted from the corner.
#[derive(Clone, Copy)]
pub struct Cell {
    pub column: u32,
    pub row: u32,
}

// The cell of visit k of a blit, if it has one.
#[tactic(auto, unfolding(crate::specs::Blit::blit_cell))]
pub fn blit_cell(size: u32, k: usize) -> Option<Cell>
    ensures { result ≡ blit_cell size k }
{
    if blit_count(size) <= k {
        return None;
    }
    let width = (size / 65536) as usize;
    Some(Cell {
        column: (k % width) as u32,
        row: (k / width) as u32,
    })
}

// The coordinate k pixels from c, up or back, which stops at 0.
fn moved(back: bool, c: usize, k: u32) -> usize
    requires { c < 131072 }
    ensures { result ≡ away back c k }
{
    if back {
        c.saturating_sub(k as usize)
    } else {
        c + k as usize
    }
}

// The pixel of a cell, from the corner of the source rectangle or of the destination rectangle.
// Kept: the direction is XY3's word, here and in visible.rt: `cell_visit` and `visible_count` answer at every word.
#[tactic(auto, unfolding(crate::specs::Coordinates::point_of))]
pub fn cell_visit(corner: u32, direction: u32, cell: Option<Cell>) -> Option<Point>
    ensures { result ≡ cell_visit (point_of corner) direction cell }
{
    let at = cell?;
    let c = point_of(corner);
    let x = moved(direction / 2 % 2 == 1, c.x, at.column);
    let y = moved(direction % 2 == 1, c.y, at.row);
    Some(Point { x, y })
}
