// Axes and placement of a grid over points, by cell size and by resolution.
#![tactic(auto)]

ghost use Rattle.std.specs.Prelude.{◌≡◌, ◌+◌, ◌*◌, ◌≤◌, ◌<◌, length};
ghost use Rattle.sizing.specs.Sizing.{lower, upper, point_at, spans_at, span_with, spans_with, spans_of, placed_at, size_fault, CountsAs, axis_by_size, grid_of, size_grid, by_size, resolution_fault, tops, main_axis, extent_at, as_float, axis_by_resolution, resolution_grid, by_resolution};

use grid::{Axes, Laid, Placement, Reason, Refusal};
use numbers::NoWhole;

#[derive(Clone, Copy, Debug, PartialEq)]
pub struct Point {
    pub x: f32,
    pub y: f32,
    pub z: f32,
}

// The smallest and the greatest of some numbers.
#[derive(Clone, Copy, Debug, PartialEq)]
pub struct Span {
    pub lo: f32,
    pub hi: f32,
}

// The spans of the points' three coordinates.
#[derive(Clone, Copy, Debug, PartialEq)]
pub struct Spans {
    pub x: Span,
    pub y: Span,
    pub z: Span,
}

// ---- the spans of the points

fn least(a: f32, b: f32) -> f32
    ensures { result ≡ lower a b }
{
    if b < a { b } else { a }
}

fn greatest(a: f32, b: f32) -> f32
    ensures { result ≡ upper a b }
{
    if a < b { b } else { a }
}

// Point i.
fn point_at(ps: &[f32], i: usize) -> Point
    requires { 3 * i + 2 < length ps.now }
    ensures { result ≡ point_at ps.now i }
{
    let at = 3 * i;
    Point {
        x: ps[at],
        y: ps[at + 1],
        z: ps[at + 2],
    }
}

fn single(p: Point) -> Spans
    ensures { result ≡ spans_at p }
{
    let x = Span { lo: p.x, hi: p.x };
    let y = Span { lo: p.y, hi: p.y };
    let z = Span { lo: p.z, hi: p.z };
    Spans { x, y, z }
}

fn widened(s: Span, p: f32) -> Span
    ensures { result ≡ span_with s p }
{
    let lo = least(s.lo, p);
    let hi = greatest(s.hi, p);
    Span { lo, hi }
}

fn widened_by(s: Spans, p: Point) -> Spans
    ensures { result ≡ spans_with s p }
{
    let x = widened(s.x, p.x);
    let y = widened(s.y, p.y);
    let z = widened(s.z, p.z);
    Spans { x, y, z }
}

// The smallest and the greatest x, y and z; of equal ones the earliest.
fn spans_of(ps: &[f32]) -> Spans
    requires { 3 ≤ length ps.now }
    ensures { result ≡ spans_of ps.now }
{
    let mut s = single(point_at(ps, 0));
    for i in 1..ps.len() / 3 {
        s = widened_by(s, point_at(ps, i));
    }
    s
}

fn placed(s: Spans, scale: f32) -> Placement
    ensures { result ≡ placed_at s scale }
{
    Placement {
        x: s.x.lo,
        y: s.y.lo,
        z: s.z.lo,
        scale,
        reciprocal: 1.0 / scale,
    }
}

// More than any axis has.
const TOO_MANY: usize = grid::AXIS_MOST + 1;

// A rounded quotient as a count of cells; one that is too large, or none, is more than any axis has.
fn cells_of(w: Result<i64, NoWhole>) -> usize
    ensures { CountsAs w result }
{
    match w {
        Ok(n) => {
            if n < 0 {
                return 0;
            }
            n as usize
        }
        Err(_) => TOO_MANY,
    }
}

// The grid of these axes at this place, or refusal 8.
fn graded(axes: Axes, placement: Placement) -> Result<Laid, Refusal>
    ensures { result ≡ grid_of axes placement }
{
    grid::axes_fault(axes)?;
    Ok(Laid { axes, placement })
}

// ---- by cell size

// Refusal 5 of a cell size.
fn size_fault(size: f32) -> Result<(), Refusal>
    ensures { result ≡ size_fault size }
{
    if (0.0009765625 <= size) & (size <= 1048576.0) {
        return Ok(());
    }
    Err(Reason::BadSize.at(0))
}

fn axis_by_size(s: Span, size: f32) -> usize
    ensures { result ≡ axis_by_size s size }
{
    let n = cells_of(numbers::ceil((s.hi - s.lo) / size));
    if n <= 2 {
        return 3;
    }
    n + 1
}

fn size_grid(s: Spans, size: f32) -> Result<Laid, Refusal>
    ensures { result ≡ size_grid s size }
{
    let r0 = axis_by_size(s.x, size);
    let r1 = axis_by_size(s.y, size);
    let r2 = axis_by_size(s.z, size);
    graded(Axes { r0, r1, r2 }, placed(s, size))
}

// The grid over the points with cells of this size.
pub fn by_size(points: &[f32], size: f32) -> Result<Laid, Refusal>
    ensures { result ≡ by_size points.now size }
{
    sizing_points::points_fault(points)?;
    size_fault(size)?;
    size_grid(spans_of(points), size)
}

// ---- by resolution

// Refusal 6 of a resolution.
fn resolution_fault(resolution: u32) -> Result<(), Refusal>
    ensures { result ≡ resolution_fault resolution }
{
    if (resolution < 2) | (254 < resolution) {
        return Err(Reason::BadResolution.at(0));
    }
    Ok(())
}

// Whether a is at least b and at least c.
fn at_least(a: f32, b: f32, c: f32) -> bool
    ensures { result ≡ tops a b c }
{
    (a >= b) & (a >= c)
}

fn main_axis(dx: f32, dy: f32, dz: f32) -> u8
    ensures { result ≡ main_axis dx dy dz }
{
    if at_least(dx, dy, dz) {
        return 0;
    }
    if at_least(dy, dx, dz) {
        return 1;
    }
    2
}

// The extent of the axis m.
fn extent_at(m: u8, dx: f32, dy: f32, dz: f32) -> f32
    ensures { result ≡ extent_at m dx dy dz }
{
    if m == 0 {
        return dx;
    }
    if m == 1 {
        return dy;
    }
    dz
}

// A resolution, or one less, as a float.
fn as_float(n: u32) -> f32
    requires { n ≤ 254 }
    ensures { result ≡ as_float n }
{
    (n as u16) as f32
}

// The cells of the axis a, of extent d, where the main axis is m, of extent dmain.
fn axis_by_resolution(resolution: u32, m: u8, a: u8, d: f32, dmain: f32) -> usize
    requires { resolution ≤ 254 }
    ensures { result ≡ axis_by_resolution resolution m a d dmain }
{
    if m == a {
        return resolution as usize;
    }
    2 + cells_of(numbers::trunc(as_float(resolution) * d / dmain))
}

fn resolution_grid(s: Spans, resolution: u32) -> Result<Laid, Refusal>
    requires { (2 ≤ resolution) × (resolution ≤ 254) }
    ensures { result ≡ resolution_grid s resolution }
{
    let dx = s.x.hi - s.x.lo;
    let dy = s.y.hi - s.y.lo;
    let dz = s.z.hi - s.z.lo;
    let m = main_axis(dx, dy, dz);
    let dmain = extent_at(m, dx, dy, dz);
    if dmain < 0.0009765625 {
        return Err(Reason::NoExtent.at(0));
    }
    let r0 = axis_by_resolution(resolution, m, 0, dx, dmain);
    let r1 = axis_by_resolution(resolution, m, 1, dy, dmain);
    let r2 = axis_by_resolution(resolution, m, 2, dz, dmain);
    graded(
        Axes { r0, r1, r2 },
        placed(s, dmain / as_float(resolution - 1)),
    )
}

// The grid over the points whose main axis has so many cells.
pub fn by_resolution(points: &[f32], resolution: u32) -> Result<Laid, Refusal>
    ensures { result ≡ by_resolution points.now resolution }
{
    sizing_points::points_fault(points)?;
    resolution_fault(resolution)?;
    resolution_grid(spans_of(points), resolution)
}
