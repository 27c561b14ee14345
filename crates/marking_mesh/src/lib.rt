// A mesh on a grid: a vertex in units of a cell's side, places on the grid, a triangle's vertices.
#![tactic(auto)]

ghost use Rattle.std.specs.Prelude.{◌≡◌, ◌<◌};
ghost use Rattle.grid.specs.Grid.{Axis, Sound};
ghost use Rattle.sizing.specs.Sizing.{points};
ghost use Rattle.marking_mesh.specs.Mesh.{units_at, vertex_of, on_axis, on_grid, triangles, triangle_of, origin_along, off_centre};
ghost use Rattle.marking_mesh.specs.Ranges.{Named};

use grid::{Axes, Placement};

// ---- a vertex on the grid

// A coordinate in units; one that has no number of them stands before the first cell.
fn units_at(p: f32, origin: f32, reciprocal: f32) -> i64
    ensures { result ≡ units_at p origin reciprocal }
{
    numbers::to_units((p - origin) * reciprocal).unwrap_or(-numbers::SIDE)
}

// Point v.
pub fn vertex_of(ps: &[f32], placement: Placement, v: usize) -> [i64; 3]
    requires { v < points ps.now }
    ensures { result ≡ vertex_of ps.now placement v }
{
    let n = 3 * v;
    let x = units_at(ps[n], placement.x, placement.reciprocal);
    let y = units_at(ps[n + 1], placement.y, placement.reciprocal);
    let z = units_at(ps[n + 2], placement.z, placement.reciprocal);
    [x, y, z]
}

// Whether q falls on one of n cells.
fn on_axis(q: i64, n: usize) -> bool
    requires { Axis n }
    ensures { result ≡ on_axis n q }
{
    let c = numbers::cell_of(q);
    (0 <= c) & (c < n as i64)
}

pub fn on_grid(v: [i64; 3], r: Axes) -> bool
    requires { Sound r }
    ensures { result ≡ on_grid r v }
{
    let x = on_axis(v[0], r.r0);
    let y = on_axis(v[1], r.r1);
    let z = on_axis(v[2], r.r2);
    x & y & z
}

// ---- places on the grid

// The origin along axis 0, 1 or 2.
pub fn origin_along(placement: Placement, axis: usize) -> f32
    ensures { result ≡ origin_along placement axis }
{
    if axis == 0 {
        return placement.x;
    }
    if axis == 1 {
        return placement.y;
    }
    placement.z
}

// Along an axis, the place that lies `shift` cells off the centre of cell i.
pub fn off_centre(origin: f32, scale: f32, i: usize, shift: f32) -> f32
    requires { i < 256 }
    ensures { result ≡ off_centre origin scale i shift }
{
    origin + ((i as u16) as f32 + shift) * scale
}

// ---- a triangle

// Triangle t, by value.
pub fn triangle_of(ps: &[f32], ts: &[u32], placement: Placement, t: usize) -> [[i64; 3]; 3]
    requires named { Named ps.now ts.now }
    requires t_bound { t < triangles ts.now }
    ensures { result ≡ triangle_of ps.now ts.now placement t }
{
    let n = 3 * t;
    let a = vertex_of(ps, placement, ts[n] as usize);
    let b = vertex_of(ps, placement, ts[n + 1] as usize);
    let c = vertex_of(ps, placement, ts[n + 2] as usize);
    [a, b, c]
}
