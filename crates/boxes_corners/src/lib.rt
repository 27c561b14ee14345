// The box of a cell: its eight corners and its twelve triangles.
#![tactic(auto)]

ghost use Rattle.std.specs.Prelude.{[], ◌≡◌, ◌+◌, ◌≤◌, ◌<◌, length, get_or};
ghost use Rattle.std.specs.Float.{nan};
ghost use Rattle.order.specs.Output.{Written};
ghost use Rattle.boxes_corners.specs.Corners.{corners, faces, corner_of, cell_corners, face_of, cell_triangles};

use grid::{Cell, Placement};

// How far each corner of a cell lies off its centre along i, j and k, in cells.
const CORNERS: [[f32; 3]; 8] = [
    [-0.5, -0.5, -0.5],
    [0.5, -0.5, -0.5],
    [0.5, 0.5, -0.5],
    [-0.5, 0.5, -0.5],
    [-0.5, -0.5, 0.5],
    [0.5, -0.5, 0.5],
    [0.5, 0.5, 0.5],
    [-0.5, 0.5, 0.5],
];

// The triangles of a cell, by the numbers of their corners.
const TRIANGLES: [[u32; 3]; 12] = [
    [0, 2, 1],
    [0, 3, 2],
    [4, 5, 6],
    [4, 6, 7],
    [7, 6, 2],
    [7, 2, 3],
    [4, 1, 5],
    [4, 0, 1],
    [6, 5, 1],
    [6, 1, 2],
    [7, 0, 4],
    [7, 3, 0],
];

// How far corner v lies off the centre.
fn shift_of(v: usize) -> [f32; 3]
    requires { v < 8 }
    ensures { result ≡ get_or corners v [] }
{
    CORNERS[v]
}

// The corners of triangle t.
fn corners_of(t: usize) -> [u32; 3]
    requires { t < 12 }
    ensures { result ≡ get_or faces t [] }
{
    TRIANGLES[t]
}

// Corner v of a cell, at place `from` of the points.
fn put_corner(points: &mut [f32], from: usize, placement: Placement, c: Cell, v: usize)
    requires from_in_bounds { (from + 3 ≤ length points.old) × (v < 8) }
    requires i_bound { (c.i < 256) × (c.j < 256) × (c.k < 256) }
    ensures { Written nan from (corner_of placement c (get_or corners v [])) points.old points.new }
{
    let shift = shift_of(v);
    points[from] = marking_mesh::off_centre(placement.x, placement.scale, c.i, shift[0]);
    points[from + 1] = marking_mesh::off_centre(placement.y, placement.scale, c.j, shift[1]);
    points[from + 2] = marking_mesh::off_centre(placement.z, placement.scale, c.k, shift[2]);
}

// The corners of a cell, from place `from` of the points on.
pub fn put_corners(points: &mut [f32], from: usize, placement: Placement, c: Cell)
    requires from_in_bounds { from + 24 ≤ length points.old }
    requires i_bound { (c.i < 256) × (c.j < 256) × (c.k < 256) }
    ensures { Written nan from (cell_corners placement c) points.old points.new }
{
    for v in 0..8 {
        put_corner(points, from + 3 * v, placement, c, v);
    }
}

// Triangle t of a cell whose corners begin at point `base`, at place `from` of the triangles.
fn put_triangle(triangles: &mut [u32], from: usize, base: u32, t: usize)
    requires { (from + 3 ≤ length triangles.old) × (t < 12) × (base ≤ 134217728) }
    ensures { Written 0 from (face_of base (get_or faces t [])) triangles.old triangles.new }
{
    let corner = corners_of(t);
    triangles[from] = base + corner[0];
    triangles[from + 1] = base + corner[1];
    triangles[from + 2] = base + corner[2];
}

// The triangles of a cell, from place `from` of the triangles on.
pub fn put_triangles(triangles: &mut [u32], from: usize, base: u32)
    requires { (from + 36 ≤ length triangles.old) × (base ≤ 134217728) }
    ensures { Written 0 from (cell_triangles base) triangles.old triangles.new }
{
    for t in 0..12 {
        put_triangle(triangles, from + 3 * t, base, t);
    }
}
