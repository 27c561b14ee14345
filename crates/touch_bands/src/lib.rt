// The thirteen bands of a triangle, one for each direction, and with them whether a triangle touches a cell.
#![tactic(auto)]

ghost use Rattle.std.specs.Prelude.{◌≡◌};
ghost use Rattle.touch.specs.Touch.{dot_z, cube_reach, edge, cross, axis_x, axis_y, axis_z, normal, touching};
ghost use Rattle.touch.specs.Bands.{band_of, three_of, products_of, bands_of, DirectionFits, EdgeFits, VertexFits, TriangleFits, CellFits};

use grid::Cell;
use touch::{Band, Bands, Three};

// The projection of v on d.
fn dot(d: [i64; 3], v: [i64; 3]) -> i64
    requires direction_fits { DirectionFits d }
    requires vertex_fits { VertexFits v }
    ensures { result ≡ dot_z d v }
{
    d[0] * v[0] + d[1] * v[1] + d[2] * v[2]
}

// How far a cell's cube reaches from its centre on d.
fn cube_reach(d: [i64; 3]) -> i64
    requires { DirectionFits d }
    ensures { result ≡ cube_reach d }
{
    numbers::HALF * (d[0].abs() + d[1].abs() + d[2].abs())
}

// The cells that the direction d does not separate from the triangle t.
fn band_along(d: [i64; 3], t: [[i64; 3]; 3]) -> Band
    requires direction_fits { DirectionFits d }
    requires triangle_fits { TriangleFits t }
    ensures { result ≡ band_of d t }
{
    let a = dot(d, t[0]);
    let b = dot(d, t[1]);
    let c = dot(d, t[2]);
    let r = cube_reach(d);
    Band {
        x: numbers::SIDE * d[0],
        y: numbers::SIDE * d[1],
        z: numbers::SIDE * d[2],
        low: a.min(b).min(c) - r,
        high: a.max(b).max(c) + r,
    }
}

fn edge_of(a: [i64; 3], b: [i64; 3]) -> [i64; 3]
    requires vertex_fits { VertexFits a }
    requires other_vertex_fits { VertexFits b }
    ensures { result ≡ edge a b }
{
    [b[0] - a[0], b[1] - a[1], b[2] - a[2]]
}

fn cross_of(a: [i64; 3], b: [i64; 3]) -> [i64; 3]
    requires edge_fits { EdgeFits a }
    requires other_edge_fits { EdgeFits b }
    ensures { result ≡ cross a b }
{
    [
        a[1] * b[2] - a[2] * b[1],
        a[2] * b[0] - a[0] * b[2],
        a[0] * b[1] - a[1] * b[0],
    ]
}

// Of the axes. Here and for products each direction is written out where it is used, so that nothing is
// computed with a coordinate that is 0.
fn axes_of(t: [[i64; 3]; 3]) -> Three
    requires { TriangleFits t }
    ensures { result ≡ three_of axis_x axis_y axis_z t }
{
    let x = band_along([1, 0, 0], t);
    let y = band_along([0, 1, 0], t);
    let z = band_along([0, 0, 1], t);
    Three { x, y, z }
}

// Of the products of the edge from a to b with the axes.
fn products(a: [i64; 3], b: [i64; 3], t: [[i64; 3]; 3]) -> Three
    requires vertex_fits { VertexFits a × VertexFits b }
    requires triangle_fits { TriangleFits t }
    ensures { result ≡ products_of (edge a b) t }
{
    let e = edge_of(a, b);
    let x = e[0];
    let y = e[1];
    let z = e[2];
    let with_x = band_along([0, z, -y], t);
    let with_y = band_along([-z, 0, x], t);
    let with_z = band_along([y, -x, 0], t);
    Three {
        x: with_x,
        y: with_y,
        z: with_z,
    }
}

fn normal_band(t: [[i64; 3]; 3]) -> Band
    requires { TriangleFits t }
    ensures { result ≡ band_of (normal t) t }
{
    let e = edge_of(t[0], t[1]);
    let f = edge_of(t[1], t[2]);
    band_along(cross_of(e, f), t)
}

// The thirteen directions of a triangle, with what each leaves of the cells: once a triangle.
pub fn bands_of(t: [[i64; 3]; 3]) -> Bands
    requires { TriangleFits t }
    ensures { result ≡ bands_of t }
{
    let axes = axes_of(t);
    let normal = normal_band(t);
    let edge01 = products(t[0], t[1], t);
    let edge12 = products(t[1], t[2], t);
    let edge20 = products(t[2], t[0], t);
    Bands {
        axes,
        normal,
        edge01,
        edge12,
        edge20,
    }
}

// Whether the triangle touches the cell: the two steps in one, by value.
pub fn touches(t: [[i64; 3]; 3], c: Cell) -> bool
    requires triangle_fits { TriangleFits t }
    requires cell_fits { CellFits c }
    ensures { result ≡ touching t c }
{
    touch::keeps_all(bands_of(t), c)
}
