// Whether a triangle touches a cell: none of thirteen directions separates them strictly. What depends on
// the triangle alone is computed once: each direction leaves of all cells a band of those that it does not
// separate from the triangle. Here a cell is held to the bands; the crate `touch_bands` makes them.
#![tactic(auto)]

ghost use Rattle.std.specs.Prelude.{◌≡◌, ◌<◌};
ghost use Rattle.touch.specs.Bands.{kept, kept_three, kept_all, BandFits, ThreeFit, Axial, Crosswise, BandsFit, CellFits, CoordinatesFit};

use grid::Cell;

// The cells that a direction does not separate: side * (direction . cell) is from low to high. x, y and z are
// the direction's, times the side.
#[derive(Clone, Copy)]
pub struct Band {
    pub x: i64,
    pub y: i64,
    pub z: i64,
    pub low: i64,
    pub high: i64,
}

// Three directions: the axes, or the products of an edge with them.
#[derive(Clone, Copy)]
pub struct Three {
    pub x: Band,
    pub y: Band,
    pub z: Band,
}

// The thirteen of a triangle.
#[derive(Clone, Copy)]
pub struct Bands {
    pub axes: Three,
    pub normal: Band,
    pub edge01: Three,
    pub edge12: Three,
    pub edge20: Three,
}

fn keeps(s: Band, i: i64, j: i64, k: i64) -> bool
    requires band_fits { BandFits s }
    requires coordinates_fit { CoordinatesFit i j k }
    ensures { result ≡ kept s i j k }
{
    let p = s.x * i + s.y * j + s.z * k;
    (s.low <= p) & (p <= s.high)
}

// Of the axes: each band has one coordinate that is not 0. What does not depend on i is left for a row's
// loop to compute once.
fn keeps_axes(s: Three, i: i64, j: i64, k: i64) -> bool
    requires three_fit { ThreeFit s }
    requires axial { Axial s }
    requires coordinates_fit { CoordinatesFit i j k }
    ensures { result ≡ kept_three s i j k }
{
    let px = s.x.x * i;
    let py = s.y.y * j;
    let pz = s.z.z * k;
    let kx = (s.x.low <= px) & (px <= s.x.high);
    let ky = (s.y.low <= py) & (py <= s.y.high);
    let kz = (s.z.low <= pz) & (pz <= s.z.high);
    kx & ky & kz
}

// Of an edge's products with the axes: each band has a coordinate that is 0.
fn keeps_products(s: Three, i: i64, j: i64, k: i64) -> bool
    requires three_fit { ThreeFit s }
    requires crosswise { Crosswise s }
    requires coordinates_fit { CoordinatesFit i j k }
    ensures { result ≡ kept_three s i j k }
{
    let px = s.x.y * j + s.x.z * k;
    let py = s.y.x * i + s.y.z * k;
    let pz = s.z.x * i + s.z.y * j;
    let of_x = (s.x.low <= px) & (px <= s.x.high);
    let of_y = (s.y.low <= py) & (py <= s.y.high);
    let of_z = (s.z.low <= pz) & (pz <= s.z.high);
    of_x & of_y & of_z
}

// Whether none of the thirteen separates the cell.
pub fn keeps_all(s: Bands, c: Cell) -> bool
    requires bands_fit { BandsFit s }
    requires cell_fits { CellFits c }
    ensures { result ≡ kept_all s c }
{
    let i = c.i as i64;
    let j = c.j as i64;
    let k = c.k as i64;
    let axes = keeps_axes(s.axes, i, j, k);
    let normal = keeps(s.normal, i, j, k);
    let edge01 = keeps_products(s.edge01, i, j, k);
    let edge12 = keeps_products(s.edge12, i, j, k);
    let edge20 = keeps_products(s.edge20, i, j, k);
    axes & normal & edge01 & edge12 & edge20
}
