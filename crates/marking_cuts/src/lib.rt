// The part of a row of cells that a triangle's bands leave, by its ends. Along an axis the projection of a
// cell rises or falls by one step a place, so each band leaves the places from one to another, which come
// by division. What holds of a line of places is said once, for rows along any axis.
#![tactic(auto)]

ghost use Rattle.std.specs.Prelude.{◌≡◌, true, ◌/◌, ◌+◌, ◌-◌, ◌≤◌, ◌<◌, ◌^◌, pos, ◌*ℤ◌};
ghost use Rattle.std.specs.Int.Signed.{le_z};
ghost use Rattle.ints.specs.Bound.{In};
ghost use Rattle.touch.specs.Bands.{BandFits, ThreeFit, Axial, BandsFit};
ghost use Rattle.marking_cuts.specs.Cuts.{lies, Cut, Rising, First, Past, Clipped, on_axis_i, on_axis_j, on_axis_k, across_x, across_y, rest_of_row, across_z, rest_along_k};

use grid::{Block, Stretch};
use touch::{Band, Bands, Three};

// The step along an axis: a cell's side in units. To divide by a power of 2 that is known is to shift.
const SIDE: usize = numbers::SIDE as usize;

// The first place where a line of values step * x is above h.
fn above(h: usize, step: usize) -> usize
    requires { (0 < step) × (h < 2 ^ 62) }
    ensures { result ≡ h / step + 1 }
{
    if step == SIDE {
        return h / SIDE + 1;
    }
    h / step + 1
}

// The first place, from `from` on, where step * x has reached low; at `from` it is `least`.
fn first_place(from: usize, step: i64, least: i64, low: i64) -> usize
    requires { Rising step × (from < 256) × In (2 ^ 61) low × (least ≡ step *ℤ pos from) }
    ensures { First step low from result }
{
    if low <= least {
        return from;
    }
    above((low - 1) as usize, step as usize)
}

// One past the last place before `to` where step * x is not above high; at the place before `to` it is `most`.
fn past_place(to: usize, step: i64, most: i64, high: i64) -> usize
    requires { Rising step × (0 < to) × (to ≤ 256) × In (2 ^ 61) high × (le_z (pos 0) high ≡ true) × (most ≡ step *ℤ pos (to - 1)) }
    ensures { Past step high to result }
{
    if most <= high {
        return to;
    }
    above(high as usize, step as usize)
}

// The places of e where low <= step * x <= high, for a step above 0.
fn cut_rising(e: Stretch, step: i64, low: i64, high: i64) -> Stretch
    requires { (e.from < e.to) × (e.to ≤ 256) × Rising step × In (2 ^ 61) low × In (2 ^ 61) high }
    ensures { Cut e (lies step low high) result }
{
    let start = e.from;
    let end = e.to;
    let least = step * (start as i64);
    let most = step * ((end - 1) as i64);
    if (most < low) | (high < least) {
        return Stretch { from: 0, to: 0 };
    }
    let from = first_place(start, step, least, low);
    let to = past_place(end, step, most, high);
    Stretch { from, to }
}

// The places of e where low <= step * x <= high.
fn cut(e: Stretch, step: i64, low: i64, high: i64) -> Stretch
    requires { (e.from < e.to) × (e.to ≤ 256) × In (2 ^ 49) step × In (2 ^ 61) low × In (2 ^ 61) high }
    ensures { Cut e (lies step low high) result }
{
    if 0 < step {
        return cut_rising(e, step, low, high);
    }
    if step < 0 {
        return cut_rising(e, -step, -high, -low);
    }
    if (low <= 0) & (0 <= high) {
        return e;
    }
    Stretch { from: 0, to: 0 }
}

// ---- a row along i

// The places i of e where a band leaves the cell (i, j, k).
fn band_along_i(e: Stretch, s: Band, j: i64, k: i64) -> Stretch
    requires { (e.to ≤ 256) × BandFits s × In 255 j × In 255 k }
    ensures { Cut e (on_axis_i s j k) result }
{
    let from = e.from;
    let to = e.to;
    if to <= from {
        return e;
    }
    let base = s.y * j + s.z * k;
    cut(e, s.x, s.low - base, s.high - base)
}

// In layer k, the places i that the products of the edges with y leave, whatever j is.
#[tactic(auto, using(crate::proofs::Laws::place_in, crate::proofs::Laws::zero_in))]
pub fn layer_along_i(s: Bands, e: Stretch, k: usize) -> Stretch
    requires { (e.to ≤ 256) × BandsFit s × (k < 256) }
    ensures { Cut e (across_y s k) result }
{
    let z = k as i64;
    let edge01 = band_along_i(e, s.edge01.y, 0, z);
    let edge12 = band_along_i(edge01, s.edge12.y, 0, z);
    band_along_i(edge12, s.edge20.y, 0, z)
}

// In row (j, k), the places i that the other directions leave: the normal, and the products with z.
#[tactic(auto, using(crate::proofs::Laws::place_in, crate::proofs::Laws::zero_in))]
pub fn rest_along_i(s: Bands, e: Stretch, j: usize, k: usize) -> Stretch
    requires { (e.to ≤ 256) × BandsFit s × (j < 256) × (k < 256) }
    ensures { Cut e (rest_of_row s j k) result }
{
    let y = j as i64;
    let z = k as i64;
    let normal = band_along_i(e, s.normal, y, z);
    let edge01 = band_along_i(normal, s.edge01.z, y, 0);
    let edge12 = band_along_i(edge01, s.edge12.z, y, 0);
    band_along_i(edge12, s.edge20.z, y, 0)
}

// ---- a row along j

// The places j of e where a band leaves the cell (i, j, k): with the axes of the band turned, j is its first.
fn band_along_j(e: Stretch, s: Band, i: i64, k: i64) -> Stretch
    requires { (e.to ≤ 256) × BandFits s × In 255 i × In 255 k }
    ensures { Cut e (on_axis_j s i k) result }
{
    let turned = Band {
        x: s.y,
        y: s.x,
        ..s
    };
    band_along_i(e, turned, i, k)
}

// In layer k, the places j that the products of the edges with x leave, whatever i is.
#[tactic(auto, using(crate::proofs::Laws::place_in, crate::proofs::Laws::zero_in))]
pub fn layer_along_j(s: Bands, e: Stretch, k: usize) -> Stretch
    requires { (e.to ≤ 256) × BandsFit s × (k < 256) }
    ensures { Cut e (across_x s k) result }
{
    let z = k as i64;
    let edge01 = band_along_j(e, s.edge01.x, 0, z);
    let edge12 = band_along_j(edge01, s.edge12.x, 0, z);
    band_along_j(edge12, s.edge20.x, 0, z)
}

// ---- a row along k

// The places k of e where a band leaves the cell (i, j, k), in the same way.
fn band_along_k(e: Stretch, s: Band, i: i64, j: i64) -> Stretch
    requires { (e.to ≤ 256) × BandFits s × In 255 i × In 255 j }
    ensures { Cut e (on_axis_k s i j) result }
{
    let turned = Band {
        x: s.z,
        y: s.x,
        z: s.y,
        ..s
    };
    band_along_i(e, turned, i, j)
}

// In slab i, the places k that the products of the edges with y leave, whatever j is.
#[tactic(auto, using(crate::proofs::Laws::place_in, crate::proofs::Laws::zero_in))]
pub fn slab_along_k(s: Bands, e: Stretch, i: usize) -> Stretch
    requires { (e.to ≤ 256) × BandsFit s × (i < 256) }
    ensures { Cut e (λ k. across_y s k i) result }
{
    let x = i as i64;
    let edge01 = band_along_k(e, s.edge01.y, x, 0);
    let edge12 = band_along_k(edge01, s.edge12.y, x, 0);
    band_along_k(edge12, s.edge20.y, x, 0)
}

// In slab i, the places j that the products of the edges with z leave, whatever k is.
#[tactic(auto, using(crate::proofs::Laws::place_in, crate::proofs::Laws::zero_in))]
pub fn slab_along_j(s: Bands, e: Stretch, i: usize) -> Stretch
    requires { (e.to ≤ 256) × BandsFit s × (i < 256) }
    ensures { Cut e (across_z s i) result }
{
    let x = i as i64;
    let edge01 = band_along_j(e, s.edge01.z, x, 0);
    let edge12 = band_along_j(edge01, s.edge12.z, x, 0);
    band_along_j(edge12, s.edge20.z, x, 0)
}

// In row (i, j), the places k that the other directions leave: the normal, and the products with x.
#[tactic(auto, using(crate::proofs::Laws::place_in, crate::proofs::Laws::zero_in))]
pub fn rest_along_k(s: Bands, e: Stretch, i: usize, j: usize) -> Stretch
    requires { (e.to ≤ 256) × BandsFit s × (i < 256) × (j < 256) }
    ensures { Cut e (rest_along_k s i j) result }
{
    let x = i as i64;
    let y = j as i64;
    let normal = band_along_k(e, s.normal, x, y);
    let edge01 = band_along_k(normal, s.edge01.x, 0, y);
    let edge12 = band_along_k(edge01, s.edge12.x, 0, y);
    band_along_k(edge12, s.edge20.x, 0, y)
}

// ---- a block

// The cells of a block that the axes leave.
pub fn clip(axes: Three, b: Block) -> Block
    requires to_bound { (b.i.to ≤ 256) × (b.j.to ≤ 256) × (b.k.to ≤ 256) }
    requires three_fit { ThreeFit axes × Axial axes }
    ensures { Clipped axes b result }
{
    let i = band_along_i(b.i, axes.x, 0, 0);
    let j = band_along_j(b.j, axes.y, 0, 0);
    let k = band_along_k(b.k, axes.z, 0, 0);
    Block { i, j, k }
}
