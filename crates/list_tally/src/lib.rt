// How many pairs a list has: a surface cell and a triangle that has it as a candidate and touches it. They
// are counted in 64 bits before anything is written, over the labels, in memory order.
#![tactic(auto)]

ghost use Rattle.std.specs.Prelude.{◌≡◌, ◌≤◌, ◌<◌};
ghost use Rattle.grid.specs.Grid.{Sheet};
ghost use Rattle.touch.specs.Bands.{BandsFit};
ghost use Rattle.marking_mesh.specs.Mesh.{triangles};
ghost use Rattle.marking.specs.Painted.{left_in, row_of, layer_of, AxesLeave, RowRest, Ready};
ghost use Rattle.list_tally.specs.Pairs.{joins, pair_count, surface_in, size_of};

use grid::{Axes, Block, Cell, Placement, SURFACE, Stretch};
use touch::Bands;

// The surface cells of a row that thirteen bands leave. What its layer has cut is not tested again.
fn count_row(labels: &[u8], s: Bands, r: Axes, e: Stretch, j: usize, k: usize) -> usize
    requires sheet { Sheet r labels.now }
    requires bands_fit { BandsFit s × RowRest s e j k }
    requires to_le_r0 { (e.to ≤ r.r0) × (j < r.r1) × (k < r.r2) }
    ensures { result ≡ size_of r (surface_in r labels.now (left_in (row_of e j k) s)) }
{
    let left = marking_cuts::rest_along_i(s, e, j, k);
    let mut n = 0;
    for i in left.from..left.to {
        n += usize::from(labels[grid::number(r, Cell { i, j, k })] == SURFACE);
    }
    n
}

fn count_layer(labels: &[u8], s: Bands, r: Axes, b: Block, k: usize) -> usize
    requires sheet { Sheet r labels.now }
    requires bands_fit { BandsFit s × AxesLeave s (layer_of b k) }
    requires to_le_r0 { (b.i.to ≤ r.r0) × (b.j.to ≤ r.r1) × (k < r.r2) }
    ensures { result ≡ size_of r (surface_in r labels.now (left_in (layer_of b k) s)) }
{
    let e = marking_cuts::layer_along_i(s, b.i, k);
    let f = marking_cuts::layer_along_j(s, b.j, k);
    let mut n = 0;
    for j in f.from..f.to {
        n += count_row(labels, s, r, e, j, k);
    }
    n
}

fn count_block(labels: &[u8], s: Bands, r: Axes, b: Block) -> usize
    requires sheet { Sheet r labels.now }
    requires bands_fit { BandsFit s × AxesLeave s b }
    requires to_le_r0 { (b.i.to ≤ r.r0) × (b.j.to ≤ r.r1) × (b.k.to ≤ r.r2) }
    ensures { result ≡ size_of r (surface_in r labels.now (left_in b s)) }
{
    let mut n = 0;
    for k in b.k.from..b.k.to {
        n += count_layer(labels, s, r, b, k);
    }
    n
}

// The pairs of triangle t.
fn count_triangle(
    labels: &[u8],
    ps: &[f32],
    ts: &[u32],
    r: Axes,
    placement: Placement,
    t: usize,
) -> usize
    requires sheet { Sheet r labels.now }
    requires ready { Ready ps.now ts.now r placement }
    requires t_bound { t < triangles ts.now }
    ensures { result ≡ size_of r (joins ps.now ts.now r placement labels.now t) }
{
    let s = marking::sweep_of(ps, ts, r, placement, t);
    count_block(labels, s.bands, r, s.block)
}

// The pairs of all triangles.
pub fn count_pairs(labels: &[u8], ps: &[f32], ts: &[u32], r: Axes, placement: Placement) -> u64
    requires sheet { Sheet r labels.now }
    requires ready { Ready ps.now ts.now r placement }
    ensures { result ≡ pair_count ps.now ts.now r placement labels.now }
{
    let mut n = 0;
    for t in 0..ts.len() / 3 {
        n += count_triangle(labels, ps, ts, r, placement, t) as u64;
    }
    n
}
