// Marking: which cells the steel passes through.
#![tactic(auto)]

ghost use Rattle.std.specs.Prelude.{◌≡◌, ◌≤◌, ◌<◌};
ghost use Rattle.grid.specs.Grid.{Sound, Sheet};
ghost use Rattle.touch.specs.Bands.{BandsFit};
ghost use Rattle.marking_mesh.specs.Mesh.{triangles};
ghost use Rattle.marking.specs.Marked.{hits, is_surface, mark_answer, mark_labels};
ghost use Rattle.marking.specs.Painted.{Painted, left_in, row_of, layer_of, AxesLeave, RowRest, Ready, Sweeps};

use grid::{Axes, Block, Cell, Placement, Refusal, SURFACE, Stretch, UNDEFINED};
use touch::Bands;

// Where the cells of a triangle lie.
#[derive(Clone, Copy)]
pub struct Sweep {
    pub block: Block,
    pub bands: Bands,
}

// Of a row the part that the bands leave, in memory order. What its layer has cut is not tested again.
fn mark_row(labels: &mut [u8], s: Bands, r: Axes, e: Stretch, j: usize, k: usize)
    requires sheet { Sheet r labels.old }
    requires bands_fit { BandsFit s × RowRest s e j k }
    requires to_le_r0 { (e.to ≤ r.r0) × (j < r.r1) × (k < r.r2) }
    ensures { Painted r (left_in (row_of e j k) s) labels.old labels.new }
{
    let left = marking_cuts::rest_along_i(s, e, j, k);
    for i in left.from..left.to {
        labels[grid::number(r, Cell { i, j, k })] = SURFACE;
    }
}

// The rows of a layer. What does not depend on i, or not on j, is cut here.
fn mark_layer(labels: &mut [u8], s: Bands, r: Axes, b: Block, k: usize)
    requires sheet { Sheet r labels.old }
    requires bands_fit { BandsFit s × AxesLeave s (layer_of b k) }
    requires to_le_r0 { (b.i.to ≤ r.r0) × (b.j.to ≤ r.r1) × (k < r.r2) }
    ensures { Painted r (left_in (layer_of b k) s) labels.old labels.new }
{
    let e = marking_cuts::layer_along_i(s, b.i, k);
    let f = marking_cuts::layer_along_j(s, b.j, k);
    for j in f.from..f.to {
        mark_row(labels, s, r, e, j, k);
    }
}

fn mark_block(labels: &mut [u8], s: Bands, r: Axes, b: Block)
    requires sheet { Sheet r labels.old }
    requires bands_fit { BandsFit s × AxesLeave s b }
    requires to_le_r0 { (b.i.to ≤ r.r0) × (b.j.to ≤ r.r1) × (b.k.to ≤ r.r2) }
    ensures { Painted r (left_in b s) labels.old labels.new }
{
    for k in b.k.from..b.k.to {
        mark_layer(labels, s, r, b, k);
    }
}

// The candidates of triangle t that the axes leave, and its bands, which leave of them the cells that it
// touches: what depends on the triangle alone is computed here, once.
pub fn sweep_of(ps: &[f32], ts: &[u32], r: Axes, placement: Placement, t: usize) -> Sweep
    requires sound { Sound r }
    requires ready { Ready ps.now ts.now r placement }
    requires t_bound { t < triangles ts.now }
    ensures { Sweeps ps.now ts.now r placement t result }
{
    let triangle = marking_mesh::triangle_of(ps, ts, placement, t);
    let all = marking_candidates::candidates(triangle, r);
    let bands = touch_bands::bands_of(triangle);
    let block = marking_cuts::clip(bands.axes, all);
    Sweep { block, bands }
}

fn mark_triangle(labels: &mut [u8], ps: &[f32], ts: &[u32], r: Axes, placement: Placement, t: usize)
    requires sheet { Sheet r labels.old }
    requires ready { Ready ps.now ts.now r placement }
    requires t_bound { t < triangles ts.now }
    ensures { Painted r (hits ps.now ts.now r placement t) labels.old labels.new }
{
    let s = sweep_of(ps, ts, r, placement, t);
    mark_block(labels, s.bands, r, s.block);
}

fn mark_triangles(labels: &mut [u8], ps: &[f32], ts: &[u32], r: Axes, placement: Placement)
    requires sheet { Sheet r labels.old }
    requires ready { Ready ps.now ts.now r placement }
    ensures { Painted r (is_surface ps.now ts.now r placement) labels.old labels.new }
{
    for t in 0..ts.len() / 3 {
        mark_triangle(labels, ps, ts, r, placement, t);
    }
}

// Marks the cells that triangles touch with 8 and every other cell with 0, or refuses and writes nothing.
pub fn mark(
    points: &[f32],
    triangles: &[u32],
    r: Axes,
    placement: Placement,
    labels: &mut [u8],
) -> Result<(), Refusal>
    ensures answer { result ≡ mark_answer points.now triangles.now r placement labels.old }
    ensures labels_after { labels.new ≡ mark_labels points.now triangles.now r placement labels.old }
{
    marking_checks::mesh_fault(points, triangles, r, placement, labels.len())?;
    labels.fill(UNDEFINED);
    mark_triangles(labels, points, triangles, r, placement);
    Ok(())
}
