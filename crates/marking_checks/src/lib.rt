// The refusals of lent points, triangles, grid and placement.
#![tactic(auto)]

ghost use Rattle.std.specs.Prelude.{Ok, ◌≡◌, true, ℕ, ◌/◌, ◌<◌, ltb};
ghost use Rattle.grid.specs.Answers.{fault_if};
ghost use Rattle.grid.specs.First.{first_not};
ghost use Rattle.grid.specs.Grid.{Sound};
ghost use Rattle.sizing.specs.Sizing.{points};
ghost use Rattle.marking_mesh.specs.Mesh.{vertex_of, on_grid};
ghost use Rattle.marking_mesh.specs.Faults.{origin_fault, names, missing_fault, lent_fault, off_fault, lengths_fault, lent_numbers_fault, input_fault, mesh_fault};
ghost use Rattle.marking_mesh.specs.Ranges.{Named};

use grid::{Axes, Placement, Reason, Refusal};

// Refusal 3 of a lent origin, whose numbers come first.
pub fn origin_fault(placement: Placement) -> Result<(), Refusal>
    ensures { result ≡ origin_fault placement }
{
    let origin = [placement.x, placement.y, placement.z];
    sizing_points::numbers_fault(&origin, 0)
}

// The fault of corner k of a list of this length, if it is within it: the place is its triangle.
fn corner_fault(reason: Reason, k: usize, len: usize) -> Result<(), Refusal>
    ensures { result ≡ fault_if (ltb k len) reason (k / 3) (Ok tt) }
{
    if k < len {
        return Err(reason.at(k / 3));
    }
    Ok(())
}

// The place of the first of some numbers that names none of n things, or the length.
pub fn first_missing(ts: &[u32], n: usize) -> usize
    ensures { result ≡ first_not (names n) ts.now }
{
    for (k, v) in ts.iter().enumerate() {
        if n <= *v as usize {
            return k;
        }
    }
    ts.len()
}

// Refusal 4 of triangles that name one of n points.
pub fn missing_fault(ts: &[u32], n: usize) -> Result<(), Refusal>
    ensures { result ≡ missing_fault n ts.now }
{
    corner_fault(Reason::MissingName, first_missing(ts, n), ts.len())
}

// Refusal 5 of a lent scale and its reciprocal.
pub fn lent_fault(placement: Placement) -> Result<(), Refusal>
    ensures { result ≡ lent_fault placement }
{
    let scale = placement.scale;
    let reciprocal = placement.reciprocal;
    if (0.000003814697265625 <= scale) & (scale <= 2097152.0) & (reciprocal == 1.0 / scale) {
        return Ok(());
    }
    Err(Reason::BadSize.at(0))
}

// Refusals 1 and 2.
fn lengths_fault(ps: &[f32], ts: &[u32]) -> Result<(), Refusal>
    ensures { result ≡ lengths_fault ps.now ts.now }
{
    sizing_points::length_fault(ps.len())?;
    sizing_points::length_fault(ts.len())?;
    sizing_points::none_fault(ps.len())
}

// Refusal 3, the origin first.
fn lent_numbers_fault(ps: &[f32], placement: Placement) -> Result<(), Refusal>
    ensures { result ≡ lent_numbers_fault ps.now placement }
{
    origin_fault(placement)?;
    sizing_points::numbers_fault(ps, 3)
}

// Refusals 1 to 5, 8 and 9 of a mesh on a grid with a label buffer of this length.
fn input_fault(
    ps: &[f32],
    ts: &[u32],
    r: Axes,
    placement: Placement,
    len: usize,
) -> Result<(), Refusal>
    ensures { result ≡ input_fault ps.now ts.now r placement len }
{
    lengths_fault(ps, ts)?;
    lent_numbers_fault(ps, placement)?;
    missing_fault(ts, ps.len() / 3)?;
    lent_fault(placement)?;
    grid::grid_fault(r, len)
}

// The place of the first corner that falls on no cell, or the length.
fn first_off(ps: &[f32], ts: &[u32], r: Axes, placement: Placement) -> usize
    requires named { Named ps.now ts.now }
    requires sound { Sound r }
    ensures { result ≡ first_not (λ v. on_grid r (vertex_of ps.now placement v)) ts.now }
{
    for (k, v) in ts.iter().enumerate() {
        if !marking_mesh::on_grid(marking_mesh::vertex_of(ps, placement, *v as usize), r) {
            return k;
        }
    }
    ts.len()
}

// Whether the points are at most so many and each falls on a cell. Then no corner is off the grid, and fewer
// points than corners are asked; `false` tells nothing.
fn few_and_on(ps: &[f32], r: Axes, placement: Placement, most: usize) -> bool
    requires { Sound r }
    ensures { result ≡ true → (v : ℕ) → v < points ps.now → on_grid r (vertex_of ps.now placement v) ≡ true }
{
    let n = ps.len() / 3;
    if most < n {
        return false;
    }
    for v in 0..n {
        if !marking_mesh::on_grid(marking_mesh::vertex_of(ps, placement, v), r) {
            return false;
        }
    }
    true
}

// Refusal 10.
fn off_fault(ps: &[f32], ts: &[u32], r: Axes, placement: Placement) -> Result<(), Refusal>
    requires named { Named ps.now ts.now }
    requires sound { Sound r }
    ensures { result ≡ off_fault ps.now ts.now r placement }
{
    if few_and_on(ps, r, placement, ts.len()) {
        return Ok(());
    }
    corner_fault(Reason::OffGrid, first_off(ps, ts, r, placement), ts.len())
}

// Refusals 1 to 5, 8, 9 and 10 of a mesh on a grid with a label buffer of this length.
pub fn mesh_fault(
    ps: &[f32],
    ts: &[u32],
    r: Axes,
    placement: Placement,
    len: usize,
) -> Result<(), Refusal>
    ensures { result ≡ mesh_fault ps.now ts.now r placement len }
{
    input_fault(ps, ts, r, placement, len)?;
    off_fault(ps, ts, r, placement)
}
