// The candidates of a triangle: along each axis, the cells from one before the least of its vertices' cells up
// to, not including, one past the greatest.
#![tactic(auto)]

ghost use Rattle.std.specs.Prelude.{◌≡◌, true, pos};
ghost use Rattle.grid.specs.Grid.{Axis, Sound};
ghost use Rattle.numbers.specs.Rounding.{cell_of};
ghost use Rattle.marking_mesh.specs.Mesh.{on_axis, first_of, past_of};
ghost use Rattle.marking_mesh.specs.Ranges.{OnCells, Held, StretchOf, BlockOf};

use grid::{Axes, Block, Stretch};

// max(least - 1, 0) of three cells.
fn first_of(a: i64, b: i64, c: i64) -> usize
    requires { Held a × Held b × Held c }
    ensures { pos result ≡ first_of a b c }
{
    (a.min(b).min(c) - 1).max(0) as usize
}

// min(greatest + 1, axis) of three cells.
fn past_of(axis: usize, a: i64, b: i64, c: i64) -> usize
    requires held { Held a × Held b × Held c }
    requires axis { Axis axis }
    ensures { pos result ≡ past_of axis a b c }
{
    (a.max(b).max(c) + 1).min(axis as i64) as usize
}

// The candidates along an axis of three vertices that fall on its cells.
fn ends_of(axis: usize, x: i64, y: i64, z: i64) -> Stretch
    requires all_on_axis { (on_axis axis x ≡ true) × (on_axis axis y ≡ true) × (on_axis axis z ≡ true) }
    requires axis { Axis axis }
    ensures { StretchOf axis (cell_of x) (cell_of y) (cell_of z) result }
{
    let a = numbers::cell_of(x);
    let b = numbers::cell_of(y);
    let c = numbers::cell_of(z);
    let from = first_of(a, b, c);
    let to = past_of(axis, a, b, c);
    Stretch { from, to }
}

// The candidates of a triangle whose vertices fall on cells.
pub fn candidates(t: [[i64; 3]; 3], r: Axes) -> Block
    requires on_cells { OnCells r t }
    requires sound { Sound r }
    ensures { BlockOf t r result }
{
    let i = ends_of(r.r0, t[0][0], t[1][0], t[2][0]);
    let j = ends_of(r.r1, t[0][1], t[1][1], t[2][1]);
    let k = ends_of(r.r2, t[0][2], t[1][2], t[2][2]);
    Block { i, j, k }
}
