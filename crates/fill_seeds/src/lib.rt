// The seeding of a fill: all border cells with label 0 become 1.
#![tactic(auto)]

ghost use Rattle.std.specs.Prelude.{◌≡◌, ◌+◌, ◌*◌, ◌≤◌, ◌<◌, length};
ghost use Rattle.grid.specs.Grid.{InGrid, num, Sheet};
ghost use Rattle.grid.specs.Passes.{Within};
ghost use Rattle.fill_seeds.specs.Seeds.{seeded, seed_at, Alike};

use grid::{Axes, Cell, OUTSIDE_TO_WALK, UNDEFINED};

// Cells with consecutive numbers, all of them border cells or none, as c is.
fn seed_part(labels: &mut [u8], r: Axes, c: Cell, from: usize, to: usize)
    requires from_le_to { (from ≤ to) × (to ≤ length labels.old) }
    requires in_grid { InGrid r c × Alike r c from to }
    ensures { Within from to (seed_at r) labels.old labels.new }
{
    if grid::on_border(r, c) {
        grid::replace(labels, from, to, UNDEFINED, UNDEFINED, OUTSIDE_TO_WALK);
    }
}

// A row along i, whose first cell's number is `first`: that cell, those between, and the last.
fn seed_row(labels: &mut [u8], r: Axes, j: usize, k: usize, first: usize)
    requires sheet { Sheet r labels.old }
    requires in_grid { InGrid r (record { i = 0; j = j; k = k }) × (first ≡ num r (record { i = 0; j = j; k = k })) }
    ensures { Within first (first + r.r0) (seed_at r) labels.old labels.new }
{
    let n = r.r0;
    seed_part(labels, r, Cell { i: 0, j, k }, first, first + 1);
    if n == 1 {
        return;
    }
    let last = first + n - 1;
    seed_part(labels, r, Cell { i: 1, j, k }, first + 1, last);
    seed_part(labels, r, Cell { i: n - 1, j, k }, last, last + 1);
}

fn seed_layer(labels: &mut [u8], r: Axes, k: usize, first: usize)
    requires sheet { Sheet r labels.old }
    requires k_lt_r2 { (k < r.r2) × (first ≡ k * (r.r0 * r.r1)) }
    ensures { Within first (first + r.r0 * r.r1) (seed_at r) labels.old labels.new }
{
    for j in 0..r.r1 {
        seed_row(labels, r, j, k, first + j * r.r0);
    }
}

pub fn seed(labels: &mut [u8], r: Axes)
    requires { Sheet r labels.old }
    ensures { labels.new ≡ seeded r labels.old }
{
    let layer = r.r0 * r.r1;
    for k in 0..r.r2 {
        seed_layer(labels, r, k, k * layer);
    }
}
