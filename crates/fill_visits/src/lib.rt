// Visits of cells in their turn in a scan: each walks, and what it passes is raised in the table of groups
// that may act (the crate `fill_groups`), so that groups that are not raised can be passed over.
#![tactic(auto)]

ghost use Rattle.std.specs.Prelude.{◌≡◌, ◌+◌, ◌*◌, ◌-◌, ◌≤◌, ◌<◌};
ghost use Rattle.grid.specs.Grid.{num, InGrid, Sound, Sheet};
ghost use Rattle.fill_walks.specs.Scan.{walked_from, visited, in_turn, Countable};
ghost use Rattle.fill_walks.specs.Rays.{walked_both};
ghost use Rattle.fill_walks.specs.Quiet.{Clear};
ghost use Rattle.fill_groups.specs.Groups.{coordinate, extent, stride, Covers};

use fill_groups::Axis;
use fill_walks::Phase;
use grid::{Axes, Cell};

// A line of cells along an axis: how far apart their numbers are, where a cell stands on it, and of how many.
#[derive(Clone, Copy)]
struct Line {
    stride: usize,
    at: usize,
    of: usize,
}

fn line_along(axis: Axis, r: Axes, c: Cell) -> Line
    requires { Sound r }
    ensures { result ≡ record { stride = stride axis r; at = coordinate axis c; of = extent axis r } }
{
    match axis {
        Axis::I => Line {
            stride: 1,
            at: c.i,
            of: r.r0,
        },
        Axis::J => Line {
            stride: r.r0,
            at: c.j,
            of: r.r1,
        },
        Axis::K => Line {
            stride: r.r0 * r.r1,
            at: c.k,
            of: r.r2,
        },
    }
}

// Walks from a cell, whose number is `n`, up an axis and down; the groups of what they pass are raised.
fn along(l: &mut [u8], table: &mut [u8], p: Phase, r: Axes, axis: Axis, c: Cell, n: usize)
    requires sheet { Sheet r l.old × Clear p × Covers p r l.old table.old }
    requires in_grid { InGrid r c × (n ≡ num r c) }
    ensures l_after { l.new ≡ walked_both p n (stride axis r) (coordinate axis c) (extent axis r) l.old }
    ensures covers { Covers p r l.new table.new }
{
    let a = line_along(axis, r, c);
    let w = fill_walks::both_ways(l, p, n, a.stride, a.at, a.of);
    fill_groups::raise_along(table, axis, c, a.at - w.down, a.at + w.up);
}

// The six ways from a cell, whose number is `n`.
fn walks(l: &mut [u8], table: &mut [u8], p: Phase, r: Axes, c: Cell, n: usize)
    requires sheet { Sheet r l.old × Clear p × Covers p r l.old table.old }
    requires in_grid { InGrid r c × (n ≡ num r c) }
    ensures l_after { l.new ≡ walked_from p r c l.old }
    ensures covers { Covers p r l.new table.new }
{
    along(l, table, p, r, Axis::K, c, n);
    along(l, table, p, r, Axis::J, c, n);
    along(l, table, p, r, Axis::I, c, n);
}

// Visits a cell, whose number is `n`; answers how many cells are walked by then.
fn visit(
    l: &mut [u8],
    table: &mut [u8],
    p: Phase,
    r: Axes,
    c: Cell,
    n: usize,
    walked: usize,
) -> usize
    requires sheet { Sheet r l.old × Clear p × Covers p r l.old table.old }
    requires in_grid { InGrid r c × (n ≡ num r c) × Countable walked 1 }
    ensures result_after { record { labels = l.new; walked = result } ≡ visited p r c (record { labels = l.old; walked = walked }) }
    ensures upper_bound { (result ≤ walked + 1) × Covers p r l.new table.new }
{
    let todo = p.todo;
    let v = l[n];
    if v == todo {
        l[n] = p.done;
        walks(l, table, p, r, c, n);
        return walked + 1;
    }
    if fill_walks::is_walker(p.walkers, v) {
        walks(l, table, p, r, c, n);
    }
    walked
}

// The cells of a row, along k, from `first` up to, not including, the one at `to`.
pub fn visit_stretch(
    l: &mut [u8],
    table: &mut [u8],
    p: Phase,
    r: Axes,
    first: Cell,
    to: usize,
    before: usize,
) -> usize
    requires sheet { Sheet r l.old × Clear p × Covers p r l.old table.old }
    requires i_lt_r0 { (first.i < r.r0) × (first.j < r.r1) × (first.k ≤ to) × (to ≤ r.r2) × Countable before (to - first.k) }
    ensures result_after { record { labels = l.new; walked = result } ≡ in_turn (λ k. visited p r (record { i = first.i; j = first.j; k = k })) (to - first.k) first.k (record { labels = l.old; walked = before }) }
    ensures k_bound { (result + first.k ≤ before + to) × Covers p r l.new table.new }
{
    let i = first.i;
    let j = first.j;
    let layer = r.r0 * r.r1;
    let mut walked = before;
    let mut n = i + j * r.r0 + first.k * layer;
    for k in first.k..to {
        if !fill_walks::is_idle(p, l[n]) {
            walked = visit(l, table, p, r, Cell { i, j, k }, n, walked);
        }
        n += layer;
    }
    walked
}
