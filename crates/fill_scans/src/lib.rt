// One phase of a fill: scans over the whole grid until one walked none. A scan goes block by block of slabs;
// in each, what needs no walk is set first (the crate `fill_early`), and then the groups of cells that may act
// are visited in their turn (the crate `fill_visits`).
#![tactic(auto)]

ghost use Rattle.std.specs.Prelude.{◌≡◌, ◌+◌, ◌*◌, ◌-◌, ◌≤◌, ◌<◌};
ghost use Rattle.grid.specs.Grid.{Sheet};
ghost use Rattle.fill_walks.specs.Scan.{rowed, slabbed, in_turn, scanned, Countable};
ghost use Rattle.fill_walks.specs.Run.{Run};
ghost use Rattle.fill_walks.specs.Quiet.{Clear};
ghost use Rattle.fill_groups.specs.Groups.{Covers};
ghost use Rattle.fill_early.specs.Early.{Blocked};

use fill_walks::Phase;
use grid::{Axes, Cell, Stretch};

// The groups of row (i, j) that are raised.
fn scan_row(
    l: &mut [u8],
    table: &mut [u8],
    p: Phase,
    r: Axes,
    i: usize,
    j: usize,
    before: usize,
) -> usize
    requires sheet { Sheet r l.old × Clear p × Covers p r l.old table.old }
    requires i_lt_r0 { (i < r.r0) × (j < r.r1) × Countable before 256 }
    ensures result_after { record { labels = l.new; walked = result } ≡ rowed p r i j (record { labels = l.old; walked = before }) }
    ensures upper_bound { (result ≤ before + 256) × Covers p r l.new table.new }
{
    let all = r.r2;
    let mut walked = before;
    for g in 0..all.div_ceil(fill_groups::GROUP) {
        let from = fill_groups::GROUP * g;
        if table[fill_groups::place(i, j, from)] == 0 {
            continue;
        }
        let to = (from + fill_groups::GROUP).min(all);
        walked = fill_visits::visit_stretch(l, table, p, r, Cell { i, j, k: from }, to, walked);
    }
    walked
}

fn scan_slab(l: &mut [u8], table: &mut [u8], p: Phase, r: Axes, i: usize, before: usize) -> usize
    requires sheet { Sheet r l.old × Clear p × Covers p r l.old table.old }
    requires i_lt_r0 { (i < r.r0) × Countable before 65536 }
    ensures result_after { record { labels = l.new; walked = result } ≡ slabbed p r i (record { labels = l.old; walked = before }) }
    ensures upper_bound { (result ≤ before + 65536) × Covers p r l.new table.new }
{
    let mut walked = before;
    for j in 0..r.r1 {
        walked = scan_row(l, table, p, r, i, j, walked);
    }
    walked
}

fn scan_slabs(
    l: &mut [u8],
    table: &mut [u8],
    p: Phase,
    r: Axes,
    slabs: Stretch,
    before: usize,
) -> usize
    requires sheet { Sheet r l.old × Clear p × Covers p r l.old table.old }
    requires from_le_to { (slabs.from ≤ slabs.to) × (slabs.to ≤ r.r0) × Countable before 16777216 }
    ensures result_after { record { labels = l.new; walked = result } ≡ in_turn (λ i. slabbed p r i) (slabs.to - slabs.from) slabs.from (record { labels = l.old; walked = before }) }
    ensures from_bound { (result + 65536 * slabs.from ≤ before + 65536 * slabs.to) × Covers p r l.new table.new }
{
    let mut walked = before;
    for i in slabs.from..slabs.to {
        walked = scan_slab(l, table, p, r, i, walked);
    }
    walked
}

// The slabs of a block; where no group of it is raised there is nothing to do.
fn scan_block(
    l: &mut [u8],
    table: &mut [u8],
    p: Phase,
    r: Axes,
    slabs: Stretch,
    before: usize,
) -> usize
    requires sheet { Sheet r l.old × Clear p × Covers p r l.old table.old }
    requires blocked { Blocked r slabs.from slabs.to × Countable before 33554432 }
    ensures result_after { record { labels = l.new; walked = result } ≡ in_turn (λ i. slabbed p r i) (slabs.to - slabs.from) slabs.from (record { labels = l.old; walked = before }) }
    ensures upper_bound { (result ≤ before + 33554432) × Covers p r l.new table.new }
{
    let first = slabs.from;
    if !fill_groups::some_raised(table, first) {
        return before;
    }
    let walked = fill_early::set_early(l, table, p, r, slabs, before);
    if !fill_groups::some_raised(table, first) {
        return walked;
    }
    scan_slabs(l, table, p, r, slabs, walked)
}

fn scan(l: &mut [u8], table: &mut [u8], p: Phase, r: Axes) -> usize
    requires { Sheet r l.old × Clear p × Covers p r l.old table.old }
    ensures result_after { record { labels = l.new; walked = result } ≡ scanned p r l.old }
    ensures covers { Covers p r l.new table.new }
{
    let all = r.r0;
    let mut walked = 0;
    let mut from = 0;
    for b in 0..=(all - 1).div_ceil(fill_groups::GROUP) {
        let to = (fill_groups::GROUP * b + 1).min(all);
        walked = scan_block(l, table, p, r, Stretch { from, to }, walked);
        from = to;
    }
    walked
}

// Scans until one walked none; answers how many scans there were.
pub fn run_phase(l: &mut [u8], p: Phase, r: Axes) -> usize
    requires sheet { Sheet r l.old }
    requires clear { Clear p }
    ensures { Run p r l.old l.new result }
{
    let mut table = [1u8; fill_groups::TABLE_LENGTH];
    let mut scans = 0usize;
    loop {
        let walked = scan(l, &mut table, p, r);
        scans += 1;
        let done = walked == 0;
        if done {
            return scans;
        }
    }
}
