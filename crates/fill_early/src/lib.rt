// Before the cells of a block are visited in their turn: a cell that is to walk, and from which no walk would
// change anything, is set at once, in memory order, and the table of groups that may act is brought down to
// those with a cell that may.
#![tactic(auto)]

ghost use Rattle.std.specs.Prelude.{true, false, cond, ◌||◌, ◌⊎◌, ◌≡◌, ℕ, ◌+◌, ◌*◌, ◌-◌, ◌≤◌, ◌<◌, eqb, length, get_or};
ghost use Rattle.grid.specs.Grid.{num, InGrid, Sheet};
ghost use Rattle.grid.specs.Labels.{SURFACE};
ghost use Rattle.fill_walks.specs.Scan.{is_walker, Countable};
ghost use Rattle.fill_walks.specs.Quiet.{Clear, Stops, Quiet};
ghost use Rattle.fill_groups.specs.Groups.{Covers};
ghost use Rattle.fill_early.specs.Early.{step_if, EarlySame, IdleUnless, InRow, InRows, Blocked, Grouped, Other, TellsNear, set_from};

use fill_walks::Phase;
use grid::{Axes, Cell, SURFACE, Stretch};

// Whether a walk that meets this label changes something.
fn changes(p: Phase, label: u8) -> bool
    ensures { result ≡ false → Stops p label }
{
    label == p.pass || (label == SURFACE && p.mark != SURFACE)
}

// A step that way, or none at the edge.
fn step_if(room: usize, stride: usize) -> usize
    ensures { result ≡ step_if room stride }
{
    if 0 < room { stride } else { 0 }
}

// Whether a walk up an axis or down it changes something: what stands `up` above n and `down` below.
fn changes_near(l: &[u8], p: Phase, n: usize, up: usize, down: usize) -> bool
    requires { (n + up < length l.now) × (down ≤ n) }
    ensures { result ≡ false → Stops p (get_or l.now (n + up) 0) × Stops p (get_or l.now (n - down) 0) }
{
    changes(p, l[n + up]) | changes(p, l[n - down])
}

// Whether a walk from c, whose number is n, may change something.
fn acts(l: &[u8], p: Phase, r: Axes, c: Cell, n: usize) -> bool
    requires sheet { Sheet r l.now }
    requires in_grid { InGrid r c × (n ≡ num r c) }
    ensures { result ≡ false → Quiet p r l.now c }
{
    let row = r.r0;
    let layer = r.r0 * r.r1;
    let i = c.i;
    let j = c.j;
    let k = c.k;
    let of_i = changes_near(l, p, n, step_if(r.r0 - (i + 1), 1), step_if(i, 1));
    let of_j = changes_near(l, p, n, step_if(r.r1 - (j + 1), row), step_if(j, row));
    let of_k = changes_near(l, p, n, step_if(r.r2 - (k + 1), layer), step_if(k, layer));
    of_i | of_j | of_k
}

// What came of some cells of a block: how many are walked by then, and whether one of them may act.
#[derive(Clone, Copy)]
struct Progress {
    walked: usize,
    acting: bool,
}

// The cells of a group: of these slabs, with one j, of these layers.
#[derive(Clone, Copy)]
struct Group {
    slabs: Stretch,
    j: usize,
    layers: Stretch,
}

// The cells of some slabs with one j and one k, cell by cell.
fn early_cells(
    l: &mut [u8],
    p: Phase,
    r: Axes,
    slabs: Stretch,
    j: usize,
    k: usize,
    before: usize,
) -> Progress
    requires sheet { Sheet r l.old × Clear p }
    requires from_le_to { (slabs.from ≤ slabs.to) × (slabs.to ≤ r.r0) × (j < r.r1) × (k < r.r2) × Countable before 256 }
    ensures early_same { EarlySame p r slabs.from slabs.to l.old before l.new result.walked }
    ensures from_bound { (result.walked + slabs.from ≤ before + slabs.to) × IdleUnless p r l.new result.acting (InRow slabs.from slabs.to j k) }
{
    let todo = p.todo;
    let row = j * r.r0 + k * (r.r0 * r.r1);
    let mut walked = before;
    let mut acting = false;
    for i in slabs.from..slabs.to {
        let n = i + row;
        let v = l[n];
        if fill_walks::is_idle(p, v) {
            continue;
        }
        if acts(l, p, r, Cell { i, j, k }, n) {
            acting = true;
            continue;
        }
        if v == todo {
            l[n] = p.done;
            walked += 1;
        }
    }
    Progress { walked, acting }
}

// ---- sixteen cells at a time, in loops without a branch, which a processor does with many at once

// The label beside the passed one that a walk changes; where there is none, the passed one.
fn changed_label(p: Phase) -> u8
    ensures { (result ≡ SURFACE) ⊎ (p.mark ≡ SURFACE) }
{
    if p.mark == SURFACE { p.pass } else { SURFACE }
}

fn either(label: u8, a: u8, b: u8) -> bool
    ensures { result ≡ (eqb label a || eqb label b) }
{
    (label == a) | (label == b)
}

// A function of its own: with an `if` in their place the loops below are built with branches, and take longer.
fn choose(b: bool, yes: u8, no: u8) -> u8
    ensures { result ≡ cond b yes no }
{
    if b { yes } else { no }
}

// Whether one of the sixteen labels from n on is a or b.
fn some_of(l: &[u8], n: usize, a: u8, b: u8) -> bool
    requires { n + 16 ≤ length l.now }
    ensures { result ≡ false → (d : ℕ) → d < 16 → Other a b (get_or l.now (n + d) 0) }
{
    let sixteen = &l[n..n + 16];
    let mut some = false;
    for label in sixteen {
        some |= either(*label, a, b);
    }
    some
}

// Adds to those of the sixteen cells from n on that are told already the ones with a label a or b `up` above or `down` below.
fn near(l: &[u8], n: usize, up: usize, down: usize, a: u8, b: u8, told: [u8; 16]) -> [u8; 16]
    requires { (n + up + 16 ≤ length l.now) × (down ≤ n) × (length told ≡ 16) }
    ensures { (length result ≡ 16) × TellsNear l.now n up down a b told result }
{
    let mut out = told;
    for d in 0..16 {
        let met = either(l[n + up + d], a, b) | either(l[n - down + d], a, b);
        out[d] = choose(met, 1, out[d]);
    }
    out
}

// Of the sixteen cells from n on: sets those that are to walk and are not told, and answers how many they were and whether
// one that is told is to walk or walks.
fn set_sixteen(l: &mut [u8], n: usize, todo: u8, done: u8, other: u8, told: [u8; 16]) -> Progress
    requires { (n + 16 ≤ length l.old) × (length told ≡ 16) }
    ensures acting_after { record { labels = l.new; set = result.walked; acting = result.acting } ≡ set_from todo done other told n 16 0 (record { labels = l.old; set = 0; acting = false }) }
    ensures walked_bound { result.walked ≤ 16 }
{
    let mut set = 0u8;
    let mut acting = false;
    for d in 0..16 {
        let v = l[n + d];
        let untold = told[d] == 0;
        let early = (v == todo) & untold;
        l[n + d] = choose(early, done, v);
        set += u8::from(early);
        acting |= either(v, todo, other) & !untold;
    }
    Progress {
        walked: usize::from(set),
        acting,
    }
}

// Sixteen cells along i from c on, whose number is n, with neighbours along i on both sides; one of them is to
// walk, or walks, which it does with the label `other`.
fn early_sixteen(
    l: &mut [u8],
    p: Phase,
    r: Axes,
    c: Cell,
    n: usize,
    other: u8,
    before: usize,
) -> Progress
    requires sheet { Sheet r l.old × Clear p }
    requires with_neighbours { (0 < c.i) × (c.i + 16 < r.r0) × (c.j < r.r1) × (c.k < r.r2) × Countable before 256 }
    requires numbered { (n ≡ num r c) × ((v : ℕ) → is_walker p.walkers v ≡ true → v ≡ other) }
    ensures early_same { EarlySame p r c.i (c.i + 16) l.old before l.new result.walked }
    ensures i_bound { (result.walked + c.i ≤ before + (c.i + 16)) × IdleUnless p r l.new result.acting (InRow c.i (c.i + 16) c.j c.k) }
{
    let j = c.j;
    let k = c.k;
    let row = r.r0;
    let layer = r.r0 * r.r1;
    let a = p.pass;
    let b = changed_label(p);
    let of_i = near(l, n, 1, 1, a, b, [0u8; 16]);
    let of_j = near(
        l,
        n,
        step_if(r.r1 - (j + 1), row),
        step_if(j, row),
        a,
        b,
        of_i,
    );
    let of_k = near(
        l,
        n,
        step_if(r.r2 - (k + 1), layer),
        step_if(k, layer),
        a,
        b,
        of_j,
    );
    let a = set_sixteen(l, n, p.todo, p.done, other, of_k);
    let walked = before + a.walked;
    Progress {
        walked,
        acting: a.acting,
    }
}

// Sixteen such cells, of which one may be to walk or walk.
fn early_some(l: &mut [u8], p: Phase, r: Axes, c: Cell, before: usize) -> Progress
    requires sheet { Sheet r l.old × Clear p }
    requires with_neighbours { (0 < c.i) × (c.i + 16 < r.r0) × (c.j < r.r1) × (c.k < r.r2) × Countable before 256 }
    ensures early_same { EarlySame p r c.i (c.i + 16) l.old before l.new result.walked }
    ensures i_bound { (result.walked + c.i ≤ before + (c.i + 16)) × IdleUnless p r l.new result.acting (InRow c.i (c.i + 16) c.j c.k) }
{
    let n = grid::number(r, c);
    let todo = p.todo;
    let other = p.walkers.unwrap_or(todo);
    if some_of(l, n, todo, other) {
        return early_sixteen(l, p, r, c, n, other, before);
    }
    Progress {
        walked: before,
        acting: false,
    }
}

// Whether these slabs are sixteen with others on both sides.
fn sixteen_inside(first: usize, end: usize, all: usize) -> bool
    requires { first ≤ end }
    ensures { result ≡ true → (0 < first) × (end ≡ first + 16) × (end < all) }
{
    0 < first && end - first == 16 && end < all
}

// The cells of some slabs with one j and one k.
fn early_row(
    l: &mut [u8],
    p: Phase,
    r: Axes,
    slabs: Stretch,
    j: usize,
    k: usize,
    before: usize,
) -> Progress
    requires sheet { Sheet r l.old × Clear p }
    requires from_le_to { (slabs.from ≤ slabs.to) × (slabs.to ≤ r.r0) × (j < r.r1) × (k < r.r2) × Countable before 256 }
    ensures early_same { EarlySame p r slabs.from slabs.to l.old before l.new result.walked }
    ensures from_bound { (result.walked + slabs.from ≤ before + slabs.to) × IdleUnless p r l.new result.acting (InRow slabs.from slabs.to j k) }
{
    let first = slabs.from;
    let end = slabs.to;
    if sixteen_inside(first, end, r.r0) {
        return early_some(l, p, r, Cell { i: first, j, k }, before);
    }
    early_cells(l, p, r, slabs, j, k, before)
}

// The cells of a group.
fn early_rows(l: &mut [u8], p: Phase, r: Axes, g: Group, before: usize) -> Progress
    requires sheet { Sheet r l.old × Clear p }
    requires from_le_to { (g.slabs.from ≤ g.slabs.to) × (g.slabs.to ≤ r.r0) × (g.j < r.r1) × (g.layers.from ≤ g.layers.to) × (g.layers.to ≤ r.r2) × Countable before 65536 }
    ensures early_same { EarlySame p r g.slabs.from g.slabs.to l.old before l.new result.walked }
    ensures from_bound { (result.walked + 256 * g.layers.from ≤ before + 256 * g.layers.to) × IdleUnless p r l.new result.acting (InRows g.slabs.from g.slabs.to g.j g.layers.from g.layers.to) }
{
    let slabs = g.slabs;
    let j = g.j;
    let mut walked = before;
    let mut acting = false;
    for k in g.layers.from..g.layers.to {
        let a = early_row(l, p, r, slabs, j, k, walked);
        walked = a.walked;
        acting |= a.acting;
    }
    Progress { walked, acting }
}

// A group of a block, if it is raised: it stays so only if a cell of it may act.
fn early_group(l: &mut [u8], table: &mut [u8], p: Phase, r: Axes, g: Group, before: usize) -> usize
    requires sheet { Sheet r l.old × Clear p × Covers p r l.old table.old }
    requires grouped { Grouped r g.slabs.from g.slabs.to g.layers.from g.layers.to × (g.j < r.r1) × Countable before 65536 }
    ensures early_same { EarlySame p r g.slabs.from g.slabs.to l.old before l.new result }
    ensures upper_bound { (result ≤ before + 4096) × Covers p r l.new table.new }
{
    let n = fill_groups::place(g.slabs.from, g.j, g.layers.from);
    if table[n] == 0 {
        return before;
    }
    let a = early_rows(l, p, r, g, before);
    table[n] = u8::from(a.acting);
    a.walked
}

// The groups of a block with these layers.
fn early_groups(
    l: &mut [u8],
    table: &mut [u8],
    p: Phase,
    r: Axes,
    slabs: Stretch,
    layers: Stretch,
    before: usize,
) -> usize
    requires sheet { Sheet r l.old × Clear p × Covers p r l.old table.old }
    requires grouped { Grouped r slabs.from slabs.to layers.from layers.to × Countable before 2097152 }
    ensures early_same { EarlySame p r slabs.from slabs.to l.old before l.new result }
    ensures upper_bound { (result ≤ before + 1048576) × Covers p r l.new table.new }
{
    let mut walked = before;
    for j in 0..r.r1 {
        walked = early_group(l, table, p, r, Group { slabs, j, layers }, walked);
    }
    walked
}

// A whole block, which is some slabs.
pub fn set_early(
    l: &mut [u8],
    table: &mut [u8],
    p: Phase,
    r: Axes,
    slabs: Stretch,
    before: usize,
) -> usize
    requires sheet { Sheet r l.old × Clear p × Covers p r l.old table.old }
    requires blocked { Blocked r slabs.from slabs.to × Countable before 33554432 }
    ensures early_same { EarlySame p r slabs.from slabs.to l.old before l.new result }
    ensures upper_bound { (result ≤ before + 16777216) × Covers p r l.new table.new }
{
    let all = r.r2;
    let mut walked = before;
    for g in 0..all.div_ceil(fill_groups::GROUP) {
        let from = fill_groups::GROUP * g;
        let to = (from + fill_groups::GROUP).min(all);
        walked = early_groups(l, table, p, r, slabs, Stretch { from, to }, walked);
    }
    walked
}
