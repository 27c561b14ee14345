// A closing: the neighbours of c, whose number is n, are settled one after the other. One that has a way to the
// border takes the number of its way as its label, and so does all that the trip to the border met; later
// trips end there, so that no cell is travelled over twice in search of it. At last the marks are 6 again.
#![tactic(auto)]

ghost use Rattle.std.specs.Prelude.{◌≡◌, ◌+◌, ◌<◌, ◌≤◌};
ghost use Rattle.grid.specs.Grid.{num, InGrid, at, Sheet};
ghost use Rattle.grid.specs.Labels.{OUTSIDE};
ghost use Rattle.edits_reach.specs.Reach.{NO_LABEL};
ghost use Rattle.edits_settle.specs.Closing.{Relabels, Seals, Settles, Restores, is_mark, is_below};

use grid::{Axes, Cell, INSIDE, OUTSIDE};

// The greatest mark: a mark is the number of a way.
const LAST_MARK: u8 = edits_reach::WAYS - 1;

// To travel over a cell takes about as long as to pass over so many labels.
const PASSED: usize = 128;

// How many cells became 7, and how many were marked with a label under 6.
#[derive(Clone, Copy)]
pub struct SealCounts {
    pub sealed: usize,
    pub marked: usize,
}

// q and all that is joined to it have the label d, at most `count` cells: it becomes `new`.
fn relabel(l: &mut [u8], r: Axes, q: Cell, d: u8, new: u8, count: usize)
    requires sheet { Sheet r l.old }
    requires in_grid { InGrid r q × (at r l.old q ≡ d) }
    requires d_bound { (d < 6) × (OUTSIDE ≤ new) × (new < NO_LABEL) }
    ensures { Relabels r q d new l.old l.new }
{
    let len = l.len();
    if count < len / PASSED {
        edits_reach::reach(l, r, q, d, new, false);
        return;
    }
    grid::replace(l, 0, len, d, d, new);
}

// What a trip from q reaches takes the label d; where the trip met no exit it is sealed off, and becomes 7.
fn seal(l: &mut [u8], r: Axes, q: Cell, d: u8) -> SealCounts
    requires sheet { Sheet r l.old }
    requires in_grid { InGrid r q × (at r l.old q ≡ OUTSIDE) }
    requires d_bound { d < 6 }
    ensures { Seals r l.old q d l.new result }
{
    let w = edits_reach::reach(l, r, q, OUTSIDE, d, true);
    let count = w.count;
    if w.met {
        return SealCounts {
            sealed: 0,
            marked: count,
        };
    }
    relabel(l, r, q, d, INSIDE, count);
    SealCounts {
        sealed: count,
        marked: 0,
    }
}

// The neighbour the way d, if it is 6: where a look finds no way to the border, a trip must tell, if it may.
fn settle(l: &mut [u8], r: Axes, c: Cell, n: usize, d: u8, trips: bool) -> SealCounts
    requires sheet { Sheet r l.old }
    requires in_grid { InGrid r c × (n ≡ num r c) }
    requires d_bound { d < 6 }
    ensures { Settles d (d + 1) r c trips l.old l.new result }
{
    let none = SealCounts {
        sealed: 0,
        marked: 0,
    };
    let a = edits_reach::look(l, r, c, n, d);
    if a.label != OUTSIDE {
        return none;
    }
    let q = edits_reach::neighbour(r, c, d);
    let m = a.n;
    if edits_look::finds_way(l, r, q, m) {
        l[m] = d;
        return SealCounts {
            sealed: 0,
            marked: 1,
        };
    }
    if trips {
        return seal(l, r, q, d);
    }
    none
}

pub fn settle_all(l: &mut [u8], r: Axes, c: Cell, n: usize, trips: bool) -> SealCounts
    requires sheet { Sheet r l.old }
    requires in_grid { InGrid r c × (n ≡ num r c) }
    ensures { Settles 0 6 r c trips l.old l.new result }
{
    let mut sealed = 0usize;
    let mut marked = 0usize;
    for d in 0..edits_reach::WAYS {
        let s = settle(l, r, c, n, d, trips);
        sealed += s.sealed;
        marked += s.marked;
    }
    SealCounts { sealed, marked }
}

fn restore(l: &mut [u8], r: Axes, c: Cell, n: usize, d: u8, marked: usize)
    requires sheet { Sheet r l.old }
    requires in_grid { InGrid r c × (n ≡ num r c) }
    requires d_bound { d < 6 }
    ensures { Restores (is_mark d) r c l.old l.new }
{
    let a = edits_reach::look(l, r, c, n, d);
    if a.label == d {
        let q = edits_reach::neighbour(r, c, d);
        relabel(l, r, q, d, OUTSIDE, marked);
    }
}

// The marks, `marked` of them, become 6 again.
pub fn restore_all(l: &mut [u8], r: Axes, c: Cell, n: usize, marked: usize)
    requires sheet { Sheet r l.old }
    requires in_grid { InGrid r c × (n ≡ num r c) }
    ensures { Restores (is_below OUTSIDE) r c l.old l.new }
{
    let len = l.len();
    if len / PASSED < marked {
        grid::replace(l, 0, len, 0, LAST_MARK, OUTSIDE);
        return;
    }
    for d in 0..edits_reach::WAYS {
        restore(l, r, c, n, d, marked);
    }
}
