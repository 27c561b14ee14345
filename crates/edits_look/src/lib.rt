// A look, which writes nothing, for an exit that cells 6 lead to with at most one bend.
#![tactic(auto)]

ghost use Rattle.std.specs.Prelude.{◌≡◌, true};
ghost use Rattle.grid.specs.Grid.{num, InGrid, Sheet};
ghost use Rattle.edits_reach.specs.Reach.{Leads};

use grid::{Axes, Cell, OUTSIDE};

// No axis, where 0 is i, 1 is j and 2 is k.
const NO_AXIS: u8 = 3;

// Straight on.
fn look_along(l: &[u8], r: Axes, c: Cell, n: usize, d: u8) -> bool
    requires sheet { Sheet r l.now }
    requires in_grid { InGrid r c × (n ≡ num r c) }
    ensures { result ≡ true → Leads r l.now c }
{
    let mut here = c;
    let mut m = n;
    loop {
        let a = edits_reach::look(l, r, here, m, d);
        if a.label != OUTSIDE {
            return (a.label < OUTSIDE) | a.edge;
        }
        here = edits_reach::neighbour(r, here, d);
        m = a.n;
    }
}

// Any way but those of one axis.
fn straight(l: &[u8], r: Axes, c: Cell, n: usize, but: u8) -> bool
    requires sheet { Sheet r l.now }
    requires in_grid { InGrid r c × (n ≡ num r c) }
    ensures { result ≡ true → Leads r l.now c }
{
    for d in 0..edits_reach::WAYS {
        if d / 2 != but && look_along(l, r, c, n, d) {
            return true;
        }
    }
    false
}

// Along one way, and from each cell on it to the sides.
fn bent(l: &[u8], r: Axes, c: Cell, n: usize, d: u8) -> bool
    requires sheet { Sheet r l.now }
    requires in_grid { InGrid r c × (n ≡ num r c) }
    ensures { result ≡ true → Leads r l.now c }
{
    let mut here = c;
    let mut m = n;
    loop {
        let a = edits_reach::look(l, r, here, m, d);
        if a.label != OUTSIDE {
            return false;
        }
        here = edits_reach::neighbour(r, here, d);
        m = a.n;
        if straight(l, r, here, m, d / 2) {
            return true;
        }
    }
}

pub fn finds_way(l: &[u8], r: Axes, c: Cell, n: usize) -> bool
    requires sheet { Sheet r l.now }
    requires in_grid { InGrid r c × (n ≡ num r c) }
    ensures { result ≡ true → Leads r l.now c }
{
    if straight(l, r, c, n, NO_AXIS) {
        return true;
    }
    for d in 0..edits_reach::WAYS {
        if bent(l, r, c, n, d) {
            return true;
        }
    }
    false
}
