// Opening and closing a cell of a map: which labels change, and how many.
#![tactic(auto)]

ghost use Rattle.std.specs.Prelude.{◌≡◌, true, false};
ghost use Rattle.grid.specs.Answers.{Ends};
ghost use Rattle.grid.specs.Flood.{Flooded};
ghost use Rattle.grid.specs.Grid.{num, InGrid, at, Sheet};
ghost use Rattle.grid.specs.Labels.{SURFACE};
ghost use Rattle.edits_settle.specs.Closing.{Map};
ghost use Rattle.edits.specs.Edits.{opening, closing, edit_fault, MeetsAir, Edited};

use grid::{Axes, Cell, INSIDE, OUTSIDE, Refusal, SURFACE};

// ---- opening

// Whether c, whose number is n, is on the border or has a face neighbour 6.
fn meets_air(l: &[u8], r: Axes, c: Cell, n: usize) -> bool
    requires sheet { Sheet r l.now }
    requires in_grid { InGrid r c × (n ≡ num r c) }
    ensures { (result ≡ true → MeetsAir r l.now c) × (result ≡ false → MeetsAir r l.now c → ⊥) }
{
    if grid::on_border(r, c) {
        return true;
    }
    let mut d = 0u8;
    while d < edits_reach::WAYS {
        let a = edits_reach::look(l, r, c, n, d);
        let air = a.label == OUTSIDE;
        if air {
            return true;
        }
        d += 1;
    }
    false
}

fn open_surface(l: &mut [u8], r: Axes, c: Cell) -> usize
    requires sheet { Sheet r l.old }
    requires in_grid { InGrid r c × (at r l.old c ≡ SURFACE) }
    ensures { Edited r l.old (opening c) result l.new }
{
    let n = grid::number(r, c);
    if meets_air(l, r, c, n) {
        let w = edits_reach::reach(l, r, c, INSIDE, OUTSIDE, false);
        return w.count;
    }
    l[n] = INSIDE;
    1
}

// ---- closing

fn close_open(l: &mut [u8], r: Axes, c: Cell) -> usize
    requires sheet { Sheet r l.old × Map r l.old }
    requires in_grid { InGrid r c × (at r l.old c ≡ SURFACE → ⊥) }
    ensures { Edited r l.old (closing c) result l.new }
{
    let n = grid::number(r, c);
    let v = l[n];
    l[n] = SURFACE;
    if v != OUTSIDE {
        return 1;
    }
    let seen = edits_settle::settle_all(l, r, c, n, false);
    let tried = edits_settle::settle_all(l, r, c, n, true);
    edits_settle::restore_all(l, r, c, n, seen.marked + tried.marked);
    tried.sealed + 1
}

// ---- the calls

// Opens a surface cell and answers how many labels changed, or refuses and writes nothing.
pub fn open_cell(labels: &mut [u8], r: Axes, c: Cell) -> Result<usize, Refusal>
    ensures ends { Ends (edit_fault r labels.old (opening c)) labels.old (Edited r labels.old (opening c)) result labels.new }
    ensures flooded { Flooded r labels.old labels.old → Flooded r labels.new labels.new }
{
    edits_checks::edit_fault(labels, r, c, true)?;
    Ok(open_surface(labels, r, c))
}

// Closes a cell that is no surface and answers how many labels changed, or refuses and writes nothing.
pub fn close_cell(labels: &mut [u8], r: Axes, c: Cell) -> Result<usize, Refusal>
    ensures ends { Ends (edit_fault r labels.old (closing c)) labels.old (Edited r labels.old (closing c)) result labels.new }
    ensures flooded { Flooded r labels.old labels.old → Flooded r labels.new labels.new }
{
    edits_checks::edit_fault(labels, r, c, false)?;
    Ok(close_open(labels, r, c))
}
