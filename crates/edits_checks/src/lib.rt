// The refusals of an opening or a closing of a cell.
#![tactic(auto)]

ghost use Rattle.std.specs.Prelude.{◌≡◌};
ghost use Rattle.grid.specs.Answers.{◌and_then◌};
ghost use Rattle.grid.specs.Checks.{map_fault};
ghost use Rattle.grid.specs.Grid.{Sheet};
ghost use Rattle.edits_checks.specs.Checks.{map_labels, in_grid, wrong_kind, cell_fault};

use grid::{Axes, Cell, LabelRange, LabelSet, OUTSIDE, Reason, Refusal, SURFACE};

fn taken_labels() -> LabelSet
    ensures { result ≡ map_labels }
{
    let taken = LabelRange {
        low: OUTSIDE,
        high: SURFACE,
    };
    LabelSet {
        one: taken,
        other: taken,
    }
}

fn in_grid(r: Axes, c: Cell) -> bool
    ensures { result ≡ in_grid r c }
{
    (c.i < r.r0) & (c.j < r.r1) & (c.k < r.r2)
}

// `surface` is whether the cell must be one.
fn wrong_kind(surface: bool, label: u8) -> bool
    ensures { result ≡ wrong_kind surface label }
{
    if surface {
        label != SURFACE
    } else {
        label == SURFACE
    }
}

// Refusals 12 and 13, where the map itself has none.
fn cell_fault(labels: &[u8], r: Axes, c: Cell, surface: bool) -> Result<(), Refusal>
    requires { Sheet r labels.now }
    ensures { result ≡ cell_fault r labels.now c surface }
{
    if in_grid(r, c) {
        let n = grid::number(r, c);
        if wrong_kind(surface, labels[n]) {
            return Err(Reason::WrongKind.at(0));
        }
        return Ok(());
    }
    Err(Reason::OutOfRange.at(0))
}

pub fn edit_fault(labels: &[u8], r: Axes, c: Cell, surface: bool) -> Result<(), Refusal>
    ensures { result ≡ (map_fault map_labels r labels.now and_then cell_fault r labels.now c surface) }
{
    grid::map_fault(labels, r, taken_labels())?;
    cell_fault(labels, r, c, surface)
}
