// What the calls share that write lists: list order, the labels that they take, and refusal 14 of a
// lent output.
#![tactic(auto)]

ghost use Rattle.std.specs.Prelude.{◌≡◌};
ghost use Rattle.grid.specs.Grid.{Sound, InGrid};
ghost use Rattle.order.specs.Order.{next_cell, AtOrPast, known_labels};
ghost use Rattle.order.specs.Output.{room_fault};

use grid::{Axes, Cell, LabelRange, LabelSet, Reason, Refusal, SURFACE, UNDEFINED};

// The next cell in list order; after the last, i is r0.
pub fn following(r: Axes, c: Cell) -> Cell
    requires sound { Sound r }
    requires in_grid { InGrid r c }
    ensures { (result ≡ next_cell r c) × AtOrPast r result }
{
    let i = c.i;
    let j = c.j;
    let k = c.k + 1;
    if k < r.r2 {
        return Cell { i, j, k };
    }
    if j + 1 < r.r1 {
        return Cell { i, j: j + 1, k: 0 };
    }
    Cell {
        i: i + 1,
        j: 0,
        k: 0,
    }
}

// The labels 0 to 8.
pub fn known_labels() -> LabelSet
    ensures { result ≡ known_labels }
{
    let taken = LabelRange {
        low: UNDEFINED,
        high: SURFACE,
    };
    LabelSet {
        one: taken,
        other: taken,
    }
}

// Refusal 14 of an output of this length that needs room for so many numbers.
pub fn room_fault(len: usize, need: u64) -> Result<(), Refusal>
    ensures { result ≡ room_fault len need }
{
    if (len as u64) < need {
        return Err(Reason::NoRoom.at(0));
    }
    Ok(())
}
