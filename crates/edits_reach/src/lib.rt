// A trip from one cell through cells of one label, face to face. It needs no memory of its own: the way
// back lies in the labels.
#![tactic(auto)]

ghost use Rattle.std.specs.Prelude.{◌≡◌, false, ◌&&◌, not, cond, ◌<◌, eqb, ltb};
ghost use Rattle.grid.specs.Grid.{num, InGrid, Sound, Sheet, on_border};
ghost use Rattle.grid.specs.Ways.{room, beside, counter};
ghost use Rattle.grid.specs.Labels.{OUTSIDE};
ghost use Rattle.edits_reach.specs.Reach.{way_of, Sees, MayReach, Reaches};

use grid::{Axes, Cell, OUTSIDE};

// ---- the six ways by number: 0 and 1 go up and down i, 2 and 3 j, 4 and 5 k; they are numbers and no enum, since
// a cell on a trip has its way in its label, and a cell that a closing has marked has a way for its label

// How many ways there are from a cell to a neighbour.
pub const WAYS: u8 = 6;

// What stands where there is no neighbour; it is no label.
const NO_LABEL: u8 = 9;

// A cell on a trip has this label and the number of the way by which the trip came to it; where it began, the
// next one.
const UNDER_WAY: u8 = 16;

const START: u8 = UNDER_WAY + WAYS;

// Such a label less this is the way to try next.
const NEXT_WAY: u8 = UNDER_WAY - 1;

// How many cells there are that way, up to the edge.
fn room_for(r: Axes, c: Cell, d: u8) -> usize
    requires { InGrid r c }
    ensures { result ≡ room r (way_of d) c }
{
    match d {
        0 => r.r0 - (c.i + 1),
        1 => c.i,
        2 => r.r1 - (c.j + 1),
        3 => c.j,
        4 => r.r2 - (c.k + 1),
        _ => c.k,
    }
}

// The neighbour that way.
pub fn neighbour(r: Axes, c: Cell, d: u8) -> Cell
    requires in_grid { InGrid r c }
    requires has_room { 0 < room r (way_of d) c }
    ensures { result ≡ beside (way_of d) c }
{
    match d {
        0 => Cell { i: c.i + 1, ..c },
        1 => Cell { i: c.i - 1, ..c },
        2 => Cell { j: c.j + 1, ..c },
        3 => Cell { j: c.j - 1, ..c },
        4 => Cell { k: c.k + 1, ..c },
        _ => Cell { k: c.k - 1, ..c },
    }
}

// Its number; n is c's.
fn number_ahead(r: Axes, c: Cell, n: usize, d: u8) -> usize
    requires sound { Sound r × InGrid r c × (n ≡ num r c) }
    requires has_room { 0 < room r (way_of d) c }
    ensures { result ≡ num r (beside (way_of d) c) }
{
    match d {
        0 => n + 1,
        1 => n - 1,
        2 => n + r.r0,
        3 => n - r.r0,
        4 => n + r.r0 * r.r1,
        _ => n - r.r0 * r.r1,
    }
}

// The way back.
fn opposite(d: u8) -> u8
    requires { d < 6 }
    ensures { (result < 6) × (way_of result ≡ counter (way_of d)) }
{
    match d {
        0 => 1,
        1 => 0,
        2 => 3,
        3 => 2,
        4 => 5,
        _ => 4,
    }
}

// The label of a neighbour and its number; at the edge, where there is none, NO_LABEL. It is a struct and no Option,
// so that a trip asks once, whether the label is the one that it passes.
#[derive(Clone, Copy)]
pub struct Seen {
    pub label: u8,
    pub n: usize,
    pub edge: bool,
}

pub fn look(l: &[u8], r: Axes, c: Cell, n: usize, d: u8) -> Seen
    requires sheet { Sheet r l.now }
    requires in_grid { InGrid r c × (n ≡ num r c) }
    ensures { Sees r l.now c d result }
{
    if 0 < room_for(r, c, d) {
        let m = number_ahead(r, c, n, d);
        return Seen {
            label: l[m],
            n: m,
            edge: false,
        };
    }
    Seen {
        label: NO_LABEL,
        n,
        edge: true,
    }
}

// ---- the trip

fn is_exit(stop: bool, r: Axes, c: Cell) -> bool
    requires { InGrid r c }
    ensures { result ≡ cond stop (on_border r c) false }
{
    stop && grid::on_border(r, c)
}

// A label under 6 that is not the trip's own is an exit too.
fn is_mark(stop: bool, done: u8, label: u8) -> bool
    ensures { result ≡ (stop && (ltb label OUTSIDE && not (eqb label done))) }
{
    stop & ((label < OUTSIDE) & (label != done))
}

// The way to try next: d, or none once the trip has met an exit.
fn onward(met: bool, d: u8) -> u8
    ensures { result ≡ cond met 6 d }
{
    if met { WAYS } else { d }
}

// How many cells were set, and whether an exit was met.
#[derive(Clone, Copy)]
pub struct Trip {
    pub count: usize,
    pub met: bool,
}

// s and the cells with the label `pass` that are reached from it through such cells take the label `done`;
// with `stop`, the trip goes no further once it has met an exit. A cell under way has the label UNDER_WAY
// and the way by which the trip came to it, s has START.
pub fn reach(l: &mut [u8], r: Axes, s: Cell, pass: u8, done: u8, stop: bool) -> Trip
    requires { MayReach r pass done stop l.old s }
    ensures { Reaches r pass done stop l.old s l.new result }
{
    let mut c = s;
    let mut n = grid::number(r, s);
    l[n] = START;
    let mut met = is_exit(stop, r, s);
    let mut next = onward(met, 0);
    let mut count = 0usize;
    loop {
        if next < WAYS {
            let a = look(l, r, c, n, next);
            if a.label == pass {
                c = neighbour(r, c, next);
                n = a.n;
                l[n] = UNDER_WAY + next;
                met = is_exit(stop, r, c);
                next = onward(met, 0);
                continue;
            }
            met = is_mark(stop, done, a.label);
            next = onward(met, next + 1);
            continue;
        }
        let v = l[n];
        l[n] = done;
        count += 1;
        let back_at_start = v == START;
        if back_at_start {
            return Trip { count, met };
        }
        let back = opposite(v - UNDER_WAY);
        let from = n;
        n = number_ahead(r, c, from, back);
        c = neighbour(r, c, back);
        next = onward(met, v - NEXT_WAY);
    }
}
