// The walks of a fill, and what a phase of it is: scans over the whole grid, cell by cell and walk by walk,
// until a scan walked none. The crate `fill_scans` runs one.
#![tactic(auto)]

ghost use Rattle.std.specs.Prelude.{true, false, ◌≡◌, ◌+◌, ◌≤◌, ◌<◌, length};
ghost use Rattle.fill_walks.specs.Scan.{is_walker};
ghost use Rattle.fill_walks.specs.Rays.{ray, Along, walked_along, LineFits, walked_both};
ghost use Rattle.fill_walks.specs.Quiet.{Trailed, Swept};

use grid::SURFACE;

// A walk stops after so many cells in each direction.
const WALK_MOST: usize = 64;

// A phase by its labels: the one that its walks pass, its to-walk label, which a passed cell takes, and its
// set label; the label of the surface cells that walk, if any do, and the label that a surface cell takes
// that a walk meets.
#[derive(Clone, Copy)]
pub struct Phase {
    pub pass: u8,
    pub todo: u8,
    pub done: u8,
    pub walkers: Option<u8>,
    pub mark: u8,
}

// From a cell's number, `count` steps of `add` less `sub` at most. Answers how many cells it passed.
fn walk(l: &mut [u8], p: Phase, from: usize, add: usize, sub: usize, count: usize) -> usize
    requires from_in_bounds { (from < length l.old) × (add ≤ 65536) }
    requires along { Along (length l.old) from add sub count }
    ensures l_after { l.new ≡ walked_along p (ray from add sub count) l.old }
    ensures upper_bound { (result ≤ count) × Trailed p from add sub result l.old l.new }
{
    let pass = p.pass;
    let todo = p.todo;
    let mut at = from;
    for n in 0..count {
        at = at + add - sub;
        let v = l[at];
        if v != pass {
            let surface = v == SURFACE;
            if surface {
                l[at] = p.mark;
            }
            return n;
        }
        l[at] = todo;
    }
    count
}

// How many cells two walks passed, up an axis and down it.
#[derive(Clone, Copy)]
pub struct Passed {
    pub up: usize,
    pub down: usize,
}

// Up an axis, then down, from place `a` of n on it.
pub fn both_ways(l: &mut [u8], p: Phase, from: usize, stride: usize, a: usize, n: usize) -> Passed
    requires { LineFits from stride a n (length l.old) }
    ensures l_after { l.new ≡ walked_both p from stride a n l.old }
    ensures swept { Swept p from stride result.up result.down l.old l.new × (a + result.up < n) × (result.down ≤ a) }
{
    let up = walk(l, p, from, stride, 0, (n - (a + 1)).min(WALK_MOST));
    let down = walk(l, p, from, 0, stride, a.min(WALK_MOST));
    Passed { up, down }
}

pub fn is_walker(walkers: Option<u8>, label: u8) -> bool
    ensures { result ≡ is_walker walkers label }
{
    walkers == Some(label)
}

// Whether a visit of a cell with this label changes nothing.
pub fn is_idle(p: Phase, label: u8) -> bool
    ensures { result ≡ true → (label ≡ p.todo → ⊥) × (is_walker p.walkers label ≡ false) }
{
    label != p.todo && !is_walker(p.walkers, label)
}
