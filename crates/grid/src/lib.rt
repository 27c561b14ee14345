// The ground of every call: axes, cells and their numbers, a grid's placement, refusals, and the
// checks 8, 9 and 11 that calls share; and how many cells have a label.
#![tactic(auto)]

ghost use Rattle.std.specs.Prelude.{◌≡◌, ◌≤◌, length};
ghost use Rattle.grid.specs.Refusals.{number_of};
ghost use Rattle.grid.specs.First.{first_not, every};
ghost use Rattle.grid.specs.Grid.{num, Sound, InGrid, on_border};
ghost use Rattle.grid.specs.Counts.{count_of};
ghost use Rattle.grid.specs.Passes.{becomes, Within};
ghost use Rattle.grid.specs.Checks.{bad_axis, axes_fault, grid_fault, takes, labels_fault, map_fault};

// ---- the labels of a cell

// By their order in the crate's enum. A map has OUTSIDE, INSIDE and SURFACE, marks have UNDEFINED and SURFACE;
// the others are a fill's, while it works.
pub const UNDEFINED: u8 = 0;

pub const OUTSIDE_TO_WALK: u8 = 1;

pub const INSIDE_TO_WALK: u8 = 2;

pub const NO_WALK: u8 = 3;

pub const SURFACE_WALK_1: u8 = 4;

pub const SURFACE_WALK_2: u8 = 5;

pub const OUTSIDE: u8 = 6;

pub const INSIDE: u8 = 7;

pub const SURFACE: u8 = 8;

// ---- refusals

// Why a call refuses: the table of refusals, by its numbers.
#[derive(Clone, Copy, Debug, PartialEq, Eq)]
pub enum Reason {
    // A list's length is no multiple of 3, or it has too many points or triangles.
    BadCount = 1,
    NoPoints = 2,
    // A number is NaN, infinite or too large.
    BadNumber = 3,
    // A triangle names a missing point, or an entry a missing triangle.
    MissingName = 4,
    // A cell size, a scale or its reciprocal.
    BadSize = 5,
    BadResolution = 6,
    // By resolution: the points lie too near each other.
    NoExtent = 7,
    // No cells along an axis, or too many.
    BadAxis = 8,
    // A label buffer's length is not the number of cells.
    BadBuffer = 9,
    // A triangle's vertex falls on no cell.
    OffGrid = 10,
    // A label that the call does not take.
    BadLabel = 11,
    // A cell, an axis, a plane's index or a step.
    OutOfRange = 12,
    // Opening a cell that is no surface, or closing one that is.
    WrongKind = 13,
    // An output is too short, or there are too many pairs.
    NoRoom = 14,
    // The ends of parts, or a range of a list.
    BadRange = 15,
    // Of the program's input: a wrong mark or order, an unknown way or mode, bytes after the end.
    BadRecord = 16,
    // Of the program's input: it stops too soon.
    CutInput = 17,
}

impl Reason {
    // Its number in the table.
    pub fn number(self) -> u8
        ensures { result ≡ number_of self }
    {
        self as u8
    }

    // The refusal for this reason, at a place.
    pub fn at(self, place: usize) -> Refusal
        ensures { result ≡ record { reason = self; place = place } }
    {
        Refusal {
            reason: self,
            place,
        }
    }
}

// A refusal: why, and where. A check finds nothing, `Ok(())`, or a refusal; checks stand in the order of
// their numbers, and the first that finds one decides, as `?` has it.
#[derive(Clone, Copy, Debug, PartialEq, Eq)]
pub struct Refusal {
    pub reason: Reason,
    pub place: usize,
}

// ---- grids

// The most cells along an axis.
pub const AXIS_MOST: usize = 256;

// How many cells the grid has along i, j and k.
#[derive(Clone, Copy, Debug, PartialEq, Eq)]
pub struct Axes {
    pub r0: usize,
    pub r1: usize,
    pub r2: usize,
}

#[derive(Clone, Copy, Debug, PartialEq, Eq)]
pub struct Cell {
    pub i: usize,
    pub j: usize,
    pub k: usize,
}

// The places along an axis from one up to, not including, another.
#[derive(Clone, Copy, Debug, PartialEq, Eq)]
pub struct Stretch {
    pub from: usize,
    pub to: usize,
}

// The cells that have their places in three stretches.
#[derive(Clone, Copy, Debug, PartialEq, Eq)]
pub struct Block {
    pub i: Stretch,
    pub j: Stretch,
    pub k: Stretch,
}

// Where a grid stands: its origin, its cells' side, and 1 / side rounded once. They travel together.
#[derive(Clone, Copy, Debug, PartialEq)]
pub struct Placement {
    pub x: f32,
    pub y: f32,
    pub z: f32,
    pub scale: f32,
    pub reciprocal: f32,
}

// A grid that is laid over points.
#[derive(Clone, Copy, Debug, PartialEq)]
pub struct Laid {
    pub axes: Axes,
    pub placement: Placement,
}

// The labels from low to high, both included.
#[derive(Clone, Copy, Debug, PartialEq, Eq)]
pub struct LabelRange {
    pub low: u8,
    pub high: u8,
}

// Which labels a call takes: those of one range and of the other.
#[derive(Clone, Copy, Debug, PartialEq, Eq)]
pub struct LabelSet {
    pub one: LabelRange,
    pub other: LabelRange,
}

// The number of a cell.
pub fn number(r: Axes, c: Cell) -> usize
    requires in_grid { InGrid r c }
    requires sound { Sound r }
    ensures { result ≡ num r c }
{
    c.i + c.j * r.r0 + c.k * (r.r0 * r.r1)
}

// Whether a cell lies on a face of the grid.
pub fn on_border(r: Axes, c: Cell) -> bool
    requires { InGrid r c }
    ensures { result ≡ on_border r c }
{
    let low = (c.i == 0) | (c.j == 0) | (c.k == 0);
    low | (r.r0 - c.i == 1) | (r.r1 - c.j == 1) | (r.r2 - c.k == 1)
}

fn bad_axis(n: usize) -> bool
    ensures { result ≡ bad_axis n }
{
    (n == 0) | (AXIS_MOST < n)
}

// Refusal 8: the first axis of 0 or more than 256 cells.
pub fn axes_fault(r: Axes) -> Result<(), Refusal>
    ensures { result ≡ axes_fault r }
{
    if bad_axis(r.r0) {
        return Err(Reason::BadAxis.at(0));
    }
    if bad_axis(r.r1) {
        return Err(Reason::BadAxis.at(1));
    }
    if bad_axis(r.r2) {
        return Err(Reason::BadAxis.at(2));
    }
    Ok(())
}

// Refusals 8 and 9 of axes and a label buffer's length.
pub fn grid_fault(r: Axes, len: usize) -> Result<(), Refusal>
    ensures { result ≡ grid_fault r len }
{
    axes_fault(r)?;
    if len == r.r0 * r.r1 * r.r2 {
        return Ok(());
    }
    Err(Reason::BadBuffer.at(0))
}

fn taken(set: LabelSet, v: u8) -> bool
    ensures { result ≡ takes set v }
{
    let a = set.one;
    let b = set.other;
    ((a.low <= v) & (v <= a.high)) | ((b.low <= v) & (v <= b.high))
}

// Whether every label is in the set. The loop has no way out, so that it runs at the speed of a plain
// pass over the memory.
fn all_taken(labels: &[u8], set: LabelSet) -> bool
    ensures { result ≡ every (takes set) labels.now }
{
    let mut all = true;
    for label in labels {
        all &= taken(set, *label);
    }
    all
}

// The place of the first label that is not in the set, or the length.
fn first_not_taken(labels: &[u8], set: LabelSet) -> usize
    ensures { result ≡ first_not (takes set) labels.now }
{
    for (n, label) in labels.iter().enumerate() {
        if !taken(set, *label) {
            return n;
        }
    }
    labels.len()
}

// Refusal 11: the first label, in the order of cell numbers, that the set does not have.
pub fn labels_fault(labels: &[u8], set: LabelSet) -> Result<(), Refusal>
    ensures { result ≡ labels_fault set labels.now }
{
    if all_taken(labels, set) {
        return Ok(());
    }
    Err(Reason::BadLabel.at(first_not_taken(labels, set)))
}

// Refusals 8, 9 and 11 of a map.
pub fn map_fault(labels: &[u8], r: Axes, set: LabelSet) -> Result<(), Refusal>
    ensures { result ≡ map_fault set r labels.now }
{
    grid_fault(r, labels.len())?;
    labels_fault(labels, set)
}

// How many cells have a label.
pub fn count_label(labels: &[u8], label: u8) -> usize
    ensures { result ≡ count_of label labels.now }
{
    let mut n = 0;
    for other in labels {
        n += usize::from(*other == label);
    }
    n
}

fn replaced_by(low: u8, high: u8, new: u8, label: u8) -> u8
    ensures { result ≡ becomes low high new label }
{
    if (low <= label) & (label <= high) {
        new
    } else {
        label
    }
}

// The labels from `low` to `high` become `new`, at the places from `from` up to, not including, `to`.
pub fn replace(labels: &mut [u8], from: usize, to: usize, low: u8, high: u8, new: u8)
    requires { (from ≤ to) × (to ≤ length labels.old) }
    ensures { Within from to (λ n. becomes low high new) labels.old labels.new }
{
    for n in from..to {
        labels[n] = replaced_by(low, high, new, labels[n]);
    }
}
