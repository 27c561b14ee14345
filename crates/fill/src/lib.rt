// The fill: which cells are Outside and which Inside, from the surface cells.
#![tactic(auto)]

ghost use Rattle.std.specs.Prelude.{◌≡◌, true};
ghost use Rattle.grid.specs.Answers.{Ends};
ghost use Rattle.grid.specs.Grid.{Sheet};
ghost use Rattle.fill_walks.specs.Run.{Run};
ghost use Rattle.fill.specs.declared.Mode.TheVariants.{SurfaceOnly, Flood, Cavities};
ghost use Rattle.fill.specs.Phases.{outward, phase_of, Alternate};
ghost use Rattle.fill.specs.Modes.{marks, fill_fault, Fills, Means};
ghost use Rattle.fill.specs.Passes.{Marks};

use fill_walks::Phase;
use grid::{
    Axes, INSIDE, INSIDE_TO_WALK, LabelRange, LabelSet, NO_WALK, OUTSIDE, OUTSIDE_TO_WALK, Refusal,
    SURFACE, SURFACE_WALK_1, SURFACE_WALK_2, UNDEFINED,
};

#[derive(Clone, Copy, Debug, PartialEq, Eq)]
pub enum Mode {
    SurfaceOnly,
    Flood,
    Cavities,
}

// How many scans of the whole grid there were, and how many cells are left.
#[derive(Clone, Copy, Debug, PartialEq, Eq)]
pub struct FillCounts {
    pub scans: usize,
    pub left: usize,
}

// ---- phases

// The first phase, and the label that it gives a surface.
fn outward_with(mark: u8) -> Phase
    ensures { result ≡ outward mark }
{
    Phase {
        pass: UNDEFINED,
        todo: OUTSIDE_TO_WALK,
        done: OUTSIDE,
        walkers: None,
        mark,
    }
}

fn phase_of(inward: bool) -> Phase
    ensures { result ≡ phase_of inward }
{
    if inward {
        return Phase {
            pass: UNDEFINED,
            todo: INSIDE_TO_WALK,
            done: INSIDE,
            walkers: Some(SURFACE_WALK_1),
            mark: SURFACE_WALK_2,
        };
    }
    Phase {
        pass: UNDEFINED,
        todo: OUTSIDE_TO_WALK,
        done: OUTSIDE,
        walkers: Some(SURFACE_WALK_2),
        mark: SURFACE_WALK_1,
    }
}

// One phase, inward or outward.
fn phase_in_turn(labels: &mut [u8], r: Axes, inward: bool) -> usize
    requires { Sheet r labels.old }
    ensures { Run (phase_of inward) r labels.old labels.new result }
{
    let p = phase_of(inward);
    fill_scans::run_phase(labels, p, r)
}

// Phases inward and outward in turn, until one has walked none; answers the number of scans.
fn phases_in_turn(labels: &mut [u8], r: Axes) -> usize
    requires { Sheet r labels.old }
    ensures { Alternate r true labels.old labels.new result }
{
    let mut scans = 0usize;
    let mut inward = true;
    loop {
        let n = phase_in_turn(labels, r, inward);
        scans += n;
        if n == 1 {
            return scans;
        }
        inward = !inward;
    }
}

// ---- modes

fn keep_surface(labels: &mut [u8], r: Axes) -> FillCounts
    requires { Sheet r labels.old × Marks labels.old }
    ensures { Fills SurfaceOnly r labels.old result labels.new }
{
    let len = labels.len();
    grid::replace(labels, 0, len, UNDEFINED, INSIDE, OUTSIDE);
    FillCounts { scans: 0, left: 0 }
}

fn fill_flood(labels: &mut [u8], r: Axes) -> FillCounts
    requires { Sheet r labels.old × Marks labels.old }
    ensures { Fills Flood r labels.old result labels.new }
{
    let len = labels.len();
    fill_seeds::seed(labels, r);
    let p = outward_with(SURFACE);
    let scans = fill_scans::run_phase(labels, p, r);
    grid::replace(labels, 0, len, UNDEFINED, UNDEFINED, INSIDE);
    FillCounts { scans, left: 0 }
}

fn fill_cavities(labels: &mut [u8], r: Axes) -> FillCounts
    requires { Sheet r labels.old × Marks labels.old }
    ensures { Fills Cavities r labels.old result labels.new }
{
    let len = labels.len();
    fill_seeds::seed(labels, r);
    let p = outward_with(SURFACE_WALK_1);
    let first = fill_scans::run_phase(labels, p, r);
    let later = phases_in_turn(labels, r);
    grid::replace(labels, 0, len, SURFACE_WALK_1, SURFACE_WALK_2, SURFACE);
    grid::replace(labels, 0, len, NO_WALK, NO_WALK, SURFACE);
    let left = grid::count_label(labels, UNDEFINED);
    FillCounts {
        scans: first + later,
        left,
    }
}

fn fill_by(labels: &mut [u8], r: Axes, mode: Mode) -> FillCounts
    requires { Sheet r labels.old × Marks labels.old }
    ensures { Fills mode r labels.old result labels.new }
{
    match mode {
        Mode::SurfaceOnly => keep_surface(labels, r),
        Mode::Flood => fill_flood(labels, r),
        Mode::Cavities => fill_cavities(labels, r),
    }
}

fn taken_marks() -> LabelSet
    ensures { result ≡ marks }
{
    LabelSet {
        one: LabelRange {
            low: UNDEFINED,
            high: UNDEFINED,
        },
        other: LabelRange {
            low: SURFACE,
            high: SURFACE,
        },
    }
}

// Fills a map whose labels are 0 and 8, or refuses and writes nothing.
pub fn fill(labels: &mut [u8], r: Axes, mode: Mode) -> Result<FillCounts, Refusal>
    ensures ends { Ends (fill_fault r labels.old) labels.old (Fills mode r labels.old) result labels.new }
    ensures means { Ends (fill_fault r labels.old) labels.old (Means mode r labels.old) result labels.new }
{
    grid::map_fault(labels, r, taken_marks())?;
    Ok(fill_by(labels, r, mode))
}
