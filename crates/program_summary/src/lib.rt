// What the program says of an input: the map's axes and how many cells have which label, or a refusal.
#![tactic(auto)]

ghost use Rattle.std.specs.Prelude.{Ok, ◌≡◌, length};
ghost use Rattle.grid.specs.Grid.{Sound, cells};
ghost use Rattle.sizing.specs.Points.{length_fault};
ghost use Rattle.marking_mesh.specs.Faults.{mesh_fault};
ghost use Rattle.marking.specs.Marked.{marked_labels};
ghost use Rattle.fill.specs.Modes.{fill_fault};
ghost use Rattle.program_summary.specs.Summary.{stream_fault, sized_by, laid_of, Tallied, Mapped, Sums, Summarizes};

use fill::Mode;
use grid::{Axes, INSIDE, Laid, OUTSIDE, Placement, Reason, Refusal, SURFACE, UNDEFINED};
use program_reader::{Head, SizingWay};

// The most cells of a program's grid.
const MOST_CELLS: usize = 32768;

// Three numbers for each of the most points, and of the most triangles, that an input may have.
const NUMBERS: usize = 768;

// The six lines' numbers.
#[derive(Clone, Copy, Debug, PartialEq, Eq)]
pub struct Summary {
    pub axes: Axes,
    pub outside: usize,
    pub inside: usize,
    pub surface: usize,
    pub left: usize,
    pub scans: usize,
}

// Refusals 2, 3 and 4 of a complete input.
fn stream_fault(ps: &[f32], ts: &[u32]) -> Result<(), Refusal>
    ensures { result ≡ stream_fault ps.now ts.now }
{
    sizing_points::none_fault(ps.len())?;
    sizing_points::numbers_fault(ps, 0)?;
    marking_checks::missing_fault(ts, ps.len() / 3)
}

fn sized_by(way: SizingWay, ps: &[f32]) -> Result<Laid, Refusal>
    ensures { result ≡ sized_by way ps.now }
{
    match way {
        SizingWay::Size(size) => sizing::by_size(ps, size),
        SizingWay::Resolution(r) => sizing::by_resolution(ps, r),
    }
}

fn laid_of(way: SizingWay, ps: &[f32], ts: &[u32]) -> Result<Laid, Refusal>
    ensures { result ≡ laid_of way ps.now ts.now }
{
    stream_fault(ps, ts)?;
    sized_by(way, ps)
}

// Fills marks and counts the labels.
fn tally(labels: &mut [u8], r: Axes, mode: Mode) -> Result<Summary, Refusal>
    requires { fill_fault r labels.old ≡ Ok tt }
    ensures { Tallied mode r labels.old result }
{
    let n = fill::fill(labels, r, mode)?;
    let outside = grid::count_label(labels, OUTSIDE);
    let inside = grid::count_label(labels, INSIDE);
    let surface = grid::count_label(labels, SURFACE);
    Ok(Summary {
        axes: r,
        outside,
        inside,
        surface,
        left: n.left,
        scans: n.scans,
    })
}

fn mark_and_tally(
    labels: &mut [u8],
    ps: &[f32],
    ts: &[u32],
    r: Axes,
    placement: Placement,
    mode: Mode,
) -> Result<Summary, Refusal>
    requires { mesh_fault ps.now ts.now r placement (length labels.old) ≡ Ok tt }
    ensures { Tallied mode r (marked_labels ps.now ts.now r placement) result }
{
    marking::mark(ps, ts, r, placement, labels)?;
    tally(labels, r, mode)
}

// The map over a grid, if it has at most so many cells as a program may have.
fn map_on(
    ps: &[f32],
    ts: &[u32],
    r: Axes,
    placement: Placement,
    mode: Mode,
) -> Result<Summary, Refusal>
    requires sound { Sound r }
    requires grid_fine { mesh_fault ps.now ts.now r placement (cells r) ≡ Ok tt }
    ensures { Mapped mode ps.now ts.now r placement result }
{
    let n = r.r0 * r.r1 * r.r2;
    let many = MOST_CELLS < n;
    if many {
        return Err(Reason::BadAxis.at(0));
    }
    let mut labels = [UNDEFINED; MOST_CELLS];
    mark_and_tally(&mut labels[..n], ps, ts, r, placement, mode)
}

// The map of a complete input.
fn map_of(head: Head, ps: &[f32], ts: &[u32]) -> Result<Summary, Refusal>
    requires { length_fault (length ts.now) ≡ Ok tt }
    ensures { Sums (record { head = head; points = ps.now; triangles = ts.now }) result }
{
    let laid = laid_of(head.way, ps, ts)?;
    map_on(ps, ts, laid.axes, laid.placement, head.mode)
}

// Reads an input and answers what its map says, or refuses.
pub fn summarize(input: &[u8]) -> Result<Summary, Refusal>
    ensures { Summarizes input.now result }
{
    let mut points = [0.0f32; NUMBERS];
    let mut triangles = [0u32; NUMBERS];
    let read = program_reader::read(input, &mut points, &mut triangles)?;
    let p = 3 * read.taken.points;
    let t = 3 * read.taken.triangles;
    map_of(read.head, &points[..p], &triangles[..t])
}
