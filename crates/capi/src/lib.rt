// The C boundary: one function for each call of the library, over numbers, lent slices and structs by
// value; C gives a slice as a pointer and a length. Each answers whatever its types admit, as its call
// does, and cites the same definitions.
#![tactic(auto)]

ghost use Rattle.std.specs.Prelude.{◌≡◌, take, drop};
ghost use Rattle.grid.specs.Answers.{Ends};
ghost use Rattle.grid.specs.Flood.{Flooded};
ghost use Rattle.sizing.specs.Sizing as sizings;
ghost use Rattle.marking.specs.Marked as markings;
ghost use Rattle.fill.specs.declared.Mode.TheVariants.{SurfaceOnly, Flood, Cavities};
ghost use Rattle.fill.specs.Modes as fills;
ghost use Rattle.edits.specs.Edits.{opening, closing, edit_fault, Edited};
ghost use Rattle.list.specs.List as lists;
ghost use Rattle.list_pairs.specs.Paired.{pairs_answer, records_buffer, triangles_buffer};
ghost use Rattle.list_record.specs.Record.{range_fault, list_slice};
ghost use Rattle.classes.specs.Classes as classings;
ghost use Rattle.planes.specs.declared.Side.TheVariants.{First, Second};
ghost use Rattle.planes.specs.Planes.{planes_answer, planes_buffer};
ghost use Rattle.planes.specs.Split.{split_answer, split_buffer};
ghost use Rattle.boxes.specs.Boxes as boxings;
ghost use Rattle.program_summary.specs.Summary.{Summarizes};
ghost use Rattle.program.specs.Program.{Runs};
ghost use Rattle.capi_flat.specs.Flat.{flat_of, Tells};
ghost use Rattle.capi_flat.specs.Structs.{to_axes, to_cell, to_placement, verdict, sized, filled, counted, listing, planned, parted, summarized, no_grid, no_fill, no_list, no_planes, no_sides, no_summary, slice_at};

use capi_flat::{
    Axes, Cell, Counted, Filled, Listed, Parted, Placement, Planned, Sized, Slice, Summarized,
    Verdict,
};
use fill::Mode;

#[unsafe(no_mangle)]
pub extern "C" fn vm_size_by_cell(points: &[f32], size: f32) -> Sized
    ensures { sized result ≡ flat_of no_grid (sizings.by_size points.now size) }
{
    Sized::from(sizing::by_size(points, size))
}

#[unsafe(no_mangle)]
pub extern "C" fn vm_size_by_resolution(points: &[f32], resolution: u32) -> Sized
    ensures { sized result ≡ flat_of no_grid (sizings.by_resolution points.now resolution) }
{
    Sized::from(sizing::by_resolution(points, resolution))
}

#[unsafe(no_mangle)]
pub extern "C" fn vm_mark(
    points: &[f32],
    triangles: &[u32],
    r: Axes,
    placement: Placement,
    labels: &mut [u8],
) -> Verdict
    ensures answer { verdict result ≡ flat_of tt (markings.mark_answer points.now triangles.now (to_axes r) (to_placement placement) labels.old) }
    ensures labels_after { labels.new ≡ markings.mark_labels points.now triangles.now (to_axes r) (to_placement placement) labels.old }
{
    Verdict::from(marking::mark(points, triangles, r.into(), placement.into(), labels))
}

#[unsafe(no_mangle)]
pub extern "C" fn vm_fill_surface(labels: &mut [u8], r: Axes) -> Filled
    ensures tells { Tells no_fill (λ o. Ends (fills.fill_fault (to_axes r) labels.old) labels.old (fills.Fills SurfaceOnly (to_axes r) labels.old) o labels.new) (filled result) }
    ensures means { Tells no_fill (λ o. Ends (fills.fill_fault (to_axes r) labels.old) labels.old (fills.Means SurfaceOnly (to_axes r) labels.old) o labels.new) (filled result) }
{
    Filled::from(fill::fill(labels, r.into(), Mode::SurfaceOnly))
}

#[unsafe(no_mangle)]
pub extern "C" fn vm_fill_flood(labels: &mut [u8], r: Axes) -> Filled
    ensures tells { Tells no_fill (λ o. Ends (fills.fill_fault (to_axes r) labels.old) labels.old (fills.Fills Flood (to_axes r) labels.old) o labels.new) (filled result) }
    ensures means { Tells no_fill (λ o. Ends (fills.fill_fault (to_axes r) labels.old) labels.old (fills.Means Flood (to_axes r) labels.old) o labels.new) (filled result) }
{
    Filled::from(fill::fill(labels, r.into(), Mode::Flood))
}

#[unsafe(no_mangle)]
pub extern "C" fn vm_fill_cavities(labels: &mut [u8], r: Axes) -> Filled
    ensures tells { Tells no_fill (λ o. Ends (fills.fill_fault (to_axes r) labels.old) labels.old (fills.Fills Cavities (to_axes r) labels.old) o labels.new) (filled result) }
    ensures means { Tells no_fill (λ o. Ends (fills.fill_fault (to_axes r) labels.old) labels.old (fills.Means Cavities (to_axes r) labels.old) o labels.new) (filled result) }
{
    Filled::from(fill::fill(labels, r.into(), Mode::Cavities))
}

#[unsafe(no_mangle)]
pub extern "C" fn vm_open_cell(labels: &mut [u8], r: Axes, c: Cell) -> Counted
    ensures tells { Tells 0 (λ o. Ends (edit_fault (to_axes r) labels.old (opening (to_cell c))) labels.old (Edited (to_axes r) labels.old (opening (to_cell c))) o labels.new) (counted result) }
    ensures flooded { Flooded (to_axes r) labels.old labels.old → Flooded (to_axes r) labels.new labels.new }
{
    Counted::from(edits::open_cell(labels, r.into(), c.into()))
}

#[unsafe(no_mangle)]
pub extern "C" fn vm_close_cell(labels: &mut [u8], r: Axes, c: Cell) -> Counted
    ensures tells { Tells 0 (λ o. Ends (edit_fault (to_axes r) labels.old (closing (to_cell c))) labels.old (Edited (to_axes r) labels.old (closing (to_cell c))) o labels.new) (counted result) }
    ensures flooded { Flooded (to_axes r) labels.old labels.old → Flooded (to_axes r) labels.new labels.new }
{
    Counted::from(edits::close_cell(labels, r.into(), c.into()))
}

#[unsafe(no_mangle)]
pub extern "C" fn vm_list_cells(labels: &[u8], r: Axes, records: &mut [u32]) -> Listed
    ensures answer { listing result ≡ flat_of no_list (lists.cells_answer labels.now (to_axes r) records.old) }
    ensures records_after { records.new ≡ lists.cells_buffer labels.now (to_axes r) records.old }
{
    Listed::from(list::list_cells(labels, r.into(), records))
}

#[unsafe(no_mangle)]
pub extern "C" fn vm_list_pairs(
    points: &[f32],
    triangles: &[u32],
    r: Axes,
    placement: Placement,
    labels: &[u8],
    records: &mut [u32],
    list: &mut [u32],
) -> Listed
    ensures answer { listing result ≡ flat_of no_list (pairs_answer points.now triangles.now (to_axes r) (to_placement placement) labels.now records.old list.old) }
    ensures records_after { records.new ≡ records_buffer points.now triangles.now (to_axes r) (to_placement placement) labels.now records.old list.old }
    ensures list_after { list.new ≡ triangles_buffer points.now triangles.now (to_axes r) (to_placement placement) labels.now records.old list.old }
{
    Listed::from(list_pairs::list_pairs(
        points,
        triangles,
        r.into(),
        placement.into(),
        labels,
        records,
        list,
    ))
}

#[unsafe(no_mangle)]
pub extern "C" fn vm_check_range(list: &[u32], start: u32, end: u32) -> Verdict
    ensures { verdict result ≡ flat_of tt (range_fault list.now start end) }
{
    Verdict::from(list_record::check_range(list, start, end))
}

// A returned slice does not pass the boundary: where it lies in the caller's own does.
#[unsafe(no_mangle)]
pub extern "C" fn vm_list_slice(list: &[u32], start: u32, end: u32) -> Slice
    ensures value { result ≡ slice_at list.now start end }
    ensures list_value { take result.length (drop result.start list.now) ≡ list_slice list.now start end }
{
    match list_record::check_range(list, start, end) {
        Err(_) => Slice {
            start: 0,
            length: 0,
        },
        Ok(()) => Slice {
            start: start as usize,
            length: (end - start) as usize,
        },
    }
}

#[unsafe(no_mangle)]
pub extern "C" fn vm_classify(
    entries: &[u32],
    ends: &[u32],
    count: usize,
    classes: &mut [u32],
) -> Verdict
    ensures answer { verdict result ≡ flat_of tt (classings.class_answer entries.now ends.now count classes.old) }
    ensures classes_after { classes.new ≡ classings.class_buffer entries.now ends.now count classes.old }
{
    Verdict::from(classes::classify(entries, ends, count, classes))
}

#[unsafe(no_mangle)]
pub extern "C" fn vm_planes(
    placement: Placement,
    axis: usize,
    low: usize,
    high: usize,
    best: usize,
    step: usize,
    ds: &mut [f32],
) -> Planned
    ensures answer { planned result ≡ flat_of no_planes (planes_answer (to_placement placement) axis low high best step ds.old) }
    ensures ds_after { ds.new ≡ planes_buffer (to_placement placement) axis low high best step ds.old }
{
    Planned::from(planes::planes_about(placement.into(), axis, low, high, best, step, ds))
}

#[unsafe(no_mangle)]
pub extern "C" fn vm_split(
    points: &[f32],
    axis: usize,
    d: f32,
    above: &mut [f32],
    below: &mut [f32],
) -> Parted
    ensures answer { parted result ≡ flat_of no_sides (split_answer points.now axis d above.old below.old) }
    ensures above_after { above.new ≡ split_buffer First points.now axis d above.old above.old below.old }
    ensures below_after { below.new ≡ split_buffer Second points.now axis d below.old above.old below.old }
{
    Parted::from(planes::split_points(points, axis, d, above, below))
}

#[unsafe(no_mangle)]
pub extern "C" fn vm_boxes(
    labels: &[u8],
    r: Axes,
    placement: Placement,
    label: u8,
    points: &mut [f32],
    triangles: &mut [u32],
) -> Counted
    ensures answer { counted result ≡ flat_of 0 (boxings.boxes_answer labels.now (to_axes r) (to_placement placement) label points.old triangles.old) }
    ensures points_after { points.new ≡ boxings.points_buffer labels.now (to_axes r) (to_placement placement) label points.old triangles.old }
    ensures triangles_after { triangles.new ≡ boxings.triangles_buffer labels.now (to_axes r) (to_placement placement) label points.old triangles.old }
{
    Counted::from(boxes::boxes(labels, r.into(), placement.into(), label, points, triangles))
}

#[unsafe(no_mangle)]
pub extern "C" fn vm_summarize(input: &[u8]) -> Summarized
    ensures { Tells no_summary (Summarizes input.now) (summarized result) }
{
    Summarized::from(program_summary::summarize(input))
}

#[unsafe(no_mangle)]
pub extern "C" fn vm_run(input: &[u8], output: &mut [u8]) -> Counted
    ensures { Tells 0 (λ o. Runs input.now output.old o output.new) (counted result) }
{
    Counted::from(program::run(input, output))
}
