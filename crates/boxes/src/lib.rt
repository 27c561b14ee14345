// Boxes: the cells of one label as points and triangles, eight corners and twelve triangles a cell.
#![tactic(auto)]

ghost use Rattle.std.specs.Prelude.{◌≡◌, ◌*◌, ◌≤◌, length};
ghost use Rattle.std.specs.Float.{nan};
ghost use Rattle.grid.specs.Counts.{count_of};
ghost use Rattle.grid.specs.Grid.{Sheet};
ghost use Rattle.order.specs.Output.{Written};
ghost use Rattle.boxes.specs.Boxes.{asked_fault, boxes_fault, rooms_fault, box_cells, box_points, box_triangles, boxes_answer, points_buffer, triangles_buffer};

use grid::{Axes, Cell, Placement, Reason, Refusal, SURFACE};

// ---- all cells of a label, in list order

// The triangles of a cell begin at the number of points before its corners. One walk in list order goes over the
// cells, since three loops, one in another, would be three functions with the room of two outputs each.
fn write_boxes(
    labels: &[u8],
    r: Axes,
    label: u8,
    placement: Placement,
    points: &mut [f32],
    triangles: &mut [u32],
)
    requires sheet { Sheet r labels.now }
    requires points_room { 24 * count_of label labels.now ≤ length points.old }
    requires triangles_room { 36 * count_of label labels.now ≤ length triangles.old }
    ensures written { Written nan 0 (box_points placement (box_cells r labels.now label)) points.old points.new }
    ensures triangles_written { Written 0 0 (box_triangles 0 (length (box_cells r labels.now label))) triangles.old triangles.new }
{
    let mut n = 0usize;
    let mut next = Cell { i: 0, j: 0, k: 0 };
    while next.i < r.r0 {
        let c = next;
        next = order::following(r, c);
        if labels[grid::number(r, c)] == label {
            let b = n;
            n += 1;
            boxes_corners::put_corners(points, 24 * b, placement, c);
            let base = (8 * b) as u32;
            boxes_corners::put_triangles(triangles, 36 * b, base);
        }
    }
}

// ---- the call

// Refusal 11 of the asked label.
fn asked_fault(label: u8) -> Result<(), Refusal>
    ensures { result ≡ asked_fault label }
{
    if SURFACE < label {
        return Err(Reason::BadLabel.at(0));
    }
    Ok(())
}

// Refusals 3, 5, 8, 9 and 11.
fn boxes_fault(labels: &[u8], r: Axes, placement: Placement, label: u8) -> Result<(), Refusal>
    ensures { result ≡ boxes_fault labels.now r placement label }
{
    marking_checks::origin_fault(placement)?;
    marking_checks::lent_fault(placement)?;
    grid::grid_fault(r, labels.len())?;
    asked_fault(label)?;
    grid::labels_fault(labels, order::known_labels())
}

// Refusal 14 of two outputs of these lengths for the boxes of n cells.
fn rooms_fault(n: usize, points: usize, triangles: usize) -> Result<(), Refusal>
    requires { n ≤ 16777216 }
    ensures { result ≡ rooms_fault n points triangles }
{
    order::room_fault(points, 24 * n as u64)?;
    order::room_fault(triangles, 36 * n as u64)
}

// Writes the eight corners and the twelve triangles of each cell that has the label, in list order, or
// refuses and writes nothing.
pub fn boxes(
    labels: &[u8],
    r: Axes,
    placement: Placement,
    label: u8,
    points: &mut [f32],
    triangles: &mut [u32],
) -> Result<usize, Refusal>
    ensures answer { result ≡ boxes_answer labels.now r placement label points.old triangles.old }
    ensures points_after { points.new ≡ points_buffer labels.now r placement label points.old triangles.old }
    ensures triangles_after { triangles.new ≡ triangles_buffer labels.now r placement label points.old triangles.old }
{
    boxes_fault(labels, r, placement, label)?;
    let n = grid::count_label(labels, label);
    rooms_fault(n, points.len(), triangles.len())?;
    write_boxes(labels, r, label, placement, points, triangles);
    Ok(n)
}
