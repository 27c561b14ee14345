// The cell list with pairs: all pairs are counted, the records written, each cell's pairs counted in its
// record, the counts made into places, and the triangle numbers put there.
#![tactic(auto)]

ghost use Rattle.std.specs.Prelude.{◌≡◌, ◌*◌, ◌≤◌, length};
ghost use Rattle.grid.specs.Grid.{Sheet};
ghost use Rattle.marking.specs.Painted.{Ready};
ghost use Rattle.order.specs.Output.{over};
ghost use Rattle.list_record.specs.Record.{width};
ghost use Rattle.list.specs.List.{listed, records_of};
ghost use Rattle.list_tally.specs.Pairs.{triangles_of, triangle_list, pair_count};
ghost use Rattle.list_pairs.specs.Paired.{list_input_fault, pairs_many_fault, rooms_fault, pairs_answer, records_buffer, triangles_buffer};
ghost use Rattle.list_pairs.specs.Ranges.{ends_before, RangesLaid};

use grid::{Axes, Laid, Placement, Reason, Refusal};
use list::ListCounts;
use list_rows::Round;

// From counts to places: each range is empty, and starts where those before it will end.
fn lay_ranges(records: &mut [u32], n: usize)
    requires { (n * width ≤ length records.old) × (ends_before records.old n ≤ 4294967295) }
    ensures { RangesLaid n records.old records.new }
{
    let mut s = 0u32;
    for p in 0..n {
        let e = list_record::read(records, p);
        list_record::set_range(records, p, s, s);
        s += e.end;
    }
}

// ---- the call

// Refusals 1 to 5 and 8 to 11.
fn list_input_fault(
    ps: &[f32],
    ts: &[u32],
    r: Axes,
    placement: Placement,
    labels: &[u8],
) -> Result<(), Refusal>
    ensures { result ≡ list_input_fault ps.now ts.now r placement labels.now }
{
    marking_checks::mesh_fault(ps, ts, r, placement, labels.len())?;
    grid::labels_fault(labels, order::known_labels())
}

// Refusal 14 of more pairs than a range can name.
fn many_fault(pairs: u64) -> Result<(), Refusal>
    ensures { result ≡ pairs_many_fault pairs }
{
    if 4294967295 < pairs {
        return Err(Reason::NoRoom.at(0));
    }
    Ok(())
}

// Refusal 14 of outputs of these lengths.
fn rooms_fault(cells: usize, pairs: u64, records: usize, list: usize) -> Result<(), Refusal>
    requires { cells ≤ 16777216 }
    ensures { result ≡ rooms_fault cells pairs records list }
{
    order::room_fault(records, (cells * list_record::WIDTH) as u64)?;
    many_fault(pairs)?;
    order::room_fault(list, pairs)
}

// The outputs of so many cells: their records, and each one's triangles.
fn write_pairs(
    ps: &[f32],
    ts: &[u32],
    laid: Laid,
    labels: &[u8],
    records: &mut [u32],
    list: &mut [u32],
    cells: usize,
)
    requires sheet { Sheet laid.axes labels.now × Ready ps.now ts.now laid.axes laid.placement }
    requires cells_value { (cells ≡ length (listed laid.axes labels.now)) × (cells * width ≤ length records.old) }
    requires labels_bound { (pair_count ps.now ts.now laid.axes laid.placement labels.now ≤ 4294967295) × (pair_count ps.now ts.now laid.axes laid.placement labels.now ≤ length list.old) }
    ensures records_after { records.new ≡ over (records_of laid.axes labels.now (triangles_of ps.now ts.now laid.axes laid.placement labels.now)) records.old }
    ensures list_after { list.new ≡ over (triangle_list ps.now ts.now laid.axes laid.placement labels.now) list.old }
{
    let r = laid.axes;
    let counting = Round {
        cells,
        placing: false,
    };
    let placing = Round {
        cells,
        placing: true,
    };
    list::write_records(labels, r, records);
    let guesses = list_hits::guesses(records, cells, r);
    list_hits::enter_all(records, list, &guesses, ps, ts, laid, counting);
    lay_ranges(records, cells);
    list_hits::enter_all(records, list, &guesses, ps, ts, laid, placing);
}

// Lists the cells 7 and 8 of a map, with the numbers of the triangles of each surface cell; or refuses
// and writes nothing.
pub fn list_pairs(
    points: &[f32],
    triangles: &[u32],
    r: Axes,
    placement: Placement,
    labels: &[u8],
    records: &mut [u32],
    list: &mut [u32],
) -> Result<ListCounts, Refusal>
    ensures answer { result ≡ pairs_answer points.now triangles.now r placement labels.now records.old list.old }
    ensures records_after { records.new ≡ records_buffer points.now triangles.now r placement labels.now records.old list.old }
    ensures list_after { list.new ≡ triangles_buffer points.now triangles.now r placement labels.now records.old list.old }
{
    list_input_fault(points, triangles, r, placement, labels)?;
    let cells = list::count_cells(labels, r);
    let pairs = list_tally::count_pairs(labels, points, triangles, r, placement);
    rooms_fault(cells, pairs, records.len(), list.len())?;
    let laid = Laid { axes: r, placement };
    write_pairs(points, triangles, laid, labels, records, list, cells);
    Ok(ListCounts {
        cells,
        pairs: pairs as usize,
    })
}
