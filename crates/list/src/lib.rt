// The cell list without pairs: a record for each cell 7 and 8, in list order.
#![tactic(auto)]

ghost use Rattle.std.specs.Prelude.{◌≡◌, ◌+◌, ◌*◌, ◌≤◌, ◌<◌, length};
ghost use Rattle.grid.specs.Grid.{Sheet};
ghost use Rattle.order.specs.Order.{row, rows};
ghost use Rattle.order.specs.Output.{Written};
ghost use Rattle.list_record.specs.Record.{width};
ghost use Rattle.list.specs.List.{is_listed, flag_of, listed, listed_in, plain_in, RoomFrom, plain_records, cells_answer, cells_buffer};

use grid::{Axes, Cell, INSIDE, Refusal, SURFACE};
use list_record::CellRecord;

// How many cells are listed, and how many pairs of a cell and a triangle.
#[derive(Clone, Copy)]
pub struct ListCounts {
    pub cells: usize,
    pub pairs: usize,
}

fn is_listed(label: u8) -> bool
    ensures { result ≡ is_listed label }
{
    (label == INSIDE) | (label == SURFACE)
}

// How many cells are listed: counted in memory order, in 32 bits, which is faster than in 64.
pub fn count_cells(labels: &[u8], r: Axes) -> usize
    requires { Sheet r labels.now }
    ensures { (result ≡ length (listed r labels.now)) × (result ≤ 16777216) }
{
    let mut n = 0u32;
    for label in labels {
        n += u32::from(is_listed(*label));
    }
    n as usize
}

fn flag_of(label: u8) -> u32
    ensures { result ≡ flag_of label }
{
    u32::from(label == SURFACE)
}

// The records of row (i, j), from record p on. Answers where the next one goes.
fn write_row(labels: &[u8], r: Axes, records: &mut [u32], p: usize, i: usize, j: usize) -> usize
    requires sheet { Sheet r labels.now × (i < r.r0) × (j < r.r1) }
    requires room_from { RoomFrom p (listed_in r labels.now (row i j 0 r.r2)) records.old }
    ensures value { result ≡ p + length (listed_in r labels.now (row i j 0 r.r2)) }
    ensures written { Written 0 (p * width) (plain_in r labels.now (row i j 0 r.r2)) records.old records.new }
{
    let mut q = p;
    for k in 0..r.r2 {
        let c = Cell { i, j, k };
        let label = labels[grid::number(r, c)];
        if is_listed(label) {
            list_record::write(
                records,
                q,
                CellRecord {
                    cell: c,
                    surface: flag_of(label),
                    start: 0,
                    end: 0,
                },
            );
            q += 1;
        }
    }
    q
}

// The rows of slab i, in the same way.
fn write_slab(labels: &[u8], r: Axes, records: &mut [u32], p: usize, i: usize) -> usize
    requires sheet { Sheet r labels.now × (i < r.r0) }
    requires room_from { RoomFrom p (listed_in r labels.now (rows r.r2 i 0 r.r1)) records.old }
    ensures value { result ≡ p + length (listed_in r labels.now (rows r.r2 i 0 r.r1)) }
    ensures written { Written 0 (p * width) (plain_in r labels.now (rows r.r2 i 0 r.r1)) records.old records.new }
{
    let mut q = p;
    for j in 0..r.r1 {
        q = write_row(labels, r, records, q, i, j);
    }
    q
}

// The records of all listed cells, each with the range 0..0.
pub fn write_records(labels: &[u8], r: Axes, records: &mut [u32])
    requires sheet { Sheet r labels.now }
    requires width_in_bounds { length (listed r labels.now) * width ≤ length records.old }
    ensures { Written 0 0 (plain_records r labels.now) records.old records.new }
{
    let mut q = 0;
    for i in 0..r.r0 {
        q = write_slab(labels, r, records, q, i);
    }
}

// Lists the cells 7 and 8 of a map, or refuses and writes nothing.
pub fn list_cells(labels: &[u8], r: Axes, records: &mut [u32]) -> Result<ListCounts, Refusal>
    ensures answer { result ≡ cells_answer labels.now r records.old }
    ensures records_after { records.new ≡ cells_buffer labels.now r records.old }
{
    grid::map_fault(labels, r, order::known_labels())?;
    let cells = count_cells(labels, r);
    order::room_fault(records.len(), (cells * list_record::WIDTH) as u64)?;
    write_records(labels, r, records);
    Ok(ListCounts { cells, pairs: 0 })
}
