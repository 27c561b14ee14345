// A record of the cell list, which is numbers in a lent slice: this is the only place that knows where
// they stand. And a cell's slice of the list of triangle numbers, with check 15 of its range.
#![tactic(auto)]

ghost use Rattle.std.specs.Prelude.{[], ◌≡◌, ◌+◌, ◌*◌, ◌≤◌, ◌<◌, ◌^◌, length};
ghost use Rattle.order.specs.Output.{Written};
ghost use Rattle.list_record.specs.Record.{width, record_at, numbers_of, ranged, PutRecord, bad_range, range_fault, list_slice};

use grid::{Cell, Reason, Refusal};

// How many numbers a record has: i, j, k, surface, start, end, in this order.
pub const WIDTH: usize = 6;

const SURFACE_AT: usize = 3;

const START_AT: usize = 4;

const END_AT: usize = 5;

// A listed cell. `surface` is 1 for a cell 8 and 0 for a cell 7; its triangles are those of the list of
// triangle numbers from `start` up to, not including, `end`.
#[derive(Clone, Copy)]
pub struct CellRecord {
    pub cell: Cell,
    pub surface: u32,
    pub start: u32,
    pub end: u32,
}

// Record p.
pub fn read(records: &[u32], p: usize) -> CellRecord
    requires { p * width + width ≤ length records.now }
    ensures { result ≡ record_at records.now p }
{
    let at = p * WIDTH;
    let i = records[at] as usize;
    let j = records[at + 1] as usize;
    let k = records[at + 2] as usize;
    CellRecord {
        cell: Cell { i, j, k },
        surface: records[at + SURFACE_AT],
        start: records[at + START_AT],
        end: records[at + END_AT],
    }
}

// Writes record p.
pub fn write(records: &mut [u32], p: usize, e: CellRecord)
    requires width_in_bounds { p * width + width ≤ length records.old }
    requires i_bound { (e.cell.i < 2 ^ 32) × (e.cell.j < 2 ^ 32) × (e.cell.k < 2 ^ 32) }
    ensures { Written 0 (p * width) (numbers_of e) records.old records.new }
{
    let at = p * WIDTH;
    records[at] = e.cell.i as u32;
    records[at + 1] = e.cell.j as u32;
    records[at + 2] = e.cell.k as u32;
    records[at + SURFACE_AT] = e.surface;
    records[at + START_AT] = e.start;
    records[at + END_AT] = e.end;
}

// Gives record p another range.
pub fn set_range(records: &mut [u32], p: usize, start: u32, end: u32)
    requires { p * width + width ≤ length records.old }
    ensures { PutRecord p (ranged start end (record_at records.old p)) records.old records.new }
{
    let at = p * WIDTH;
    records[at + START_AT] = start;
    records[at + END_AT] = end;
}

// Whether a range falls back or passes the list.
fn bad_range(list: &[u32], start: u32, end: u32) -> bool
    ensures { result ≡ bad_range list.now start end }
{
    (end < start) | (list.len() < end as usize)
}

// Refusal 15 of a range of a list.
pub fn check_range(list: &[u32], start: u32, end: u32) -> Result<(), Refusal>
    ensures { result ≡ range_fault list.now start end }
{
    if bad_range(list, start, end) {
        return Err(Reason::BadRange.at(0));
    }
    Ok(())
}

// The slice of a list from start up to, not including, end; of a range that check_range refuses, an empty
// one.
pub fn list_slice(list: &[u32], start: u32, end: u32) -> &[u32]
    ensures { result.now ≡ list_slice list.now start end }
{
    if bad_range(list, start, end) {
        return &list[0..0];
    }
    let from = start as usize;
    let to = end as usize;
    &list[from..to]
}
