// A triangle is entered at the records of a stretch of a row of cells: each surface cell's gets its number, counted or
// put in its place.
#![tactic(auto)]

ghost use Rattle.std.specs.Prelude.{true, cond, ◌≡◌, ◌+◌, ◌*◌, ◌≤◌, ◌<◌, length, set};
ghost use Rattle.list_record.specs.Record.{width, record_at, ranged, PutRecord};
ghost use Rattle.list_lookup.specs.Lookup.{Table, Behind, Ahead};
ghost use Rattle.list_rows.specs.Rows.{keyed, gets, Entered, Room};

use list_record::CellRecord;

// A round over all triangles: over how many records, and whether the triangles are placed in the list or only
// counted.
#[derive(Clone, Copy)]
pub struct Round {
    pub cells: usize,
    pub placing: bool,
}

// A triangle that is entered at the records of its cells, in a round.
#[derive(Clone, Copy)]
pub struct Entrant {
    pub round: Round,
    pub triangle: u32,
}

// Record p, which is e, has one triangle more; where they are placed, t is put at its place.
fn give(records: &mut [u32], list: &mut [u32], p: usize, e: CellRecord, t: u32, placing: bool)
    requires width_in_bounds { (p * width + width ≤ length records.old) × (e ≡ record_at records.old p) × (e.end < 4294967295) }
    requires end_in_bounds { placing ≡ true → e.end < length list.old }
    ensures put_record { PutRecord p (ranged e.start (e.end + 1) e) records.old records.new }
    ensures list_after { list.new ≡ cond placing (set list.old e.end t) list.old }
{
    let end = e.end;
    list_record::set_range(records, p, e.start, end + 1);
    if placing {
        list[end as usize] = t;
    }
}

// A triangle goes to the records of surface cells with keys from `want` up to, not including, `past`. The
// first with such a key, if there is one, is `from`.
pub fn enter_row(
    records: &mut [u32],
    list: &mut [u32],
    entrant: Entrant,
    want: usize,
    past: usize,
    from: usize,
)
    requires table { Table records.old entrant.round.cells }
    requires behind { Behind records.old entrant.round.cells want from × Ahead records.old entrant.round.cells want from }
    requires room { Room entrant.round.placing entrant.round.cells (gets entrant.triangle (keyed want past) records.old) records.old (length list.old) }
    ensures { Entered entrant.round.placing entrant.round.cells (gets entrant.triangle (keyed want past) records.old) records.old list.old records.new list.new }
{
    for x in from..entrant.round.cells {
        let e = list_record::read(records, x);
        let over = past <= list_lookup::key_of(e.cell);
        if over {
            return;
        }
        let surface = e.surface == 1;
        if surface {
            give(records, list, x, e, entrant.triangle, entrant.round.placing);
        }
    }
}
