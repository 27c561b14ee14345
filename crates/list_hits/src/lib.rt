// Each triangle goes to its records: block by block of candidates, and in a block row by row. Where a row's
// records lie is guessed once for all triangles, and looked for from there.
#![tactic(auto)]

ghost use Rattle.std.specs.Prelude.{◌≡◌, ◌≤◌, ◌<◌, length};
ghost use Rattle.grid.specs.Grid.{Sound};
ghost use Rattle.touch.specs.Bands.{BandsFit};
ghost use Rattle.marking_mesh.specs.Mesh.{triangles};
ghost use Rattle.marking_mesh.specs.Ranges.{holds};
ghost use Rattle.marking.specs.Marked.{hits};
ghost use Rattle.marking.specs.Painted.{left_in, AxesLeave, Ready};
ghost use Rattle.list_lookup.specs.Lookup.{Table};
ghost use Rattle.list_rows.specs.Rows.{gets, Entered, Room};
ghost use Rattle.list_hits.specs.Hits.{line_at, slab_at, LineRest, all_of};

use grid::{Axes, Cell, Laid, Stretch};
use list_rows::{Entrant, Round};
use marking::Sweep;
use touch::Bands;

// ---- where to look first

// A row's records, if it had one for every cell from its first one on, would lie from this guess on, with k
// added; x is the first record of the row. A wrong guess costs time and nothing else: `find` starts from it.
fn guess_at(records: &[u32], n: usize, x: usize) -> u32
    requires { Table records.now n × (x ≤ n) }
{
    if x == n {
        return x as u32;
    }
    let k = list_record::read(records, x).cell.k;
    x.saturating_sub(k) as u32
}

fn guess_slab(guesses: &mut [u32], records: &[u32], n: usize, rows: usize, i: usize)
    requires table { Table records.now n × (rows ≤ 256) × (i < 256) }
    requires guesses_len { length guesses.old ≡ 65536 }
{
    let mut x = 0;
    for j in 0..rows {
        x = list_lookup::find(records, n, 0, x, list_lookup::key_of(Cell { i, j, k: 0 }));
        guesses[i * 256 + j] = guess_at(records, n, x);
    }
}

// The guesses of all rows (i, j), at 256 i + j.
pub fn guesses(records: &[u32], n: usize, r: Axes) -> [u32; 65536]
    requires { Table records.now n × Sound r }
    ensures { 65536 ≡ length result }
{
    let mut out = [0u32; 65536];
    for i in 0..r.r0 {
        guess_slab(&mut out, records, n, r.r1, i);
    }
    out
}

// ---- a triangle

// A stretch of row (i, j), along k.
#[derive(Clone, Copy)]
struct Line {
    i: usize,
    j: usize,
    k: Stretch,
}

// The cells of a line.
fn enter_stretch(
    records: &mut [u32],
    list: &mut [u32],
    guesses: &[u32],
    entrant: Entrant,
    line: Line,
)
    requires table { Table records.old entrant.round.cells }
    requires i_bound { (line.i < 256) × (line.j < 256) × (line.k.to ≤ 256) × (length guesses.now ≡ 65536) }
    requires room { Room entrant.round.placing entrant.round.cells (gets entrant.triangle (holds (line_at line.i line.j line.k)) records.old) records.old (length list.old) }
    ensures { Entered entrant.round.placing entrant.round.cells (gets entrant.triangle (holds (line_at line.i line.j line.k)) records.old) records.old list.old records.new list.new }
{
    let n = entrant.round.cells;
    let i = line.i;
    let j = line.j;
    let from = line.k.from;
    let to = line.k.to;
    if from < to {
        let low = list_lookup::key_of(Cell { i, j, k: from });
        let high = list_lookup::key_of(Cell { i, j, k: to });
        let near = guesses[i * 256 + j] as usize + from;
        let x = list_lookup::find(records, n, 0, near, low);
        list_rows::enter_row(records, list, entrant, low, high, x);
    }
}

// What the bands leave of a line. What its slab has cut is not tested again.
fn enter_line(
    records: &mut [u32],
    list: &mut [u32],
    guesses: &[u32],
    entrant: Entrant,
    bands: Bands,
    line: Line,
)
    requires table { Table records.old entrant.round.cells × BandsFit bands × LineRest bands line.k line.i line.j }
    requires i_bound { (line.i < 256) × (line.j < 256) × (line.k.to ≤ 256) × (length guesses.now ≡ 65536) }
    requires room { Room entrant.round.placing entrant.round.cells (gets entrant.triangle (left_in (line_at line.i line.j line.k) bands) records.old) records.old (length list.old) }
    ensures { Entered entrant.round.placing entrant.round.cells (gets entrant.triangle (left_in (line_at line.i line.j line.k) bands) records.old) records.old list.old records.new list.new }
{
    let i = line.i;
    let j = line.j;
    let k = marking_cuts::rest_along_k(bands, line.k, i, j);
    enter_stretch(records, list, guesses, entrant, Line { i, j, k });
}

// The rows of slab i of a triangle's block. What does not depend on j, or not on k, is cut here.
fn enter_slab(
    records: &mut [u32],
    list: &mut [u32],
    guesses: &[u32],
    entrant: Entrant,
    sweep: Sweep,
    i: usize,
)
    requires table { Table records.old entrant.round.cells × BandsFit sweep.bands × AxesLeave sweep.bands (slab_at sweep.block i) }
    requires i_bound { (i < 256) × (sweep.block.j.to ≤ 256) × (sweep.block.k.to ≤ 256) × (length guesses.now ≡ 65536) }
    requires room { Room entrant.round.placing entrant.round.cells (gets entrant.triangle (left_in (slab_at sweep.block i) sweep.bands) records.old) records.old (length list.old) }
    ensures { Entered entrant.round.placing entrant.round.cells (gets entrant.triangle (left_in (slab_at sweep.block i) sweep.bands) records.old) records.old list.old records.new list.new }
{
    let bands = sweep.bands;
    let f = marking_cuts::slab_along_j(bands, sweep.block.j, i);
    let k = marking_cuts::slab_along_k(bands, sweep.block.k, i);
    for j in f.from..f.to {
        enter_line(records, list, guesses, entrant, bands, Line { i, j, k });
    }
}

fn enter_block(
    records: &mut [u32],
    list: &mut [u32],
    guesses: &[u32],
    entrant: Entrant,
    sweep: Sweep,
)
    requires table { Table records.old entrant.round.cells × BandsFit sweep.bands × AxesLeave sweep.bands sweep.block }
    requires to_bound { (sweep.block.i.to ≤ 256) × (sweep.block.j.to ≤ 256) × (sweep.block.k.to ≤ 256) × (length guesses.now ≡ 65536) }
    requires room { Room entrant.round.placing entrant.round.cells (gets entrant.triangle (left_in sweep.block sweep.bands) records.old) records.old (length list.old) }
    ensures { Entered entrant.round.placing entrant.round.cells (gets entrant.triangle (left_in sweep.block sweep.bands) records.old) records.old list.old records.new list.new }
{
    for i in sweep.block.i.from..sweep.block.i.to {
        enter_slab(records, list, guesses, entrant, sweep, i);
    }
}

fn enter_triangle(
    records: &mut [u32],
    list: &mut [u32],
    guesses: &[u32],
    ps: &[f32],
    ts: &[u32],
    laid: Laid,
    entrant: Entrant,
)
    requires table { Table records.old entrant.round.cells × Sound laid.axes × (length guesses.now ≡ 65536) }
    requires ready { Ready ps.now ts.now laid.axes laid.placement × (entrant.triangle < triangles ts.now) }
    requires room { Room entrant.round.placing entrant.round.cells (gets entrant.triangle (hits ps.now ts.now laid.axes laid.placement entrant.triangle) records.old) records.old (length list.old) }
    ensures { Entered entrant.round.placing entrant.round.cells (gets entrant.triangle (hits ps.now ts.now laid.axes laid.placement entrant.triangle) records.old) records.old list.old records.new list.new }
{
    let t = entrant.triangle as usize;
    let sweep = marking::sweep_of(ps, ts, laid.axes, laid.placement, t);
    enter_block(records, list, guesses, entrant, sweep);
}

pub fn enter_all(
    records: &mut [u32],
    list: &mut [u32],
    guesses: &[u32],
    ps: &[f32],
    ts: &[u32],
    laid: Laid,
    round: Round,
)
    requires table { Table records.old round.cells × Sound laid.axes × (length guesses.now ≡ 65536) }
    requires ready { Ready ps.now ts.now laid.axes laid.placement }
    requires room { Room round.placing round.cells (all_of ps.now ts.now laid.axes laid.placement records.old (triangles ts.now)) records.old (length list.old) }
    ensures { Entered round.placing round.cells (all_of ps.now ts.now laid.axes laid.placement records.old (triangles ts.now)) records.old list.old records.new list.new }
{
    for t in 0..ts.len() / 3 {
        let triangle = t as u32;
        let entrant = Entrant { round, triangle };
        enter_triangle(records, list, guesses, ps, ts, laid, entrant);
    }
}
