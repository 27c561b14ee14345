// Opens and closes cells of random maps. After each call the whole map is compared with a fresh flood
// of its surface cells, and the answer with a count of the labels that the call changed; a refusal is
// compared with a plain check of the rules, and the map with what it was. Each family of maps prints a
// line: its name, the maps, the calls, the openings and the closings done, the refusals, the labels
// changed in all, and after `differ` how many labels and answers were not as they should be.
// A read out of range gives 0 here and a store does nothing, so that few proofs have to follow a
// length; the comparisons would show a label that got lost.
#![tactic(auto)]

ghost use Rattle.std.specs.Prelude.{◌<◌};

use fill::Mode;
use grid::{Axes, Cell, Reason, Refusal};

#[derive(Clone, Copy)]
enum Family {
    Random,
    Shelled,
    Corridor,
}

#[derive(Clone, Copy)]
struct AskedEdit {
    cell: Cell,
    opening: bool,
}

// A label that was overwritten, and where.
#[derive(Clone, Copy)]
struct Spoilt {
    at: usize,
    label: u8,
}

// What one call did: whether it should be done or refused, and how much was not as it should be.
#[derive(Clone, Copy)]
struct EditOutcome {
    done: bool,
    changed: u64,
    wrong: u64,
}

#[derive(Clone, Copy, Default)]
struct Tally {
    calls: u64,
    opened: u64,
    closed: u64,
    refused: u64,
    changed: u64,
    differ: u64,
}

// ---- random numbers

// A random number below n, or 0 if n is 0; x is the last one drawn.
fn below(x: &mut u64, n: usize) -> usize {
    *x = test_replay::drawn(*x);
    if n == 0 {
        return 0;
    }
    (*x / 65536) as usize % n
}

// ---- labels and cells

fn label_at(labels: &[u8], n: usize) -> u8 {
    labels.get(n).copied().unwrap_or(0)
}

fn put(labels: &mut [u8], n: usize, label: u8) {
    if let Some(place) = labels.get_mut(n) {
        *place = label;
    }
}

// The product, for numbers as small as those of a grid.
fn times(a: usize, b: usize) -> usize
    ensures { result < 1099511627776 }
{
    a % 1048576 * (b % 1048576)
}

fn number_of(r: Axes, c: Cell) -> usize {
    times(c.i, 1) + times(c.j, r.r0) + times(c.k, times(r.r0, r.r1))
}

fn cell_of(r: Axes, n: usize) -> Cell {
    let row = r.r0;
    let rows = r.r1;
    if (row == 0) | (rows == 0) {
        return Cell { i: 0, j: 0, k: 0 };
    }
    let m = n / row;
    Cell {
        i: n % row,
        j: m % rows,
        k: m / rows,
    }
}

fn label_of(labels: &[u8], r: Axes, c: Cell) -> u8 {
    label_at(labels, number_of(r, c))
}

// As many labels as both have.
fn copy(from: &[u8], to: &mut [u8]) {
    for (place, label) in to.iter_mut().zip(from) {
        *place = *label;
    }
}

// How many labels of a are others in b.
fn differing(a: &[u8], b: &[u8]) -> u64 {
    let mut d = 0u64;
    for (i, label) in a.iter().enumerate() {
        d = d.wrapping_add(u64::from(*label != label_at(b, i)));
    }
    d
}

// ---- maps

// An axis has at most 13 cells: often 1 or 2 in a random map; an odd number of at least 3 in a corridor
// map, where corridors run along odd coordinates.
fn axis(f: Family, x: &mut u64) -> usize {
    let flat = below(x, 3) == 0;
    let n = below(x, 12) % 12;
    match f {
        Family::Random => {
            if flat {
                return 1 + n % 2;
            }
            1 + n
        }
        Family::Shelled => 4 + n % 10,
        Family::Corridor => 3 + n / 2 * 2,
    }
}

// About so many tenths of the cells are surface.
fn random_marks(labels: &mut [u8], n: usize, x: &mut u64, tenths: usize) {
    for i in 0..n {
        put(labels, i, test_replay::label_if(below(x, 10) < tenths));
    }
}

// How far i is from the nearer end of an axis.
fn to_end(i: usize, n: usize) -> usize {
    if i < n { i.min(n - 1 - i) } else { 0 }
}

// How many cells a cell lies below the border; 0 off the grid.
fn depth(r: Axes, c: Cell) -> usize {
    to_end(c.i, r.r0)
        .min(to_end(c.j, r.r1))
        .min(to_end(c.k, r.r2))
}

// Boxes in boxes, a wall at every third depth; of 512 wall cells 0, 1 or 2 are missing.
fn shell_marks(labels: &mut [u8], n: usize, r: Axes, x: &mut u64, some: usize) {
    for i in 0..n {
        let there = some / 3 % 3 <= below(x, 512);
        let wall = depth(r, cell_of(r, i)) % 3 == some % 3;
        put(labels, i, test_replay::label_if(there & wall));
    }
}

// The face neighbour in one of six ways; below 0 it is far off the grid.
fn beside(c: Cell, way: usize) -> Cell {
    let one = if way % 2 == 0 { 1 } else { usize::MAX };
    match way / 2 {
        0 => Cell {
            i: c.i.wrapping_add(one),
            ..c
        },
        1 => Cell {
            j: c.j.wrapping_add(one),
            ..c
        },
        _ => Cell {
            k: c.k.wrapping_add(one),
            ..c
        },
    }
}

// A walk through solid wall goes two cells on and carves both, so that a wall stays between corridors.
// Seldom goes where it has been, so that loops are few; at the border seldom carves a way out.
fn walked(labels: &mut [u8], r: Axes, c: Cell, x: &mut u64) -> Cell {
    let way = below(x, 6);
    let seldom = below(x, 12) == 0;
    let next = beside(c, way);
    let second = beside(next, way);
    let inner = 0 < depth(r, second);
    let wall = label_of(labels, r, second) == grid::SURFACE;
    if !(seldom | (inner & wall)) {
        return c;
    }
    put(labels, number_of(r, next), 0);
    if !inner {
        return c;
    }
    put(labels, number_of(r, second), 0);
    second
}

fn corridor_marks(labels: &mut [u8], n: usize, r: Axes, x: &mut u64, steps: usize) {
    random_marks(labels, n, x, 10);
    let mut c = Cell { i: 1, j: 1, k: 1 };
    for _ in 0..steps {
        c = walked(labels, r, c, x);
    }
}

// The marks of a new map, whose cells are the first n labels.
fn make_marks(labels: &mut [u8], n: usize, f: Family, r: Axes, x: &mut u64) {
    let some = below(x, 600);
    match f {
        Family::Random => random_marks(labels, n, x, some % 10),
        Family::Shelled => shell_marks(labels, n, r, x, some),
        Family::Corridor => corridor_marks(labels, n, r, x, some),
    }
}

fn flood(labels: &mut [u8], n: usize, r: Axes) {
    let len = n.min(labels.len());
    let _ = fill::fill(&mut labels[..len], r, Mode::Flood);
}

// ---- what a call should do

// The place of the first label that no edit takes, or the length.
fn first_bad(labels: &[u8]) -> usize {
    for (i, label) in labels.iter().enumerate() {
        if (*label < grid::OUTSIDE) | (grid::SURFACE < *label) {
            return i;
        }
    }
    labels.len()
}

fn cell_rule(labels: &[u8], r: Axes, c: Cell, opening: bool) -> Result<(), Refusal> {
    if (r.r0 <= c.i) | (r.r1 <= c.j) | (r.r2 <= c.k) {
        return Err(Reason::OutOfRange.at(0));
    }
    if (label_of(labels, r, c) == grid::SURFACE) != opening {
        return Err(Reason::WrongKind.at(0));
    }
    Ok(())
}

// The refusal that a call should get.
fn rule(labels: &[u8], r: Axes, c: Cell, opening: bool) -> Result<(), Refusal> {
    if (r.r0 == 0) | (256 < r.r0) {
        return Err(Reason::BadAxis.at(0));
    }
    if (r.r1 == 0) | (256 < r.r1) {
        return Err(Reason::BadAxis.at(1));
    }
    if (r.r2 == 0) | (256 < r.r2) {
        return Err(Reason::BadAxis.at(2));
    }
    if labels.len() != times(times(r.r0, r.r1), r.r2) {
        return Err(Reason::BadBuffer.at(0));
    }
    let bad = first_bad(labels);
    if bad != labels.len() {
        return Err(Reason::BadLabel.at(bad));
    }
    cell_rule(labels, r, c, opening)
}

fn surface_of(before: &[u8], map: &mut [u8], n: usize) {
    for i in 0..n {
        let wall = label_at(before, i) == grid::SURFACE;
        put(map, i, test_replay::label_if(wall));
    }
}

// The flood of the surface cells as the call leaves them.
fn fresh(map: &mut [u8], before: &[u8], n: usize, r: Axes, call: AskedEdit) {
    surface_of(before, map, n);
    put(
        map,
        number_of(r, call.cell),
        test_replay::label_if(!call.opening),
    );
    flood(map, n, r);
}

// ---- a call, and what it did

fn edit(labels: &mut [u8], r: Axes, c: Cell, opening: bool) -> Result<usize, Refusal> {
    if opening {
        return edits::open_cell(labels, r, c);
    }
    edits::close_cell(labels, r, c)
}

fn kept(labels: &[u8], before: &[u8], f: Refusal, answer: Result<usize, Refusal>) -> EditOutcome {
    let other = answer != Err(f);
    EditOutcome {
        done: false,
        changed: 0,
        wrong: differing(labels, before).wrapping_add(u64::from(other)),
    }
}

fn done(
    labels: &[u8],
    before: &[u8],
    r: Axes,
    call: AskedEdit,
    answer: Result<usize, Refusal>,
) -> EditOutcome {
    let mut map = [0u8; 4096];
    fresh(&mut map, before, labels.len(), r, call);
    let changed = differing(labels, before);
    let other = answer != Ok(changed as usize);
    EditOutcome {
        done: true,
        changed,
        wrong: differing(labels, &map).wrapping_add(u64::from(other)),
    }
}

fn compared(labels: &mut [u8], r: Axes, call: AskedEdit) -> EditOutcome {
    let mut before = [0u8; 4096];
    copy(labels, &mut before);
    let ruled = rule(labels, r, call.cell, call.opening);
    let answer = edit(labels, r, call.cell, call.opening);
    match ruled {
        Err(f) => kept(labels, &before, f, answer),
        Ok(()) => done(labels, &before, r, call, answer),
    }
}

// ---- choice of a call

fn some_cell(r: Axes, x: &mut u64) -> Cell {
    let i = below(x, r.r0);
    let j = below(x, r.r1);
    let k = below(x, r.r2);
    Cell { i, j, k }
}

fn off_grid(r: Axes, x: &mut u64) -> Cell {
    let c = some_cell(r, x);
    match below(x, 4) {
        0 => Cell { i: r.r0, ..c },
        1 => Cell { j: r.r1, ..c },
        2 => Cell { k: r.r2, ..c },
        _ => Cell { k: usize::MAX, ..c },
    }
}

// A cell that the call takes, if a few draws find one.
fn likely_cell(labels: &[u8], r: Axes, opening: bool, x: &mut u64) -> Cell {
    for _ in 0..20 {
        let c = some_cell(r, x);
        if (label_of(labels, r, c) == grid::SURFACE) == opening {
            return c;
        }
    }
    some_cell(r, x)
}

// The last cell is often turned back, so that what was opened is sealed again and the reverse.
fn some_call(labels: &[u8], r: Axes, last: Cell, x: &mut u64) -> AskedEdit {
    let way = below(x, 60);
    let opening = below(x, 2) == 0;
    if way < 3 {
        let cell = off_grid(r, x);
        return AskedEdit { cell, opening };
    }
    if way < 21 {
        let opening = label_of(labels, r, last) == grid::SURFACE;
        return AskedEdit {
            cell: last,
            opening,
        };
    }
    if way < 27 {
        let cell = some_cell(r, x);
        return AskedEdit { cell, opening };
    }
    let cell = likely_cell(labels, r, opening, x);
    AskedEdit { cell, opening }
}

// ---- faults other than the cell's

// One axis is of 0 or 257 cells, if there is to be a fault.
fn faulty_axes(fault: bool, r: Axes, x: &mut u64) -> Axes {
    let way = below(x, 6);
    let bad = way % 2 * 257;
    if !fault {
        return r;
    }
    match way / 2 {
        0 => Axes { r0: bad, ..r },
        1 => Axes { r1: bad, ..r },
        _ => Axes { r2: bad, ..r },
    }
}

// One more or one less, if there is to be a fault.
fn faulty_length(fault: bool, n: usize, x: &mut u64) -> usize {
    let twice = below(x, 2) % 2 * 2;
    if fault {
        return n.wrapping_add(twice).wrapping_sub(1);
    }
    n
}

fn cut(labels: &mut [u8], n: usize, r: Axes, call: AskedEdit) -> EditOutcome {
    let len = n.min(labels.len());
    compared(&mut labels[..len], r, call)
}

// Puts a label that no edit takes.
fn spoil(labels: &mut [u8], n: usize, x: &mut u64) -> Spoilt {
    let bad = [0u8, 1, 2, 3, 4, 5, 9, 255];
    let which = below(x, 8) % 8;
    let at = below(x, n);
    let label = label_at(labels, at);
    put(labels, at, bad[which]);
    Spoilt { at, label }
}

// With two bad labels, which may fall on one cell; the map gets its own back.
fn with_bad_labels(
    labels: &mut [u8],
    n: usize,
    r: Axes,
    call: AskedEdit,
    x: &mut u64,
) -> EditOutcome {
    let a = spoil(labels, n, x);
    let b = spoil(labels, n, x);
    let o = cut(labels, n, r, call);
    put(labels, b.at, b.label);
    put(labels, a.at, a.label);
    o
}

// A call on the first n labels; seven in 64 have one fault or several, a bit for each.
fn one_call(labels: &mut [u8], n: usize, r: Axes, call: AskedEdit, x: &mut u64) -> EditOutcome {
    let some = below(x, 64);
    let faults = if some < 8 { some } else { 0 };
    let axes = faulty_axes(faults / 4 == 1, r, x);
    let len = faulty_length(faults / 2 % 2 == 1, n, x);
    if faults % 2 == 1 {
        return with_bad_labels(labels, len, axes, call, x);
    }
    cut(labels, len, axes, call)
}

// ---- all calls

fn add(t: Tally, opening: bool, o: EditOutcome) -> Tally {
    Tally {
        calls: t.calls.wrapping_add(1),
        opened: t.opened.wrapping_add(u64::from(o.done & opening)),
        closed: t.closed.wrapping_add(u64::from(o.done & !opening)),
        refused: t.refused.wrapping_add(u64::from(!o.done)),
        changed: t.changed.wrapping_add(o.changed),
        differ: t.differ.wrapping_add(o.wrong),
    }
}

fn all_calls(t: Tally, labels: &mut [u8], n: usize, r: Axes, x: &mut u64, calls: usize) -> Tally {
    let mut u = t;
    let mut last = Cell { i: 0, j: 0, k: 0 };
    for _ in 0..calls {
        let call = some_call(labels, r, last, x);
        let o = one_call(labels, n, r, call, x);
        u = add(u, call.opening, o);
        last = call.cell;
    }
    u
}

fn one_map(t: Tally, labels: &mut [u8], f: Family, x: &mut u64, calls: usize) -> Tally {
    let r0 = axis(f, x);
    let r1 = axis(f, x);
    let r2 = axis(f, x);
    let r = Axes { r0, r1, r2 };
    let n = times(times(r0, r1), r2).min(labels.len());
    make_marks(labels, n, f, r, x);
    flood(labels, n, r);
    all_calls(t, labels, n, r, x, calls)
}

fn all_maps(labels: &mut [u8], f: Family, maps: usize, calls: usize) -> Tally {
    let mut t = Tally::default();
    let mut x = 1u64;
    for _ in 0..maps {
        t = one_map(t, labels, f, &mut x, calls);
    }
    t
}

fn report(name: &[u8], f: Family, maps: usize, calls: usize) {
    let mut labels = [0u8; 4096];
    let t = all_maps(&mut labels, f, maps, calls);
    test_replay::text(name);
    test_replay::number(maps as u64);
    test_replay::number(t.calls);
    test_replay::number(t.opened);
    test_replay::number(t.closed);
    test_replay::number(t.refused);
    test_replay::number(t.changed);
    test_replay::text(b"differ ");
    test_replay::number(t.differ);
    test_replay::text(b"\n");
}

fn main() {
    report(b"random ", Family::Random, 400, 40);
    report(b"shelled ", Family::Shelled, 400, 30);
    report(b"corridor ", Family::Corridor, 300, 40);
}
