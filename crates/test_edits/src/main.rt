// Replays the stored cases of opening and closing cells: standard input has the cases, `stdout` what a plain
// model of the rules answers (rust/lifted writes both). A case is eleven words: a kind, the axes, the length
// of the label buffer, three numbers a, b and c, a way, a count and a seed; then what its kind says:
// - kind 0: a bit for each cell, 1 if it is surface; the labels are what a flood makes of them;
// - kind 1: nothing; the same of cells that come from a seed a and a density b;
// - kind 2: the labels themselves;
// - kind 3: nothing; the labels 6, 7 and 8 come from a seed a and two densities b and c;
// - kind 4: a pattern of a grids, see below.
// The way says which edits are made, one after the other on the same labels:
// - way 0: those that follow, `count` of four words each: 0 to open and 1 to close, and the cell;
// - way 1: `count` of them, drawn from the seed;
// - way 2: each cell in turn is edited twice, so that a fill is as it was.
// A pattern has a byte for each cell. Its remainder by 16 is the cell's label or, if it is 0, one that takes
// each of 6, 7 and 8; the cells of a byte of 16 or more are opened and closed, each time from the grid's labels.
#![tactic(auto)]

ghost use Rattle.std.specs.Prelude.{◌≡◌, ◌+◌, ◌≤◌, length};

use fill::Mode;
use grid::{Axes, Cell, Refusal};

// Over many calls: how many were answered and how many refused, all the labels that they changed, and a number
// that depends on every answer and on every label after each call. The totals are modulo 2^32.
#[derive(Clone, Copy, Default)]
struct Tally {
    answered: u64,
    refused: u64,
    changed: u64,
    sum: u64,
}

// ---- labels before the calls

// The label of a random number: for kind 1 surface or none, about b of 256 surface; for kind 3 about b of 256
// are 8 and the next c are 7.
fn label_of(kind: u32, x: u64, b: u32, c: u32) -> u8 {
    let v = x / 65536 % 256;
    if v < b as u64 {
        return grid::SURFACE;
    }
    if kind == 1 {
        return 0;
    }
    if v < b as u64 + c as u64 {
        grid::INSIDE
    } else {
        grid::OUTSIDE
    }
}

// Kinds 1 and 3: a random number for each cell, from the seed a on.
fn random(kind: u32, a: u32, b: u32, c: u32, n: usize) -> [u8; 65536]
    requires { n ≤ 65536 }
    ensures { 65536 ≡ length result }
{
    let mut out = [0u8; 65536];
    let mut x = a as u64;
    for label in out[..n].iter_mut() {
        x = test_replay::drawn(x);
        *label = label_of(kind, x, b, c);
    }
    out
}

// ---- calls

fn edited(way: u32, labels: &mut [u8], r: Axes, c: Cell) -> Result<usize, Refusal> {
    if way == 0 {
        return edits::open_cell(labels, r, c);
    }
    edits::close_cell(labels, r, c)
}

// The cell of a number; an axis of no cells counts as one.
fn cell_of(r: Axes, n: usize) -> Cell {
    let row = r.r0.max(1);
    let rows = r.r1.max(1);
    let column = n / row;
    Cell {
        i: n % row,
        j: column % rows,
        k: column / rows,
    }
}

// What can be done to a cell: a surface cell is opened, any other closed.
fn way_at(labels: &[u8], n: usize) -> u32 {
    match labels.get(n) {
        Some(label) => u32::from(*label != grid::SURFACE),
        None => 0,
    }
}

// ---- what calls come to

fn plus(x: u64, y: u64) -> u64 {
    (x % 4294967296 + y % 4294967296) % 4294967296
}

fn added(t: Tally, e: Result<usize, Refusal>) -> Tally {
    match e {
        Ok(n) => Tally {
            answered: plus(t.answered, 1),
            refused: t.refused,
            changed: plus(t.changed, n as u64),
            sum: test_replay::folded(t.sum, n as u64),
        },
        Err(f) => Tally {
            answered: t.answered,
            refused: plus(t.refused, 1),
            changed: t.changed,
            sum: test_replay::folded(
                test_replay::folded(t.sum, u64::from(f.reason.number())),
                f.place as u64,
            ),
        },
    }
}

// One call more.
fn tallied(t: Tally, way: u32, labels: &mut [u8], r: Axes, c: Cell) -> Tally {
    let u = added(t, edited(way, labels, r, c));
    Tally {
        answered: u.answered,
        refused: u.refused,
        changed: u.changed,
        sum: test_replay::sum(u.sum, labels),
    }
}

fn report(t: Tally) {
    test_replay::text(b"calls ");
    test_replay::number(t.answered);
    test_replay::number(t.refused);
    test_replay::number(t.changed);
    test_replay::number(t.sum);
    test_replay::text(b"\n");
}

// ---- way 0: the edits of the input, with a line for each

fn report_one(e: Result<usize, Refusal>, labels: &[u8]) {
    match e {
        Ok(n) => {
            test_replay::text(b"changed ");
            test_replay::number(n as u64);
            test_replay::number(grid::count_label(labels, grid::OUTSIDE) as u64);
            test_replay::number(grid::count_label(labels, grid::INSIDE) as u64);
            test_replay::number(grid::count_label(labels, grid::SURFACE) as u64);
        }
        Err(f) => {
            test_replay::text(b"refused ");
            test_replay::number(u64::from(f.reason.number()));
            test_replay::number(f.place as u64);
        }
    }
    test_replay::number(test_replay::sum(0, labels));
    test_replay::text(b"\n");
}

fn listed_edit(s: &[u8], at: usize, labels: &mut [u8], r: Axes)
    requires { at + 16 ≤ length s.now }
{
    let c = Cell {
        i: program_words::word(s, at + 4) as usize,
        j: program_words::word(s, at + 8) as usize,
        k: program_words::word(s, at + 12) as usize,
    };
    let e = edited(program_words::word(s, at), labels, r, c);
    report_one(e, labels);
}

// Answers where the edits end.
fn listed(s: &[u8], from: usize, count: usize, labels: &mut [u8], r: Axes) -> usize
    requires { from ≤ length s.now }
    ensures { (from ≤ result) × (result ≤ length s.now) }
{
    let n = count.min((s.len() - from) / 16);
    for i in 0..n {
        listed_edit(s, from + 16 * i, labels, r);
    }
    from + 16 * n
}

// ---- way 1: random edits

// Of 32 draws, one opens and one closes whatever the cell is; the others do what can be done to it.
fn drawn_way(v: u64, labels: &[u8], n: usize) -> u32 {
    match v {
        0 => 0,
        1 => 1,
        _ => way_at(labels, n),
    }
}

fn beyond(at: usize, axis: usize) -> usize {
    (at % 65536) + (axis % 65536)
}

// Three of 32 draws are off the grid, by an axis each.
fn drawn_cell(v: u64, r: Axes, n: usize) -> Cell {
    let c = cell_of(r, n);
    match v {
        2 => Cell {
            i: beyond(c.i, r.r0),
            ..c
        },
        3 => Cell {
            j: beyond(c.j, r.r1),
            ..c
        },
        4 => Cell {
            k: beyond(c.k, r.r2),
            ..c
        },
        _ => c,
    }
}

// The edit of two random numbers x and y.
fn drawn_edit(t: Tally, x: u64, y: u64, labels: &mut [u8], r: Axes) -> Tally {
    let n = (x / 256) as usize % labels.len().max(1);
    let v = y / 65536 % 32;
    let way = drawn_way(v, labels, n);
    tallied(t, way, labels, r, drawn_cell(v, r, n))
}

fn random_edits(seed: u32, count: usize, labels: &mut [u8], r: Axes) -> Tally {
    let mut t = Tally::default();
    let mut x = seed as u64;
    for _ in 0..count {
        let y = test_replay::drawn(x);
        x = test_replay::drawn(y);
        t = drawn_edit(t, y, x, labels, r);
    }
    t
}

// ---- way 2: each cell

fn twice(t: Tally, n: usize, labels: &mut [u8], r: Axes) -> Tally {
    let c = cell_of(r, n);
    let first = way_at(labels, n);
    let u = tallied(t, first, labels, r, c);
    let second = way_at(labels, n);
    tallied(u, second, labels, r, c)
}

fn each_cell(labels: &mut [u8], r: Axes) -> Tally {
    let mut t = Tally::default();
    for n in 0..labels.len() {
        t = twice(t, n, labels, r);
    }
    t
}

// ---- a case of one grid

// Makes the edits of the case at a place, whose list begins at `from`; answers where that ends.
fn performed(s: &[u8], at: usize, from: usize, labels: &mut [u8], r: Axes) -> usize
    requires { (at + 44 ≤ from) × (from ≤ length s.now) }
    ensures { (from ≤ result) × (result ≤ length s.now) }
{
    let count = program_words::word(s, at + 36) as usize;
    let seed = program_words::word(s, at + 40);
    match program_words::word(s, at + 32) {
        0 => return listed(s, from, count, labels, r),
        1 => report(random_edits(seed, count, labels, r)),
        _ => report(each_cell(labels, r)),
    }
    from
}

// A case's bits or random cells are marks, of which a flood makes the labels.
fn flooded_and_performed(s: &[u8], at: usize, from: usize, labels: &mut [u8], r: Axes) -> usize
    requires { (at + 44 ≤ from) × (from ≤ length s.now) }
    ensures { (from ≤ result) × (result ≤ length s.now) }
{
    if program_words::word(s, at) < 2 {
        let _ = fill::fill(labels, r, Mode::Flood);
    }
    performed(s, at, from, labels, r)
}

fn one_grid(s: &[u8], at: usize, from: usize, before: [u8; 65536], n: usize, r: Axes) -> usize
    requires at_bound { (at + 44 ≤ from) × (from ≤ length s.now) }
    requires value { (65536 ≡ length before) × (n ≤ 65536) }
    ensures { (from ≤ result) × (result ≤ length s.now) }
{
    let mut labels = before;
    flooded_and_performed(s, at, from, &mut labels[..n], r)
}

// ---- a case of many grids

// What a byte of the pattern makes of a grid's number: the label of a free cell is the last digit to base 3.
fn pattern_label(byte: u8, m: usize) -> u8 {
    if byte % 16 == 0 {
        return (6 + m % 3) as u8;
    }
    byte % 16
}

fn digits_left(byte: u8, m: usize) -> usize {
    if byte % 16 == 0 { m / 3 } else { m }
}

// Grid m of the pattern.
fn numbered(s: &[u8], from: usize, n: usize, m: usize) -> [u8; 512]
    requires { (from + n ≤ length s.now) × (n ≤ 512) }
    ensures { 512 ≡ length result }
{
    let mut out = [0u8; 512];
    let mut rest = m;
    for (i, label) in out[..n].iter_mut().enumerate() {
        let byte = s[from + i];
        *label = pattern_label(byte, rest);
        rest = digits_left(byte, rest);
    }
    out
}

fn from_fresh(t: Tally, way: u32, before: [u8; 512], n: usize, r: Axes, c: Cell) -> Tally
    requires { (512 ≡ length before) × (n ≤ 512) }
{
    let mut labels = before;
    tallied(t, way, &mut labels[..n], r, c)
}

fn pattern_cell(t: Tally, byte: u8, before: [u8; 512], n: usize, r: Axes, c: Cell) -> Tally
    requires { (512 ≡ length before) × (n ≤ 512) }
{
    if byte < 16 {
        return t;
    }
    let u = from_fresh(t, 0, before, n, r, c);
    from_fresh(u, 1, before, n, r, c)
}

fn pattern_cells(
    before: Tally,
    s: &[u8],
    from: usize,
    labels: [u8; 512],
    n: usize,
    r: Axes,
) -> Tally
    requires n_in_bounds { (from + n ≤ length s.now) × (n ≤ 512) }
    requires value { 512 ≡ length labels }
{
    let mut t = before;
    for (i, byte) in s[from..from + n].iter().enumerate() {
        t = pattern_cell(t, *byte, labels, n, r, cell_of(r, i));
    }
    t
}

fn pattern_grids(s: &[u8], from: usize, n: usize, grids: usize, r: Axes) -> Tally
    requires { (from + n ≤ length s.now) × (n ≤ 512) }
{
    let mut t = Tally::default();
    for m in 0..grids {
        t = pattern_cells(t, s, from, numbered(s, from, n, m), n, r);
    }
    t
}

// ---- the input

// A case of kind 0 at a place; answers where the next begins, or the end.
fn bits_case(s: &[u8], at: usize, n: usize, r: Axes) -> usize
    requires { (at + 44 ≤ length s.now) × (n ≤ 65536) }
    ensures { (at + 44 ≤ result) × (result ≤ length s.now) }
{
    let from = at + 44;
    let size = (n + 31) / 32 * 4;
    if s.len() - from < size {
        return s.len();
    }
    one_grid(s, at, from + size, test_replay::marks_of(s, from, n), n, r)
}

// The same of kind 2.
fn bytes_case(s: &[u8], at: usize, n: usize, r: Axes) -> usize
    requires { (at + 44 ≤ length s.now) × (n ≤ 65536) }
    ensures { (at + 44 ≤ result) × (result ≤ length s.now) }
{
    let from = at + 44;
    let size = (n + 3) / 4 * 4;
    if s.len() - from < size {
        return s.len();
    }
    one_grid(s, at, from + size, test_replay::labels_of(s, from, n), n, r)
}

// The same of kinds 1 and 3.
fn random_case(s: &[u8], at: usize, n: usize, r: Axes) -> usize
    requires { (at + 44 ≤ length s.now) × (n ≤ 65536) }
    ensures { (at + 44 ≤ result) × (result ≤ length s.now) }
{
    let kind = program_words::word(s, at);
    let a = program_words::word(s, at + 20);
    let b = program_words::word(s, at + 24);
    let c = program_words::word(s, at + 28);
    one_grid(s, at, at + 44, random(kind, a, b, c, n), n, r)
}

// The same of kind 4.
fn pattern_case(s: &[u8], at: usize, len: usize, r: Axes) -> usize
    requires { at + 44 ≤ length s.now }
    ensures { (at + 44 ≤ result) × (result ≤ length s.now) }
{
    let from = at + 44;
    let n = len.min(512);
    let size = (n + 3) / 4 * 4;
    if s.len() - from < size {
        return s.len();
    }
    report(pattern_grids(s, from, n, program_words::word(s, at + 20) as usize, r));
    from + size
}

// The case at a place; answers where the next begins, or the end.
fn one_case(s: &[u8], at: usize) -> usize
    requires { at + 44 ≤ length s.now }
    ensures { (at + 44 ≤ result) × (result ≤ length s.now) }
{
    let n = (program_words::word(s, at + 16) as usize).min(65536);
    let r = test_replay::axes_of(s, at + 4);
    match program_words::word(s, at) {
        0 => bits_case(s, at, n, r),
        1 | 3 => random_case(s, at, n, r),
        2 => bytes_case(s, at, n, r),
        4 => pattern_case(s, at, n, r),
        _ => s.len(),
    }
}

fn main() {
    let mut buffer = io::large_buffer();
    let n = io::read_full(0, &mut buffer);
    test_replay::each_case(&buffer[..n], 44, one_case);
}
