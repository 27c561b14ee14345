// 01's samples, run one after the other: each line is held to the file `stdout`, which was written
// from 01's text. Axes come before the bits of the origin, the scale and the reciprocal.
#![tactic(auto)]

ghost use Rattle.std.specs.Prelude.{◌≡◌, ◌<◌, length};

use fill::{FillCounts, Mode};
use grid::{Axes, Cell, Placement, Refusal};
use list::ListCounts;
use list_record::CellRecord;
use numbers::NoWhole;

// A line ends after every `layer` labels.
fn end_layer(n: usize, layer: usize)
    requires { 0 < layer }
{
    if n % layer == 0 {
        test_replay::text(b"\n");
    }
}

// The labels in the order of cell numbers, a layer of the grid to a line.
fn show(labels: &[u8], layer: usize)
    requires { 0 < layer }
{
    for (n, label) in labels.iter().enumerate() {
        test_replay::number(u64::from(*label));
        end_layer(n + 1, layer);
    }
}

// A grid over the origin and one corner.
fn by_size(x: f32, y: f32, z: f32, size: f32) {
    let points: [f32; 6] = [0.0, 0.0, 0.0, x, y, z];
    test_replay::sized(sizing::by_size(&points, size));
}

fn by_resolution(x: f32, y: f32, z: f32, r: u32) {
    let points: [f32; 6] = [0.0, 0.0, 0.0, x, y, z];
    test_replay::sized(sizing::by_resolution(&points, r));
}

// A coordinate, and its cell.
fn rounding(t: f32) {
    match numbers::to_units(t) {
        Ok(q) => {
            test_replay::signed(q);
            test_replay::signed(numbers::cell_of(q));
        }
        Err(NoWhole::TooLarge) => test_replay::text(b"large"),
        Err(NoWhole::NotANumber) => test_replay::text(b"nan"),
    }
    test_replay::text(b"\n");
}

fn three_points() -> [f32; 9] {
    [0.0, 0.0, 0.0, 2.0, 2.0, 2.0, 0.5, 0.0, 0.0]
}

// Each a single point.
fn two_triangles() -> [u32; 6] {
    [2, 2, 2, 0, 0, 0]
}

fn three_axes() -> Axes {
    Axes {
        r0: 3,
        r1: 3,
        r2: 3,
    }
}

// At the origin, with cells of size 1.
fn placement() -> Placement {
    Placement {
        x: 0.0,
        y: 0.0,
        z: 0.0,
        scale: 1.0,
        reciprocal: 1.0,
    }
}

// The surface cells of three points and two triangles.
fn marks() {
    let points = three_points();
    let triangles = two_triangles();
    let mut labels = [7u8; 27];
    match marking::mark(&points, &triangles, three_axes(), placement(), &mut labels) {
        Err(f) => test_replay::checked(Err(f)),
        Ok(()) => show(&labels, 9),
    }
}

// Fills a map and shows scans, cells left, how many cells are Outside and Inside, and the labels.
fn fill_and_show(labels: &mut [u8], r: Axes, mode: Mode, layer: usize)
    requires { 0 < layer }
{
    match fill::fill(labels, r, mode) {
        Err(f) => test_replay::checked(Err(f)),
        Ok(n) => {
            test_replay::number(n.scans as u64);
            test_replay::number(n.left as u64);
            test_replay::number(grid::count_label(labels, grid::OUTSIDE) as u64);
            test_replay::number(grid::count_label(labels, grid::INSIDE) as u64);
            test_replay::text(b"\n");
            show(labels, layer);
        }
    }
}

// What a list answers: how many cells and pairs are listed.
fn show_listing(a: Result<ListCounts, Refusal>) {
    match a {
        Err(f) => test_replay::checked(Err(f)),
        Ok(n) => {
            test_replay::number(n.cells as u64);
            test_replay::number(n.pairs as u64);
            test_replay::text(b"\n");
        }
    }
}

// An output, or a slice of one, on a line.
fn show_words(words: &[u32]) {
    for word in words {
        test_replay::number(u64::from(*word));
    }
    test_replay::text(b"\n");
}

// An output with room for three records, one to a line.
fn show_records(records: [u32; 18]) {
    show_words(&records[0..6]);
    show_words(&records[6..12]);
    show_words(&records[12..18]);
}

// The triangles of a listed cell.
fn show_part(list: &[u32], e: CellRecord) {
    show_words(list_record::list_slice(list, e.start, e.end));
}

// Lists a map and shows the answer and the whole output, which was 9 before: past the answer it stays.
fn list_without_pairs(labels: &[u8]) {
    let mut records = [9u32; 18];
    let a = list::list_cells(labels, three_axes(), &mut records);
    show_listing(a);
    show_records(records);
}

// The same with pairs, over the points and triangles of `marks`; answers the records.
fn list_with_pairs(labels: &[u8], list: &mut [u32]) -> [u32; 18] {
    let points = three_points();
    let triangles = two_triangles();
    let mut records = [9u32; 18];
    let a = list_pairs::list_pairs(
        &points,
        &triangles,
        three_axes(),
        placement(),
        labels,
        &mut records,
        list,
    );
    show_listing(a);
    show_records(records);
    show_words(list);
    records
}

// The list of a map without pairs; with pairs, and each record's triangles; and with an output of triangle
// numbers that is one too short.
fn lists(labels: &[u8]) {
    list_without_pairs(labels);
    let mut list = [9u32; 5];
    let records = list_with_pairs(labels, &mut list);
    show_part(&list, list_record::read(&records, 0));
    show_part(&list, list_record::read(&records, 1));
    let mut short = [9u32; 2];
    list_with_pairs(labels, &mut short);
}

// The map of `marks`, two cells of 3 by 3 by 3, and its list.
fn two_cells(mode: Mode) {
    let mut labels = [0u8; 27];
    labels[0] = grid::SURFACE;
    labels[1] = grid::SURFACE;
    fill_and_show(&mut labels, three_axes(), mode, 9);
    lists(&labels);
}

// 3 by 3 by 3, all but the centre marked.
fn three(mode: Mode) {
    let mut labels = [8u8; 27];
    labels[13] = grid::UNDEFINED;
    fill_and_show(&mut labels, three_axes(), mode, 9);
}

// Whether a place on an axis of 5 is neither first nor last.
fn between(n: usize) -> bool {
    (1 <= n) & (n <= 3)
}

fn marked_about_the_centre(n: usize) -> u8 {
    let near = between(n % 5) & between(n / 5 % 5) & between(n / 25);
    if near & (n != 62) {
        grid::SURFACE
    } else {
        grid::UNDEFINED
    }
}

// Those points and triangles as an input of the program: a head, three points, two triangles and the
// end.
fn three_records() -> [u8; 80] {
    [
        86, 104, 0, 1, 0, 0, 128, 63, 86, 112, 0, 0, 0, 0, 0, 0, 0, 0, 0, 0, 0, 0, 86, 112, 0, 0,
        0, 64, 0, 0, 0, 64, 0, 0, 0, 64, 86, 112, 0, 0, 0, 63, 0, 0, 0, 0, 0, 0, 0, 0, 86, 116, 2,
        0, 0, 0, 2, 0, 0, 0, 2, 0, 0, 0, 86, 116, 0, 0, 0, 0, 0, 0, 0, 0, 0, 0, 0, 0, 86, 122,
    ]
}

// What the program prints of it.
fn run_three() {
    let input = three_records();
    let mut output = [0u8; 256];
    match program::run(&input, &mut output) {
        Err(f) => test_replay::checked(Err(f)),
        Ok(n) => test_replay::text(&output[..n]),
    }
}

// 5 by 5 by 5, the 26 cells about the centre marked.
fn marks_about_the_centre() -> [u8; 125]
    ensures { 125 ≡ length result }
{
    std::array::from_fn(marked_about_the_centre)
}

fn five_axes() -> Axes {
    Axes {
        r0: 5,
        r1: 5,
        r2: 5,
    }
}

fn five(mode: Mode) {
    let mut labels = marks_about_the_centre();
    fill_and_show(&mut labels, five_axes(), mode, 25);
}

// How many labels an edit changed, and the labels after it.
fn edited(e: Result<usize, Refusal>, labels: &[u8]) {
    match e {
        Err(f) => test_replay::checked(Err(f)),
        Ok(n) => {
            test_replay::number(n as u64);
            test_replay::text(b"\n");
            show(labels, 25);
        }
    }
}

// That map: a cell is opened and closed, and the centre cannot be opened.
fn open_and_close() {
    let mut labels = marks_about_the_centre();
    let r = five_axes();
    fill_and_show(&mut labels, r, Mode::Flood, 25);
    let c = Cell { i: 1, j: 2, k: 2 };
    let opened = edits::open_cell(&mut labels, r, c);
    edited(opened, &labels);
    let closed = edits::close_cell(&mut labels, r, c);
    edited(closed, &labels);
    let centre = edits::open_cell(&mut labels, r, Cell { i: 2, j: 2, k: 2 });
    edited(centre, &labels);
}

fn main() {
    by_size(30.0, 0.0, 0.0, 1.5);
    by_size(30.0, 0.0, 0.0, 15.0);
    by_size(255.0, 0.0, 0.0, 1.0);
    by_size(255.5, 0.0, 0.0, 1.0);
    by_resolution(4.0, 2.0, 1.0, 10);
    by_resolution(2.0, 2.0, 1.0, 4);
    by_resolution(2.0, 2.0, 1.0, 1);
    rounding(0.25);
    rounding(0.5);
    let r = Axes {
        r0: 3,
        r1: 3,
        r2: 3,
    };
    let c = Cell { i: 1, j: 2, k: 0 };
    test_replay::number(grid::number(r, c) as u64);
    test_replay::text(b"\n");
    marks();
    two_cells(Mode::Flood);
    run_three();
    three(Mode::Flood);
    three(Mode::Cavities);
    five(Mode::Cavities);
    open_and_close();
}
