// Replays the stored cases of lists: standard input has the cases, `stdout` what the crate's lifted
// conversion answers, and plain models for refusals and ranges (rust/lifted writes both). A case is 23
// words, which are a kind, the axes, the placement, the descriptions of labels, points and triangles (four
// words each) and the lengths of the two outputs; then the stored labels, points and triangles.
// - kind 0: the list with pairs;
// - kind 1: the list without pairs;
// - kind 2: the slice of a list, which is the triangles, from the first to the second axis.
#![tactic(auto)]

ghost use Rattle.std.specs.Prelude.{◌≡◌, ◌+◌, ◌*◌, ◌≤◌, length};

use grid::{Axes, Placement, Refusal};
use list::ListCounts;
use test_replay::Row;

// The lists of a case; `next` is where the stored numbers end.
#[derive(Clone, Copy)]
struct Lists {
    labels: Row,
    points: Row,
    triangles: Row,
    next: usize,
}

// ---- with pairs

fn show(a: Result<ListCounts, Refusal>, records: &[u32], list: &[u32]) {
    match a {
        Ok(c) => {
            test_replay::text(b"listed ");
            test_replay::number(c.cells as u64);
            test_replay::number(c.pairs as u64);
            test_replay::show(records, c.cells.min(196620) * list_record::WIDTH);
            test_replay::show(list, c.pairs);
        }
        Err(f) => test_replay::refused(f),
    }
    test_replay::number(test_replay::sum(0, records));
}

fn pairs_and_report(
    points: &[f32],
    triangles: &[u32],
    r: Axes,
    at: Placement,
    labels: &[u8],
    records: &mut [u32],
    list: &mut [u32],
) {
    let a = list_pairs::list_pairs(points, triangles, r, at, labels, records, list);
    show(a, records, list);
    test_replay::line(test_replay::sum(0, list));
}

fn with_outputs(
    points: &[f32],
    triangles: &[u32],
    r: Axes,
    at: Placement,
    labels: &[u8],
    n: usize,
    m: usize,
)
    requires { (n ≤ 196620) × (m ≤ 196620) }
{
    let mut records: [u32; 196620] = test_replay::blank(n);
    let mut list: [u32; 196620] = test_replay::blank(m);
    pairs_and_report(
        points,
        triangles,
        r,
        at,
        labels,
        &mut records[..n],
        &mut list[..m],
    );
}

fn pairs_case(s: &[u8], at: usize, l: Lists, n: usize, m: usize)
    requires at_in_bounds { (at + 92 ≤ length s.now) × (n ≤ 196620) × (m ≤ 196620) }
    requires stored_in_bounds { l.labels.from + l.labels.stored ≤ length s.now }
    requires stored_in_bounds_2 { (l.points.from + 4 * l.points.stored ≤ length s.now) × (l.points.length ≤ 196620) }
    requires stored_in_bounds_3 { (l.triangles.from + 4 * l.triangles.stored ≤ length s.now) × (l.triangles.length ≤ 196620) }
{
    let labels = test_replay::labels(s, l.labels);
    let points: [f32; 196620] = test_replay::numbers(s, l.points);
    let triangles: [u32; 196620] = test_replay::numbers(s, l.triangles);
    let r = test_replay::axes_of(s, at + 4);
    let place = test_replay::placement_of(s, at + 16);
    let cells = l.labels.length.min(65536);
    with_outputs(
        &points[..l.points.length],
        &triangles[..l.triangles.length],
        r,
        place,
        &labels[..cells],
        n,
        m,
    );
}

// ---- without pairs

fn cells_and_report(labels: &[u8], r: Axes, records: &mut [u32]) {
    let a = list::list_cells(labels, r, records);
    let none = [0u32; 1];
    show(a, records, &none[..0]);
    test_replay::text(b"\n");
}

fn with_output(labels: &[u8], r: Axes, n: usize)
    requires { n ≤ 196620 }
{
    let mut records: [u32; 196620] = test_replay::blank(n);
    cells_and_report(labels, r, &mut records[..n]);
}

fn cells_case(s: &[u8], at: usize, l: Lists, n: usize)
    requires at_in_bounds { (at + 92 ≤ length s.now) × (n ≤ 196620) }
    requires stored_in_bounds { l.labels.from + l.labels.stored ≤ length s.now }
{
    let labels = test_replay::labels(s, l.labels);
    let r = test_replay::axes_of(s, at + 4);
    let cells = l.labels.length.min(65536);
    with_output(&labels[..cells], r, n);
}

// ---- ranges

fn range_and_report(list: &[u32], start: u32, end: u32) {
    test_replay::checked(list_record::check_range(list, start, end));
    let p = list_record::list_slice(list, start, end);
    test_replay::text(b"part ");
    test_replay::number(p.len() as u64);
    test_replay::show(p, p.len());
    test_replay::line(test_replay::sum(0, p));
}

fn range_case(s: &[u8], at: usize, l: Lists)
    requires at_in_bounds { at + 92 ≤ length s.now }
    requires stored_in_bounds { (l.triangles.from + 4 * l.triangles.stored ≤ length s.now) × (l.triangles.length ≤ 196620) }
{
    let list: [u32; 196620] = test_replay::numbers(s, l.triangles);
    let start = program_words::word(s, at + 4);
    let end = program_words::word(s, at + 8);
    range_and_report(&list[..l.triangles.length], start, end);
}

// ---- the input

fn lists_of(s: &[u8], at: usize) -> Lists
    requires { at + 92 ≤ length s.now }
    ensures stored_bound { (result.labels.from + result.labels.stored ≤ result.next) × (at + 92 ≤ result.next) }
    ensures stored_bound_2 { (result.points.from + 4 * result.points.stored ≤ result.next) × (result.points.length ≤ 196620) }
    ensures stored_bound_3 { (result.triangles.from + 4 * result.triangles.stored ≤ result.next) × (result.triangles.length ≤ 196620) }
{
    let labels = test_replay::row_of(s, at + 36, at + 92);
    let points = test_replay::row_of(s, at + 52, at + 92 + test_replay::padded(labels.stored));
    let triangles = test_replay::row_of(s, at + 68, points.from + 4 * points.stored);
    let next = triangles.from + 4 * triangles.stored;
    Lists {
        labels,
        points,
        triangles,
        next,
    }
}

// The case at a place; answers where the next begins, or the end.
fn one_case(s: &[u8], at: usize) -> usize
    requires { at + 92 ≤ length s.now }
    ensures { (at + 92 ≤ result) × (result ≤ length s.now) }
{
    let l = lists_of(s, at);
    let next = l.next;
    if s.len() < next {
        return s.len();
    }
    let n = (program_words::word(s, at + 84) as usize).min(196620);
    let m = (program_words::word(s, at + 88) as usize).min(196620);
    match program_words::word(s, at) {
        0 => pairs_case(s, at, l, n, m),
        1 => cells_case(s, at, l, n),
        _ => range_case(s, at, l),
    }
    next
}

fn main() {
    let mut buffer = test_replay::input();
    let n = io::read_full(0, &mut buffer);
    test_replay::each_case(&buffer[..n], 92, one_case);
}
