// Replays the stored cases of boxes: standard input has the cases, `stdout` what the crate's lifted function
// answers, each triangle 8 points back, and a plain model for refusals (rust/lifted writes both). A case is
// 15 words, which are the axes, the placement, the asked label, the description of the labels (four words) and
// the lengths of the two outputs; then the stored labels.
#![tactic(auto)]

ghost use Rattle.std.specs.Prelude.{◌≡◌, ◌+◌, ◌*◌, ◌≤◌, length};

use grid::{Axes, Placement, Refusal};
use test_replay::Row;

fn show(b: Result<usize, Refusal>, points: &[f32], triangles: &[u32]) {
    match b {
        Ok(n) => {
            test_replay::text(b"boxed ");
            test_replay::number(n as u64);
            test_replay::show(points, 24 * n.min(196620));
            test_replay::show(triangles, 36 * n.min(196620));
        }
        Err(f) => test_replay::refused(f),
    }
    test_replay::number(test_replay::sum(0, points));
    test_replay::line(test_replay::sum(0, triangles));
}

fn box_and_report(
    labels: &[u8],
    r: Axes,
    at: Placement,
    label: u8,
    points: &mut [f32],
    triangles: &mut [u32],
) {
    let b = boxes::boxes(labels, r, at, label, points, triangles);
    show(b, points, triangles);
}

fn with_outputs(labels: &[u8], r: Axes, at: Placement, label: u8, n: usize, m: usize)
    requires { (n ≤ 196620) × (m ≤ 196620) }
{
    let mut points: [f32; 196620] = test_replay::blank(n);
    let mut triangles: [u32; 196620] = test_replay::blank(m);
    box_and_report(labels, r, at, label, &mut points[..n], &mut triangles[..m]);
}

fn box_case(s: &[u8], at: usize, row: Row)
    requires { (at + 60 ≤ length s.now) × (row.from + row.stored ≤ length s.now) }
{
    let labels = test_replay::labels(s, row);
    let r = test_replay::axes_of(s, at);
    let place = test_replay::placement_of(s, at + 12);
    let label = (program_words::word(s, at + 32) % 256) as u8;
    let n = (program_words::word(s, at + 52) as usize).min(196620);
    let m = (program_words::word(s, at + 56) as usize).min(196620);
    let cells = row.length.min(65536);
    with_outputs(&labels[..cells], r, place, label, n, m);
}

// The case at a place; answers where the next begins, or the end.
fn one_case(s: &[u8], at: usize) -> usize
    requires { at + 60 ≤ length s.now }
    ensures { (at + 60 ≤ result) × (result ≤ length s.now) }
{
    let row = test_replay::row_of(s, at + 36, at + 60);
    let next = at + 60 + test_replay::padded(row.stored);
    if s.len() < next {
        return s.len();
    }
    box_case(s, at, row);
    next
}

fn main() {
    let mut buffer = test_replay::input();
    let n = io::read_full(0, &mut buffer);
    test_replay::each_case(&buffer[..n], 60, one_case);
}
