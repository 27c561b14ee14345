// Replays the stored cases of marking: standard input has the cases, `stdout` what an independent
// model answers (rust/lifted writes both). A case is eleven words, which are the lengths of the two lists,
// the axes, the placement and the length of the label buffer; then the points and the triangles. A
// list of more than 192 numbers is not stored: it has ones, or zeros.
#![tactic(auto)]

ghost use Rattle.std.specs.Prelude.{◌≡◌, ◌+◌, ◌*◌, ◌≤◌, length};

use grid::{Axes, Placement, Refusal};

fn zeros() -> [u32; 196620]
    ensures { 196620 ≡ length result }
{
    [0u32; 196620]
}

// Labels that marking never writes, so that one that it leaves is seen.
fn pattern() -> [u8; 65536]
    ensures { 65536 ≡ length result }
{
    std::array::from_fn(|i| (i % 5 + 1) as u8)
}

fn report(m: Result<(), Refusal>, labels: &[u8]) {
    match m {
        Ok(()) => {
            test_replay::text(b"marked ");
            test_replay::number(grid::count_label(labels, grid::SURFACE) as u64);
        }
        Err(f) => {
            test_replay::text(b"refused ");
            test_replay::number(u64::from(f.reason.number()));
            test_replay::number(f.place as u64);
        }
    }
    test_replay::number(test_replay::sum(0, labels));
    test_replay::text(b"\n");
}

fn mark_and_report(points: &[f32], triangles: &[u32], r: Axes, at: Placement, labels: &mut [u8]) {
    let m = marking::mark(points, triangles, r, at, labels);
    report(m, labels);
}

fn marked(points: &[f32], triangles: &[u32], r: Axes, at: Placement, len: usize) {
    let mut labels = pattern();
    mark_and_report(points, triangles, r, at, &mut labels[..len.min(65536)]);
}

fn long_case(s: &[u8], at: usize, p: usize, t: usize)
    requires { at + 44 ≤ length s.now }
{
    let points = test_replay::ones();
    let triangles = zeros();
    let r = test_replay::axes_of(s, at + 8);
    let place = test_replay::placement_of(s, at + 20);
    marked(
        &points[..p.min(196620)],
        &triangles[..t.min(196620)],
        r,
        place,
        program_words::word(s, at + 40) as usize,
    );
}

fn stored_case(s: &[u8], at: usize, p: usize, t: usize)
    requires { (at + 44 + 4 * p + 4 * t ≤ length s.now) × (p ≤ 192) × (t ≤ 192) }
{
    let from = at + 44;
    let points: [f32; 192] = test_replay::list_of(s, from, p);
    let triangles: [u32; 192] = test_replay::list_of(s, from + 4 * p, t);
    let r = test_replay::axes_of(s, at + 8);
    let place = test_replay::placement_of(s, at + 20);
    marked(
        &points[..p],
        &triangles[..t],
        r,
        place,
        program_words::word(s, at + 40) as usize,
    );
}

// The case at a place; answers where the next begins, or the end.
fn one_case(s: &[u8], at: usize) -> usize
    requires { at + 44 ≤ length s.now }
    ensures { (at + 44 ≤ result) × (result ≤ length s.now) }
{
    let p = program_words::word(s, at) as usize;
    let t = program_words::word(s, at + 4) as usize;
    if (192 < p) | (192 < t) {
        long_case(s, at, p, t);
        return at + 44;
    }
    let next = at + 44 + 4 * p + 4 * t;
    if s.len() < next {
        return s.len();
    }
    stored_case(s, at, p, t);
    next
}

fn main() {
    let mut buffer = io::large_buffer();
    let n = io::read_full(0, &mut buffer);
    test_replay::each_case(&buffer[..n], 44, one_case);
}
