// Replays the stored cases of classes, planes and splits: standard input has the cases, `stdout` what the
// crate's lifted functions answer, and plain models for refusals (rust/lifted writes both). A case is 26
// words, which are a kind, five numbers of two words each, the placement, the descriptions of two lists (four
// words each) and the lengths of two outputs; then the stored numbers of both lists.
// - kind 0: classes; the first number is how many triangles there are, the lists are entries and ends;
// - kind 1: planes; the numbers are axis, low, high, best and step;
// - kind 2: split; the first number is the axis, the placement's first is d, the first list has the points.
#![tactic(auto)]

ghost use Rattle.std.specs.Prelude.{◌+◌, ◌*◌, ◌≤◌, length};

use grid::Placement;
use test_replay::Row;

// The lists of a case; `next` is where the stored numbers end.
#[derive(Clone, Copy)]
struct Lists {
    one: Row,
    other: Row,
    next: usize,
}

// ---- classes

fn classify_and_report(entries: &[u32], ends: &[u32], count: usize, classes: &mut [u32]) {
    match classes::classify(entries, ends, count, classes) {
        Ok(()) => {
            test_replay::text(b"classed ");
            test_replay::show(classes, count);
        }
        Err(f) => test_replay::refused(f),
    }
    test_replay::line(test_replay::sum(0, classes));
}

fn classes_to(entries: &[u32], ends: &[u32], count: usize, n: usize)
    requires { n ≤ 196620 }
{
    let mut classes: [u32; 196620] = test_replay::blank(n);
    classify_and_report(entries, ends, count, &mut classes[..n]);
}

fn classes_case(s: &[u8], at: usize, l: Lists, n: usize)
    requires at_in_bounds { (at + 104 ≤ length s.now) × (n ≤ 196620) }
    requires stored_in_bounds { (l.one.from + 4 * l.one.stored ≤ length s.now) × (l.one.length ≤ 196620) }
    requires stored_in_bounds_2 { (l.other.from + 4 * l.other.stored ≤ length s.now) × (l.other.length ≤ 196620) }
{
    let entries: [u32; 196620] = test_replay::numbers(s, l.one);
    let ends: [u32; 196620] = test_replay::numbers(s, l.other);
    let count = test_replay::wide(s, at + 4);
    classes_to(&entries[..l.one.length], &ends[..l.other.length], count, n);
}

// ---- planes

fn planes_and_report(
    at: Placement,
    axis: usize,
    low: usize,
    high: usize,
    best: usize,
    step: usize,
    ds: &mut [f32],
) {
    match planes::planes_about(at, axis, low, high, best, step, ds) {
        Ok(p) => {
            test_replay::text(b"planned ");
            test_replay::number(p.first as u64);
            test_replay::number(p.count as u64);
            test_replay::show(ds, p.count);
        }
        Err(f) => test_replay::refused(f),
    }
    test_replay::line(test_replay::sum(0, ds));
}

fn planes_case(s: &[u8], at: usize, n: usize)
    requires { (at + 104 ≤ length s.now) × (n ≤ 196620) }
{
    let axis = test_replay::wide(s, at + 4);
    let low = test_replay::wide(s, at + 12);
    let high = test_replay::wide(s, at + 20);
    let best = test_replay::wide(s, at + 28);
    let step = test_replay::wide(s, at + 36);
    let place = test_replay::placement_of(s, at + 44);
    let mut ds: [f32; 196620] = test_replay::blank(n);
    planes_and_report(place, axis, low, high, best, step, &mut ds[..n]);
}

// ---- split

fn split_and_report(ps: &[f32], axis: usize, d: f32, above: &mut [f32], below: &mut [f32]) {
    match planes::split_points(ps, axis, d, above, below) {
        Ok(n) => {
            test_replay::text(b"split ");
            test_replay::number(n.first as u64);
            test_replay::number(n.second as u64);
            test_replay::show(above, 3 * n.first.min(65536));
            test_replay::show(below, 3 * n.second.min(65536));
        }
        Err(f) => test_replay::refused(f),
    }
    test_replay::number(test_replay::sum(0, above));
    test_replay::line(test_replay::sum(0, below));
}

fn split_to(ps: &[f32], axis: usize, d: f32, n: usize, m: usize)
    requires { (n ≤ 196620) × (m ≤ 196620) }
{
    let mut above: [f32; 196620] = test_replay::blank(n);
    let mut below: [f32; 196620] = test_replay::blank(m);
    split_and_report(ps, axis, d, &mut above[..n], &mut below[..m]);
}

fn split_case(s: &[u8], at: usize, l: Lists, n: usize, m: usize)
    requires at_in_bounds { (at + 104 ≤ length s.now) × (n ≤ 196620) × (m ≤ 196620) }
    requires stored_in_bounds { (l.one.from + 4 * l.one.stored ≤ length s.now) × (l.one.length ≤ 196620) }
{
    let ps: [f32; 196620] = test_replay::numbers(s, l.one);
    let axis = test_replay::wide(s, at + 4);
    let d = program_words::float_at(s, at + 44);
    split_to(&ps[..l.one.length], axis, d, n, m);
}

// ---- the input

fn lists_of(s: &[u8], at: usize) -> Lists
    requires { at + 104 ≤ length s.now }
    ensures stored_bound { (result.one.from + 4 * result.one.stored ≤ result.next) × (result.one.length ≤ 196620) }
    ensures stored_bound_2 { (result.other.from + 4 * result.other.stored ≤ result.next) × (result.other.length ≤ 196620) }
    ensures at_bound { at + 104 ≤ result.next }
{
    let one = test_replay::row_of(s, at + 64, at + 104);
    let other = test_replay::row_of(s, at + 80, one.from + 4 * one.stored);
    let next = other.from + 4 * other.stored;
    Lists { one, other, next }
}

// The case at a place; answers where the next begins, or the end.
fn one_case(s: &[u8], at: usize) -> usize
    requires { at + 104 ≤ length s.now }
    ensures { (at + 104 ≤ result) × (result ≤ length s.now) }
{
    let l = lists_of(s, at);
    let next = l.next;
    if s.len() < next {
        return s.len();
    }
    let n = (program_words::word(s, at + 96) as usize).min(196620);
    let m = (program_words::word(s, at + 100) as usize).min(196620);
    match program_words::word(s, at) {
        0 => classes_case(s, at, l, n),
        1 => planes_case(s, at, n),
        _ => split_case(s, at, l, n, m),
    }
    next
}

fn main() {
    let mut buffer = test_replay::input();
    let n = io::read_full(0, &mut buffer);
    test_replay::each_case(&buffer[..n], 104, one_case);
}
