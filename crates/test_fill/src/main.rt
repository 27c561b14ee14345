// Replays the stored cases of filling: standard input has the cases, `stdout` what the crate's lifted
// fill answers, and a plain model for refusals (rust/lifted writes both). A case is seven words, which
// are a kind, the axes, the length of the label buffer and two numbers; then what its kind says:
// - kind 0: a bit for each cell, 1 if it is surface;
// - kind 1: nothing; the cells come from the two numbers, a seed and a density;
// - kind 2: nothing; the case is every grid of that many cells, at most 12;
// - kind 3: the labels themselves.
// Each case is run in the three modes, each time from the labels that the case gives.
#![tactic(auto)]

ghost use Rattle.std.specs.Prelude.{◌≡◌, ◌+◌, ◌*◌, ◌≤◌, ◌<◌, length};

use fill::{FillCounts, Mode};
use grid::{Axes, Refusal};

// Over all grids of a case: the scans, the cells left, and a number that depends on every label.
#[derive(Clone, Copy)]
struct Tally {
    scans: u64,
    left: u64,
    sum: u64,
}

// ---- labels before a call

// Kind 1: a random number for each cell, from the seed a on; about b of 256 cells are surface.
fn random(a: u32, b: u32, n: usize) -> [u8; 65536]
    requires { n ≤ 65536 }
    ensures { 65536 ≡ length result }
{
    let mut out = [0u8; 65536];
    let mut x = a as u64;
    for label in out[..n].iter_mut() {
        x = test_replay::drawn(x);
        *label = test_replay::label_if(x / 65536 % 256 < b as u64);
    }
    out
}

// Kind 2: cell i is bit i of m, the grid's number.
fn numbered(m: usize) -> [u8; 12]
    ensures { 12 ≡ length result }
{
    std::array::from_fn(|i| test_replay::label_if(m >> i & 1 == 1))
}

// ---- labels after it

// Small enough that a sum of it over all grids fits.
fn reduced(x: usize) -> u64
    ensures { result < 4294967291 }
{
    (x % 4294967291) as u64
}

// ---- a case of one grid

fn report(f: Result<FillCounts, Refusal>, labels: &[u8]) {
    match f {
        Ok(c) => {
            test_replay::text(b"filled ");
            test_replay::number(c.scans as u64);
            test_replay::number(c.left as u64);
            test_replay::number(grid::count_label(labels, grid::OUTSIDE) as u64);
            test_replay::number(grid::count_label(labels, grid::INSIDE) as u64);
            test_replay::number(grid::count_label(labels, grid::SURFACE) as u64);
        }
        Err(f) => {
            test_replay::text(b"refused ");
            test_replay::number(u64::from(f.reason.number()));
            test_replay::number(f.place as u64);
        }
    }
    test_replay::number(test_replay::sum(0, labels));
    test_replay::text(b"\n");
}

fn fill_and_report(labels: &mut [u8], r: Axes, mode: Mode) {
    let f = fill::fill(labels, r, mode);
    report(f, labels);
}

fn filled(before: [u8; 65536], n: usize, r: Axes, mode: Mode)
    requires { (65536 ≡ length before) × (n ≤ 65536) }
{
    let mut labels = before;
    fill_and_report(&mut labels[..n], r, mode);
}

fn each_mode(labels: [u8; 65536], n: usize, r: Axes)
    requires { (65536 ≡ length labels) × (n ≤ 65536) }
{
    for mode in [Mode::SurfaceOnly, Mode::Flood, Mode::Cavities] {
        filled(labels, n, r, mode);
    }
}

// ---- a case of every grid

fn counts_of(f: Result<FillCounts, Refusal>) -> FillCounts {
    match f {
        Ok(c) => c,
        Err(_) => FillCounts { scans: 0, left: 0 },
    }
}

// How many grids of n cells there are.
fn grids(n: usize) -> usize
    requires { n ≤ 12 }
    ensures { result ≤ 4096 }
{
    1usize << n
}

// Fills one grid more and adds what it answers; a refusal adds nothing to the counts.
fn tallied(t: Tally, labels: &mut [u8], r: Axes, mode: Mode) -> Tally
    requires { (t.scans ≤ 4294967291 * 4096) × (t.left ≤ 4294967291 * 4096) }
    ensures { (result.scans ≤ t.scans + 4294967291) × (result.left ≤ t.left + 4294967291) }
{
    let c = counts_of(fill::fill(labels, r, mode));
    let s = test_replay::sum(t.sum, labels);
    Tally {
        scans: t.scans + reduced(c.scans),
        left: t.left + reduced(c.left),
        sum: test_replay::folded(test_replay::folded(s, c.scans as u64), c.left as u64),
    }
}

fn next_grid(t: Tally, m: usize, n: usize, r: Axes, mode: Mode) -> Tally
    requires n_bound { n ≤ 12 }
    requires scans_bound { (t.scans ≤ 4294967291 * 4096) × (t.left ≤ 4294967291 * 4096) }
    ensures { (result.scans ≤ t.scans + 4294967291) × (result.left ≤ t.left + 4294967291) }
{
    let mut labels = numbered(m);
    tallied(t, &mut labels[..n], r, mode)
}

fn every_grid(n: usize, r: Axes, mode: Mode) -> Tally
    requires { n ≤ 12 }
{
    let mut t = Tally {
        scans: 0,
        left: 0,
        sum: 0,
    };
    for m in 0..grids(n) {
        t = next_grid(t, m, n, r, mode);
    }
    t
}

fn report_every(n: usize, r: Axes, mode: Mode)
    requires { n ≤ 12 }
{
    let t = every_grid(n, r, mode);
    test_replay::text(b"every ");
    test_replay::number(grids(n) as u64);
    test_replay::number(t.scans);
    test_replay::number(t.left);
    test_replay::number(t.sum);
    test_replay::text(b"\n");
}

fn every_case(len: usize, r: Axes) {
    let n = len.min(12);
    for mode in [Mode::SurfaceOnly, Mode::Flood, Mode::Cavities] {
        report_every(n, r, mode);
    }
}

// ---- the input

// A case of kind 0, whose bits begin at a place; answers where the next case begins, or the end.
fn bits_case(s: &[u8], from: usize, n: usize, r: Axes) -> usize
    requires { (from ≤ length s.now) × (n ≤ 65536) }
    ensures { (from ≤ result) × (result ≤ length s.now) }
{
    let size = (n + 31) / 32 * 4;
    if s.len() - from < size {
        return s.len();
    }
    each_mode(test_replay::marks_of(s, from, n), n, r);
    from + size
}

// The same of kind 3.
fn bytes_case(s: &[u8], from: usize, n: usize, r: Axes) -> usize
    requires { (from ≤ length s.now) × (n ≤ 65536) }
    ensures { (from ≤ result) × (result ≤ length s.now) }
{
    let size = (n + 3) / 4 * 4;
    if s.len() - from < size {
        return s.len();
    }
    each_mode(test_replay::labels_of(s, from, n), n, r);
    from + size
}

fn random_case(s: &[u8], at: usize, n: usize, r: Axes)
    requires { (at + 28 ≤ length s.now) × (n ≤ 65536) }
{
    let a = program_words::word(s, at + 20);
    let b = program_words::word(s, at + 24);
    each_mode(random(a, b, n), n, r);
}

// The case at a place; answers where the next begins, or the end.
fn one_case(s: &[u8], at: usize) -> usize
    requires { at + 28 ≤ length s.now }
    ensures { (at + 28 ≤ result) × (result ≤ length s.now) }
{
    let n = (program_words::word(s, at + 16) as usize).min(65536);
    let r = test_replay::axes_of(s, at + 4);
    let next = at + 28;
    match program_words::word(s, at) {
        0 => bits_case(s, next, n, r),
        1 => {
            random_case(s, at, n, r);
            next
        }
        2 => {
            every_case(n, r);
            next
        }
        3 => bytes_case(s, next, n, r),
        _ => s.len(),
    }
}

fn main() {
    let mut buffer = io::large_buffer();
    let n = io::read_full(0, &mut buffer);
    test_replay::each_case(&buffer[..n], 28, one_case);
}
