// Replays the stored cases of the program: standard input has the cases, `stdout` what a plain model of
// document 01 answers (rust/lifted writes both). A case is two words, which are a kind and a length, and so
// many bytes of input.
// - kind 0: the input as it stands;
// - kind 1: each of its prefixes, and then each of its bytes changed to each other value.
#![tactic(auto)]

ghost use Rattle.std.specs.Prelude.{◌≡◌, ◌+◌, ◌≤◌, ◌<◌, length};

use grid::Refusal;
use program_summary::Summary;

// How many inputs were mapped, and a number that depends on all that was said and written.
#[derive(Clone, Copy)]
struct Total {
    mapped: u64,
    sum: u64,
}

// ---- what is said and written, as text

fn show_numbers(n: Summary) {
    let r = n.axes;
    test_replay::text(b"summed ");
    test_replay::number(r.r0 as u64);
    test_replay::number(r.r1 as u64);
    test_replay::number(r.r2 as u64);
    test_replay::number(n.outside as u64);
    test_replay::number(n.inside as u64);
    test_replay::number(n.surface as u64);
    test_replay::number(n.left as u64);
    test_replay::number(n.scans as u64);
}

fn show_said(s: Result<Summary, Refusal>) {
    match s {
        Ok(n) => show_numbers(n),
        Err(f) => test_replay::refused(f),
    }
}

fn show_written(w: Result<usize, Refusal>) {
    match w {
        Ok(n) => {
            test_replay::text(b"wrote ");
            test_replay::number(n as u64);
        }
        Err(f) => test_replay::refused(f),
    }
}

// How many bytes were written, if that is at most so many.
fn count(w: Result<usize, Refusal>, most: usize) -> usize
    ensures { result ≤ most }
{
    match w {
        Ok(n) => n.min(most),
        Err(_) => 0,
    }
}

// ---- and as one number

fn fold_numbers(t: u64, n: Summary) -> u64 {
    let r = n.axes;
    let a = test_replay::folded(t, r.r0 as u64);
    let b = test_replay::folded(a, r.r1 as u64);
    let c = test_replay::folded(b, r.r2 as u64);
    let d = test_replay::folded(c, n.outside as u64);
    let e = test_replay::folded(d, n.inside as u64);
    let f = test_replay::folded(e, n.surface as u64);
    let g = test_replay::folded(f, n.left as u64);
    test_replay::folded(g, n.scans as u64)
}

fn fold_said(t: u64, s: Result<Summary, Refusal>) -> u64 {
    match s {
        Ok(n) => fold_numbers(t, n),
        Err(f) => {
            let a = test_replay::folded(t, u64::from(f.reason.number()));
            test_replay::folded(a, f.place as u64)
        }
    }
}

fn mapped(s: Result<Summary, Refusal>) -> u64
    ensures { result ≤ 1 }
{
    match s {
        Ok(_) => 1,
        Err(_) => 0,
    }
}

// ---- outputs

// An output before a call.
fn blank() -> [u8; 300]
    ensures { 300 ≡ length result }
{
    std::array::from_fn(|i| (i % 97) as u8 + 100)
}

fn run_and_show(input: &[u8], out: &mut [u8]) -> usize
    ensures { result ≤ 300 }
{
    let w = program::run(input, out);
    show_written(w);
    test_replay::number(test_replay::sum(0, out));
    count(w, 300)
}

// Runs with an output of so many bytes, and answers how many were written.
fn run_in(input: &[u8], n: usize) -> usize
    requires { n ≤ 300 }
    ensures { result ≤ 300 }
{
    let mut out = blank();
    run_and_show(input, &mut out[..n])
}

fn run_and_fold(t: u64, input: &[u8]) -> u64 {
    let mut out = blank();
    let w = program::run(input, &mut out);
    let k = count(w, 300);
    test_replay::sum(test_replay::folded(t, k as u64), &out)
}

// ---- an input

// What is said of it, then what is written to an output that has room, that just has room, and that is a
// byte short.
fn report(input: &[u8]) {
    show_said(program_summary::summarize(input));
    let n = run_in(input, 300);
    run_in(input, n);
    if 0 < n {
        run_in(input, n - 1);
    }
    test_replay::text(b"\n");
}

fn each_prefix(s: &[u8]) {
    for n in 0..=s.len() {
        report(&s[..n]);
    }
}

fn copied(s: &[u8]) -> [u8; 256]
    requires { length s.now ≤ 256 }
    ensures { 256 ≡ length result }
{
    let mut out = [0u8; 256];
    out[..s.len()].copy_from_slice(s);
    out
}

// The input with one byte changed, by 1 to 255.
fn changed(s: &[u8], at: usize, by: u8) -> [u8; 256]
    requires { (length s.now ≤ 256) × (at < length s.now) }
    ensures { 256 ≡ length result }
{
    let mut copy = copied(s);
    copy[at] = s[at].wrapping_add(by);
    copy
}

fn run_and_add(t: Total, input: &[u8]) -> Total
    requires { t.mapped ≤ 255 }
    ensures { result.mapped ≤ t.mapped + 1 }
{
    let said = program_summary::summarize(input);
    let mapped = t.mapped + mapped(said);
    let sum = run_and_fold(fold_said(t.sum, said), input);
    Total { mapped, sum }
}

fn add_changed(t: Total, s: &[u8], at: usize, by: u8) -> Total
    requires { (length s.now ≤ 256) × (at < length s.now) × (t.mapped ≤ 255) }
    ensures { result.mapped ≤ t.mapped + 1 }
{
    let copy = changed(s, at, by);
    let n = s.len();
    run_and_add(t, &copy[..n])
}

fn byte_changed(s: &[u8], at: usize)
    requires { (length s.now ≤ 256) × (at < length s.now) }
{
    let mut t = Total { mapped: 0, sum: 0 };
    for by in 1..=255u8 {
        t = add_changed(t, s, at, by);
    }
    test_replay::text(b"changed ");
    test_replay::number(at as u64);
    test_replay::number(t.mapped);
    test_replay::line(t.sum);
}

fn each_byte(s: &[u8])
    requires { length s.now ≤ 256 }
{
    for at in 0..s.len() {
        byte_changed(s, at);
    }
}

// ---- the cases

fn run_case(kind: u32, s: &[u8]) {
    if kind == 0 {
        report(s);
        return;
    }
    if 256 < s.len() {
        return;
    }
    each_prefix(s);
    each_byte(s);
}

// The case at a place; answers where the next begins, or the end.
fn one_case(s: &[u8], at: usize) -> usize
    requires { (at + 8 ≤ length s.now) × (length s.now ≤ 262144) }
    ensures { (at + 8 ≤ result) × (result ≤ length s.now) }
{
    let kind = program_words::word(s, at);
    let n = program_words::word(s, at + 4) as usize;
    let start = at + 8;
    if s.len() - start < n {
        return s.len();
    }
    let end = start + n;
    run_case(kind, &s[start..end]);
    end
}

fn main() {
    let mut buffer = test_replay::input();
    let n = io::read_full(0, &mut buffer);
    test_replay::each_case(&buffer[..n], 8, one_case);
}
