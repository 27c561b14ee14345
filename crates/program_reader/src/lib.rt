// The reader of the program's input: the records one at a time, each step answering a record or a
// refusal.
#![tactic(auto)]

ghost use Rattle.std.specs.Prelude.{◌≡◌, ◌+◌, ◌≤◌, length, [], ◌∷◌};
ghost use Rattle.std.specs.Float.{nan};
ghost use Rattle.order.specs.Output.{Written};
ghost use Rattle.program_reader.specs.Records.{bytes_at, mark_of_bytes, mark_at, sizing_way_of, mode_of, refused_start, head_of, head_by, start_at, refused, point_from, corners_from, point_step, triangle_step, end_step, step_at};
ghost use Rattle.program_reader.specs.Reading.{stream_in, Few, Reads, Read};

use fill::Mode;
use grid::{Reason, Refusal};
use sizing::Point;

// How many bytes a mark has, and with it the head, and a point or a triangle.
const MARK: usize = 2;

const HEAD: usize = 8;

const TRIPLE: usize = 14;

// The most points, and the most triangles, of an input.
const MOST: usize = 256;

// The kinds of record, by their marks `Vh`, `Vp`, `Vt` and `Vz`.
#[derive(Clone, Copy, Debug, PartialEq)]
pub enum Kind {
    Head,
    Point,
    Triangle,
    End,
}

#[derive(Clone, Copy, Debug, PartialEq)]
pub enum SizingWay {
    Size(f32),
    Resolution(u32),
}

#[derive(Clone, Copy, Debug, PartialEq)]
pub struct Head {
    pub way: SizingWay,
    pub mode: Mode,
}

// The numbers of three points.
#[derive(Clone, Copy, Debug, PartialEq)]
pub struct Corners {
    pub a: u32,
    pub b: u32,
    pub c: u32,
}

#[derive(Clone, Copy, Debug, PartialEq)]
pub enum InputRecord {
    Point(Point),
    Triangle(Corners),
    End,
}

// How many points and triangles were taken.
#[derive(Clone, Copy, Debug, PartialEq)]
pub struct Taken {
    pub points: usize,
    pub triangles: usize,
}

// What was read: the head, and how many points and triangles stand in the buffers.
#[derive(Clone, Copy, Debug, PartialEq)]
pub struct Reading {
    pub head: Head,
    pub taken: Taken,
}

// ---- marks and fields

// Whether n bytes stand in the input from `at` on.
fn bytes_at(input: &[u8], at: usize, n: usize) -> bool
    requires { at ≤ length input.now }
    ensures { result ≡ bytes_at input.now at n }
{
    n <= input.len() - at
}

fn mark_of(a: u8, b: u8) -> Option<Kind>
    ensures { result ≡ mark_of_bytes a b }
{
    match (a, b) {
        (b'V', b'h') => Some(Kind::Head),
        (b'V', b'p') => Some(Kind::Point),
        (b'V', b't') => Some(Kind::Triangle),
        (b'V', b'z') => Some(Kind::End),
        _ => None,
    }
}

fn mark_at(input: &[u8], at: usize) -> Option<Kind>
    requires { at + 2 ≤ length input.now }
    ensures { result ≡ mark_at input.now at }
{
    mark_of(input[at], input[at + 1])
}

// The way decides how the four bytes are read.
fn way_of(way: u8, bits: u32) -> Option<SizingWay>
    ensures { result ≡ sizing_way_of way bits }
{
    match way {
        0 => Some(SizingWay::Size(program_words::float_of(bits))),
        1 => Some(SizingWay::Resolution(bits)),
        _ => None,
    }
}

fn mode_of(mode: u8) -> Option<Mode>
    ensures { result ≡ mode_of mode }
{
    match mode {
        0 => Some(Mode::SurfaceOnly),
        1 => Some(Mode::Flood),
        2 => Some(Mode::Cavities),
        _ => None,
    }
}

// ---- the first step

fn head_of(way: u8, mode: u8, bits: u32) -> Result<Head, Refusal>
    ensures { result ≡ head_of way mode bits }
{
    let Some(way) = way_of(way, bits) else {
        return Err(Reason::BadRecord.at(0));
    };
    let Some(mode) = mode_of(mode) else {
        return Err(Reason::BadRecord.at(0));
    };
    Ok(Head { way, mode })
}

fn head_from(input: &[u8]) -> Result<Head, Refusal>
    ensures { result ≡ head_by (bytes_at input.now 0 8) input.now }
{
    let true = bytes_at(input, 0, HEAD) else {
        return Err(Reason::CutInput.at(0));
    };
    head_of(input[2], input[3], program_words::word(input, 4))
}

// The head, which comes first.
fn take_head(input: &[u8]) -> Result<Head, Refusal>
    ensures { result ≡ start_at input.now }
{
    let true = bytes_at(input, 0, MARK) else {
        return Err(Reason::CutInput.at(0));
    };
    let Some(Kind::Head) = mark_at(input, 0) else {
        return Err(Reason::BadRecord.at(0));
    };
    head_from(input)
}

// ---- a later step

fn point_from(input: &[u8], at: usize) -> Point
    requires { at + 12 ≤ length input.now }
    ensures { result ≡ point_from input.now at }
{
    let x = program_words::float_at(input, at);
    let y = program_words::float_at(input, at + 4);
    let z = program_words::float_at(input, at + 8);
    Point { x, y, z }
}

fn corners_from(input: &[u8], at: usize) -> Corners
    requires { at + 12 ≤ length input.now }
    ensures { result ≡ corners_from input.now at }
{
    let a = program_words::word(input, at);
    let b = program_words::word(input, at + 4);
    let c = program_words::word(input, at + 8);
    Corners { a, b, c }
}

fn point_step(input: &[u8], at: usize, n: Taken) -> Result<InputRecord, Refusal>
    requires { at ≤ length input.now }
    ensures { result ≡ point_step input.now at n }
{
    if MOST <= n.points {
        return Err(Reason::BadCount.at(0));
    }
    if 0 < n.triangles {
        return Err(Reason::BadRecord.at(at));
    }
    let true = bytes_at(input, at, TRIPLE) else {
        return Err(Reason::CutInput.at(at));
    };
    Ok(InputRecord::Point(point_from(input, at + MARK)))
}

fn triangle_step(input: &[u8], at: usize, n: Taken) -> Result<InputRecord, Refusal>
    requires { at ≤ length input.now }
    ensures { result ≡ triangle_step input.now at n }
{
    if MOST <= n.triangles {
        return Err(Reason::BadCount.at(0));
    }
    let true = bytes_at(input, at, TRIPLE) else {
        return Err(Reason::CutInput.at(at));
    };
    Ok(InputRecord::Triangle(corners_from(input, at + MARK)))
}

fn end_step(input: &[u8], at: usize) -> Result<InputRecord, Refusal>
    requires { at ≤ length input.now }
    ensures { result ≡ end_step input.now at }
{
    if MARK < input.len() - at {
        return Err(Reason::BadRecord.at(at + MARK));
    }
    Ok(InputRecord::End)
}

// The record at `at`, after so many points and triangles.
fn take_record(input: &[u8], at: usize, n: Taken) -> Result<InputRecord, Refusal>
    requires { at ≤ length input.now }
    ensures { result ≡ step_at input.now at n }
{
    let true = bytes_at(input, at, MARK) else {
        return Err(Reason::CutInput.at(at));
    };
    let Some(kind) = mark_at(input, at) else {
        return Err(Reason::BadRecord.at(at));
    };
    match kind {
        Kind::Head => Err(Reason::BadRecord.at(at)),
        Kind::Point => point_step(input, at, n),
        Kind::Triangle => triangle_step(input, at, n),
        Kind::End => end_step(input, at),
    }
}

// ---- the reading

fn put_point(out: &mut [f32], n: usize, p: Point)
    requires { n + 3 ≤ length out.old }
    ensures { Written nan n (p.x ∷ p.y ∷ p.z ∷ []) out.old out.new }
{
    out[n] = p.x;
    out[n + 1] = p.y;
    out[n + 2] = p.z;
}

fn put_corners(out: &mut [u32], n: usize, t: Corners)
    requires { n + 3 ≤ length out.old }
    ensures { Written 0 n (t.a ∷ t.b ∷ t.c ∷ []) out.old out.new }
{
    out[n] = t.a;
    out[n + 1] = t.b;
    out[n + 2] = t.c;
}

// The records after the head.
fn read_on(input: &[u8], head: Head, ps: &mut [f32], ts: &mut [u32]) -> Result<Reading, Refusal>
    requires in_bounds { 8 ≤ length input.now }
    requires ps_len { (length ps.old ≡ 768) × (length ts.old ≡ 768) }
    ensures reads { Reads input.now head 8 [] [] (stream_in result ps.new ts.new) }
    ensures few { Few result × (length ps.new ≡ 768) × (length ts.new ≡ 768) }
{
    let mut at = HEAD;
    let mut points = 0usize;
    let mut triangles = 0usize;
    loop {
        let taken = Taken { points, triangles };
        let record = take_record(input, at, taken)?;
        match record {
            InputRecord::End => return Ok(Reading { head, taken }),
            InputRecord::Point(p) => {
                put_point(ps, 3 * points, p);
                points += 1;
            }
            InputRecord::Triangle(t) => {
                put_corners(ts, 3 * triangles, t);
                triangles += 1;
            }
        }
        at += TRIPLE;
    }
}

// Reads the whole input: the points' numbers stand at the front of `ps` and the triangles' at the front of
// `ts`, three for each that the answer counts.
pub fn read(input: &[u8], ps: &mut [f32], ts: &mut [u32]) -> Result<Reading, Refusal>
    requires { (length ps.old ≡ 768) × (length ts.old ≡ 768) }
    ensures read { Read input.now (stream_in result ps.new ts.new) }
    ensures few { Few result × (length ps.new ≡ 768) × (length ts.new ≡ 768) }
{
    let head = take_head(input)?;
    read_on(input, head, ps, ts)
}
