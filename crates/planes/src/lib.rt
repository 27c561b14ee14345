// Planes: those along one axis, and points split by such a plane.
#![tactic(auto)]

ghost use Rattle.std.specs.Prelude.{true, ◌≡◌, ◌+◌, ◌*◌, ◌≤◌, ◌<◌, length};
ghost use Rattle.std.specs.Float.{nan};
ghost use Rattle.sizing.specs.Points.{bounded};
ghost use Rattle.sizing.specs.Sizing.{points};
ghost use Rattle.order.specs.Output.{Written};
ghost use Rattle.planes.specs.Planes.{planes_answer, planes_buffer};
ghost use Rattle.planes.specs.Split.{d_fault, goes_to, Bounded, point_of, split_count, split_to, split_fault, rooms_fault, split_answer, split_buffer};
ghost use Rattle.planes.specs.declared.Side.TheVariants.{First, Second};

use grid::{Placement, Reason, Refusal};

// ---- planes

// The planes of an answer: so many, the first at this index; each further one is at the next.
#[derive(Clone, Copy)]
pub struct Planes {
    pub first: usize,
    pub count: usize,
}

// The planes about the plane `best` of an axis that lie within a step of it and from low to high: writes
// the d of each, or refuses and writes nothing.
pub fn planes_about(
    placement: Placement,
    axis: usize,
    low: usize,
    high: usize,
    best: usize,
    step: usize,
    ds: &mut [f32],
) -> Result<Planes, Refusal>
    ensures answer { result ≡ planes_answer placement axis low high best step ds.old }
    ensures ds_after { ds.new ≡ planes_buffer placement axis low high best step ds.old }
{
    planes_range::planes_fault(placement, axis, low, high, best, step)?;
    let first = planes_range::first_plane(low, best, step);
    let past = planes_range::past_plane(high, best, step);
    let count = past.saturating_sub(first);
    order::room_fault(ds.len(), count as u64)?;
    let origin = marking_mesh::origin_along(placement, axis);
    planes_range::write_planes(ds, origin, placement.scale, first, count);
    Ok(Planes { first, count })
}

// ---- split

// The two outputs of a split.
#[derive(Clone, Copy)]
pub enum Side {
    First,
    Second,
}

// How many points went to each.
#[derive(Clone, Copy)]
pub struct Sides {
    pub first: usize,
    pub second: usize,
}

// Refusal 3 of a plane's d, which is numbered before the points.
fn d_fault(d: f32) -> Result<(), Refusal>
    ensures { result ≡ d_fault d }
{
    if (-1073741824.0 <= d) & (d <= 1073741824.0) {
        return Ok(());
    }
    Err(Reason::BadNumber.at(0))
}

// Whether a point whose coordinate is p goes to a side. The sum is rounded, its sign is exact.
fn goes_to(side: Side, p: f32, d: f32) -> bool
    requires { (bounded 20 p ≡ true) × (bounded 30 d ≡ true) }
    ensures { result ≡ goes_to side p d }
{
    let sum = p + d;
    match side {
        Side::First => !(sum < 0.0),
        Side::Second => !(0.0 < sum),
    }
}

// How many points go to a side.
fn count_side(ps: &[f32], axis: usize, d: f32, side: Side) -> usize
    requires { (axis ≤ 2) × Bounded ps.now d }
    ensures { result ≡ split_count side ps.now axis d }
{
    let mut n = 0;
    for v in 0..ps.len() / 3 {
        n += usize::from(goes_to(side, ps[3 * v + axis], d));
    }
    n
}

// Point v, at place n of the output.
fn put_point(out: &mut [f32], n: usize, ps: &[f32], v: usize)
    requires { (n + 3 ≤ length out.old) × (v < points ps.now) }
    ensures { Written nan n (point_of ps.now v) out.old out.new }
{
    let from = 3 * v;
    out[n] = ps[from];
    out[n + 1] = ps[from + 1];
    out[n + 2] = ps[from + 2];
}

// The points that go to a side, in their order.
fn write_side(out: &mut [f32], ps: &[f32], axis: usize, d: f32, side: Side)
    requires axis_bound { (axis ≤ 2) × Bounded ps.now d }
    requires d_in_bounds { 3 * split_count side ps.now axis d ≤ length out.old }
    ensures { Written nan 0 (split_to side ps.now axis d) out.old out.new }
{
    let mut n = 0;
    for v in 0..ps.len() / 3 {
        if goes_to(side, ps[3 * v + axis], d) {
            put_point(out, n, ps, v);
            n += 3;
        }
    }
}

// Refusals 1, 3 and 12.
fn split_fault(ps: &[f32], axis: usize, d: f32) -> Result<(), Refusal>
    ensures { result ≡ split_fault ps.now axis d }
{
    sizing_points::length_fault(ps.len())?;
    d_fault(d)?;
    sizing_points::numbers_fault(ps, 1)?;
    planes_range::axis_fault(axis)
}

// Refusal 14 of two outputs of these lengths.
fn rooms_fault(sides: Sides, len: usize, other: usize) -> Result<(), Refusal>
    requires { (sides.first ≤ 65536) × (sides.second ≤ 65536) }
    ensures { result ≡ rooms_fault sides.first sides.second len other }
{
    order::room_fault(len, 3 * sides.first as u64)?;
    order::room_fault(other, 3 * sides.second as u64)
}

// Splits points by a plane of an axis: those above it to the first output, those below it to the second,
// those on it to both; or refuses and writes nothing.
pub fn split_points(
    ps: &[f32],
    axis: usize,
    d: f32,
    above: &mut [f32],
    below: &mut [f32],
) -> Result<Sides, Refusal>
    ensures answer { result ≡ split_answer ps.now axis d above.old below.old }
    ensures above_after { above.new ≡ split_buffer First ps.now axis d above.old above.old below.old }
    ensures below_after { below.new ≡ split_buffer Second ps.now axis d below.old above.old below.old }
{
    split_fault(ps, axis, d)?;
    let first = count_side(ps, axis, d, Side::First);
    let second = count_side(ps, axis, d, Side::Second);
    let sides = Sides { first, second };
    rooms_fault(sides, above.len(), below.len())?;
    write_side(above, ps, axis, d, Side::First);
    write_side(below, ps, axis, d, Side::Second);
    Ok(sides)
}
