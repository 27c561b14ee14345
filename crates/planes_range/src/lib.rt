// The planes of one axis: the refusals of what asks for them, their range and their d.
#![tactic(auto)]

ghost use Rattle.std.specs.Prelude.{◌≡◌, ◌+◌, ◌≤◌, ◌<◌, length};
ghost use Rattle.std.specs.Float.{nan};
ghost use Rattle.order.specs.Output.{Written};
ghost use Rattle.planes_range.specs.PlaneRange.{axis_fault, out_of_range, plane_range_fault, first_plane, past_plane, plane_at, planes_of, planes_fault};

use grid::{Placement, Reason, Refusal};

// Refusal 12 of an axis.
pub fn axis_fault(axis: usize) -> Result<(), Refusal>
    ensures { result ≡ axis_fault axis }
{
    if 2 < axis {
        return Err(Reason::OutOfRange.at(0));
    }
    Ok(())
}

fn out_of_range(low: usize, high: usize, best: usize, step: usize) -> bool
    ensures { result ≡ out_of_range low high best step }
{
    let index = (256 <= low) | (256 <= high) | (256 <= best);
    index | (high < low) | (256 < step)
}

// Refusal 12 of plane indices and a step.
fn range_fault(low: usize, high: usize, best: usize, step: usize) -> Result<(), Refusal>
    ensures { result ≡ plane_range_fault low high best step }
{
    if out_of_range(low, high, best, step) {
        return Err(Reason::OutOfRange.at(0));
    }
    Ok(())
}

// max(low, best - step, 0).
pub fn first_plane(low: usize, best: usize, step: usize) -> usize
    ensures { result ≡ first_plane low best step }
{
    best.saturating_sub(step).max(low)
}

// One past min(high, best + step).
pub fn past_plane(high: usize, best: usize, step: usize) -> usize
    requires { (high < 256) × (best < 256) × (step ≤ 256) }
    ensures { result ≡ past_plane high best step }
{
    (best + step).min(high) + 1
}

fn plane_at(origin: f32, scale: f32, i: usize) -> f32
    requires { i < 256 }
    ensures { result ≡ plane_at origin scale i }
{
    -marking_mesh::off_centre(origin, scale, i, 0.5)
}

// The d of the planes from `first` on, as many as there are.
pub fn write_planes(ds: &mut [f32], origin: f32, scale: f32, first: usize, count: usize)
    requires { (first + count ≤ 256) × (count ≤ length ds.old) }
    ensures { Written nan 0 (planes_of origin scale first count) ds.old ds.new }
{
    for n in 0..count {
        ds[n] = plane_at(origin, scale, first + n);
    }
}

// Refusals 3, 5 and 12.
pub fn planes_fault(
    placement: Placement,
    axis: usize,
    low: usize,
    high: usize,
    best: usize,
    step: usize,
) -> Result<(), Refusal>
    ensures { result ≡ planes_fault placement axis low high best step }
{
    marking_checks::origin_fault(placement)?;
    marking_checks::lent_fault(placement)?;
    axis_fault(axis)?;
    range_fault(low, high, best, step)
}
