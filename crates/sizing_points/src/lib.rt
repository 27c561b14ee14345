// The refusals of lent points.
#![tactic(auto)]

ghost use Rattle.std.specs.Prelude.{◌≡◌};
ghost use Rattle.grid.specs.First.{first_not, every};
ghost use Rattle.sizing_points.specs.Points.{bounded, length_fault, none_fault, numbers_fault, points_fault};

use grid::{Reason, Refusal};

// At most 2 ^ 20 in magnitude; a NaN is not.
fn in_bounds(x: f32) -> bool
    ensures { result ≡ bounded 20 x }
{
    (-1048576.0 <= x) & (x <= 1048576.0)
}

// The loop has no way out, so that it runs at the speed of a plain pass over the memory.
fn all_in_bounds(ps: &[f32]) -> bool
    ensures { result ≡ every (bounded 20) ps.now }
{
    let mut all = true;
    for x in ps {
        all &= in_bounds(*x);
    }
    all
}

// The place of the first number that is out of bounds, or the length.
fn first_out(ps: &[f32]) -> usize
    ensures { result ≡ first_not (bounded 20) ps.now }
{
    for (i, x) in ps.iter().enumerate() {
        if !in_bounds(*x) {
            return i;
        }
    }
    ps.len()
}

// Refusal 3 of points whose numbers are counted after `before` others.
pub fn numbers_fault(ps: &[f32], before: u8) -> Result<(), Refusal>
    ensures { result ≡ numbers_fault before ps.now }
{
    if all_in_bounds(ps) {
        return Ok(());
    }
    Err(Reason::BadNumber.at(before as usize + first_out(ps)))
}

// Refusal 1 of the length of a list of points or triangles.
pub fn length_fault(n: usize) -> Result<(), Refusal>
    ensures { result ≡ length_fault n }
{
    if (n % 3 != 0) | (65536 < n / 3) {
        return Err(Reason::BadCount.at(0));
    }
    Ok(())
}

// Refusal 2 of the length of a list of points.
pub fn none_fault(n: usize) -> Result<(), Refusal>
    ensures { result ≡ none_fault n }
{
    if n == 0 {
        return Err(Reason::NoPoints.at(0));
    }
    Ok(())
}

// Refusals 1, 2 and 3 of a list of points.
pub fn points_fault(ps: &[f32]) -> Result<(), Refusal>
    ensures { result ≡ points_fault ps.now }
{
    length_fault(ps.len())?;
    none_fault(ps.len())?;
    numbers_fault(ps, 0)
}
