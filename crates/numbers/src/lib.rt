// Whole numbers of an f32, from its bits: the ceiling, the truncation, and the number of units of a
// cell's side that is nearest. Each has an answer for every f32.
#![tactic(auto)]

ghost use Rattle.std.specs.Prelude.{◌≡◌, ◌*◌, ◌^◌, ◌≤◌, ◌<◌};
ghost use Rattle.numbers.specs.Rounding.{signed, floor_z, floor_times, ceil_of, trunc_of, nearest_of, units, cell_of};

// A cell's side has 2 ^ SPLITS units.
const SPLITS: u32 = 8;

// A cell's side in units, and half of it.
pub const SIDE: i64 = 1 << SPLITS;

pub const HALF: i64 = 1 << (SPLITS - 1);

// Why no whole number is given of an f32.
#[derive(Clone, Copy, Debug, PartialEq, Eq)]
pub enum NoWhole {
    // 2 ^ 40 or more in magnitude, an infinity too
    TooLarge,
    NotANumber,
}

// d * 2 ^ 30, negative where neg, shifted down by k places. From 62 places on only the sign is left.
fn shifted(neg: bool, d: u32, k: u32) -> i64
    requires { d < 2 ^ 24 }
    ensures { result ≡ floor_z (signed neg (d * 2 ^ 30)) (2 ^ k) }
{
    let v = ((d as u64) * 1073741824) as i64;
    if neg {
        let n = 0 - v;
        if 62 < k {
            return n >> 62;
        }
        return n >> k;
    }
    if 62 < k {
        return v >> 62;
    }
    v >> k
}

// The largest whole number not above x * 2 ^ places.
fn floor_scaled(x: f32, places: u32) -> Result<i64, NoWhole>
    requires { places ≤ 12 }
    ensures { result ≡ floor_times (2 ^ places) x }
{
    if x != x {
        return Err(NoWhole::NotANumber);
    }
    let bits = f32::to_bits(x);
    let neg = 2147483648 <= bits;
    let field = bits % 2147483648 / 8388608;
    let digits = bits % 8388608;
    let large = 167 <= field;
    if large {
        return Err(NoWhole::TooLarge);
    }
    if field == 0 {
        return Ok(shifted(neg, digits, 179 - places));
    }
    Ok(shifted(neg, 8388608 + digits, 180 - places - field))
}

// The least whole number not below x.
pub fn ceil(x: f32) -> Result<i64, NoWhole>
    ensures { result ≡ ceil_of x }
{
    let n = floor_scaled(-x, 0)?;
    Ok(0 - n)
}

// x without its fraction.
pub fn trunc(x: f32) -> Result<i64, NoWhole>
    ensures { result ≡ trunc_of x }
{
    if x < 0.0 {
        return ceil(x);
    }
    floor_scaled(x, 0)
}

// The largest whole number not above units * t + 1/2: half of one more than the floor of 2 * units * t.
pub fn to_units(t: f32) -> Result<i64, NoWhole>
    ensures { result ≡ nearest_of units t }
{
    let n = floor_scaled(t, SPLITS + 1)?;
    Ok((n + 1) >> 1)
}

// The cell of a coordinate of q units: (q + half a side) div a side, rounded down. Half of one more
// than the whole halves in q is the same, and it fits for every q.
pub fn cell_of(q: i64) -> i64
    ensures { result ≡ cell_of q }
{
    ((q >> (SPLITS - 1)) + 1) >> 1
}
