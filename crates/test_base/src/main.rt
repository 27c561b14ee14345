// Replays the stored cases of grid, numbers and sizing: standard input has the cases, `stdout` what an
// independent model answers (rust/lifted writes both). A case is fifteen words: what is asked, a
// value, a count, and twelve words of data.
#![tactic(auto)]

ghost use Rattle.std.specs.Prelude.{◌≡◌, ◌+◌, ◌≤◌, length};

use grid::{LabelRange, LabelSet};

// By size (0) and by resolution (1): as many of the twelve floats as the count says.
fn size_case(case: &[u8])
    requires { length case.now ≡ 60 }
{
    let value = program_words::word(case, 4);
    let n = (program_words::word(case, 8) as usize).min(12);
    let points: [f32; 12] = test_replay::list_of(case, 12, 12);
    if program_words::word(case, 0) == 0 {
        test_replay::sized(sizing::by_size(&points[..n], program_words::float_of(value)));
    } else {
        test_replay::sized(sizing::by_resolution(&points[..n], value));
    }
}

// Rounding (2): the ceiling, the truncation, the parts of a side.
fn rounding_case(bits: u32) {
    let x = program_words::float_of(bits);
    test_replay::whole(numbers::ceil(x));
    test_replay::whole(numbers::trunc(x));
    test_replay::whole(numbers::to_units(x));
    test_replay::text(b"\n");
}

// Many points (3): the first so many of 196,620 equal numbers.
fn many_case(count: u32) {
    let many = test_replay::ones();
    let n = (count as usize).min(196620);
    test_replay::sized(sizing::by_size(&many[..n], 1.0));
}

// Axes and a length (4).
fn grid_case(case: &[u8])
    requires { length case.now ≡ 60 }
{
    let r = test_replay::axes_of(case, 12);
    let len = program_words::word(case, 4) as usize;
    test_replay::checked(grid::grid_fault(r, len));
}

// Two ranges of labels, a byte for each end.
fn set_of(ends: u32) -> LabelSet {
    let [a, b, c, d] = ends.to_le_bytes();
    LabelSet {
        one: LabelRange { low: a, high: b },
        other: LabelRange { low: c, high: d },
    }
}

// Labels (5): as many of the 48 data bytes as the count says.
fn labels_case(case: &[u8])
    requires { length case.now ≡ 60 }
{
    let set = set_of(program_words::word(case, 4));
    let n = (program_words::word(case, 8) as usize).min(48);
    test_replay::checked(grid::labels_fault(&case[12..12 + n], set));
}

fn one_case(case: &[u8])
    requires { length case.now ≡ 60 }
{
    let value = program_words::word(case, 4);
    match program_words::word(case, 0) {
        0 | 1 => size_case(case),
        2 => rounding_case(value),
        3 => many_case(value),
        4 => grid_case(case),
        _ => labels_case(case),
    }
}

fn all_cases(s: &[u8]) {
    for case in s.chunks_exact(60) {
        one_case(case);
    }
}

fn main() {
    let mut buffer = io::large_buffer();
    let n = io::read_full(0, &mut buffer);
    all_cases(&buffer[..n]);
}
