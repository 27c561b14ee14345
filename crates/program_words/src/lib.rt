// Numbers that stand in bytes: "numbers little-endian".
#![tactic(auto)]

ghost use Rattle.std.specs.Prelude.{◌≡◌, ◌+◌, ◌*◌, ◌≤◌, length};
ghost use Rattle.std.specs.Float.{binary32};
ghost use Rattle.std.specs.Float.Ieee.{of_bits};
ghost use Rattle.program_words.specs.Words.{word_at, float_at};

// Four bytes as one number, the lowest first.
pub fn word(s: &[u8], at: usize) -> u32
    requires { at + 4 ≤ length s.now }
    ensures { result ≡ word_at s.now at }
{
    (s[at] as u32)
        + 256 * (s[at + 1] as u32)
        + 65536 * (s[at + 2] as u32)
        + 16777216 * (s[at + 3] as u32)
}

// The float of a bit pattern, every NaN's too.
pub fn float_of(bits: u32) -> f32
    ensures { result ≡ of_bits binary32 bits }
{
    let field = bits % 2147483648 / 8388608;
    let digits = bits % 8388608;
    if (field == 255) & (digits != 0) {
        return 0.0 / 0.0;
    }
    f32::from_bits(bits)
}

// Four bytes as an f32.
pub fn float_at(s: &[u8], at: usize) -> f32
    requires { at + 4 ≤ length s.now }
    ensures { result ≡ float_at s.now at }
{
    float_of(word(s, at))
}
