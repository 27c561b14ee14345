// Text in a lent buffer: words, decimal numbers and lines.
#![tactic(auto)]

ghost use Rattle.std.specs.Prelude.{◌+◌, ◌*◌, ◌≤◌, length};
ghost use Rattle.order.specs.Order.{join_all};
ghost use Rattle.program_text.specs.Text.{spaced, line, PutText};

// Bytes from `at` on; answers the place after them.
pub fn put_bytes(out: &mut [u8], at: usize, bytes: &[u8]) -> usize
    requires { at + length bytes.now ≤ length out.old }
    ensures { PutText at bytes.now out.old out.new result }
{
    let end = at + bytes.len();
    out[at..end].copy_from_slice(bytes);
    end
}

// A space and a number in decimal.
pub fn put_number(out: &mut [u8], at: usize, number: usize) -> usize
    requires { at + 21 ≤ length out.old }
    ensures { PutText at (spaced number) out.old out.new result }
{
    let mut digits = [0u8; 20];
    let k = io::decimal(number as u64, &mut digits);
    out[at] = b' ';
    put_bytes(out, at + 1, &digits[..k])
}

// Numbers, each after a space.
pub fn put_numbers(out: &mut [u8], at: usize, numbers: &[usize]) -> usize
    requires { at + 21 * length numbers.now ≤ length out.old }
    ensures { PutText at (join_all spaced numbers.now) out.old out.new result }
{
    let mut end = at;
    for number in numbers {
        end = put_number(out, end, *number);
    }
    end
}

// A line of a word and numbers.
pub fn put_line(out: &mut [u8], at: usize, word: &[u8], numbers: &[usize]) -> usize
    requires { at + length word.now + 21 * length numbers.now + 1 ≤ length out.old }
    ensures { PutText at (line word.now numbers.now) out.old out.new result }
{
    let after_word = put_bytes(out, at, word);
    let end = put_numbers(out, after_word, numbers);
    out[end] = b'\n';
    end + 1
}
