// The whole run of the program over lent buffers: input bytes in, output bytes out.
#![tactic(auto)]

ghost use Rattle.std.specs.Prelude.{Ok, ◌≡◌, length};
ghost use Rattle.program_text.specs.Text.{PutText};
ghost use Rattle.program.specs.Program.{text, copy_answer, copy_buffer, text_answer, text_buffer, Runs};

use grid::Refusal;
use program_summary::Summary;

// The six lines.
fn put_summary(out: &mut [u8], n: Summary) -> usize
    requires { length out.old ≡ 256 }
    ensures { PutText 0 (text (Ok n)) out.old out.new result }
{
    let r = n.axes;
    let cells = [r.r0, r.r1, r.r2];
    let outside = [n.outside];
    let inside = [n.inside];
    let surface = [n.surface];
    let left = [n.left];
    let scans = [n.scans];
    let a = program_text::put_line(out, 0, b"cells", &cells);
    let b = program_text::put_line(out, a, b"outside", &outside);
    let c = program_text::put_line(out, b, b"inside", &inside);
    let d = program_text::put_line(out, c, b"surface", &surface);
    let e = program_text::put_line(out, d, b"left", &left);
    program_text::put_line(out, e, b"scans", &scans)
}

fn put_text(out: &mut [u8], said: Result<Summary, Refusal>) -> usize
    requires { length out.old ≡ 256 }
    ensures { PutText 0 (text said) out.old out.new result }
{
    match said {
        Ok(n) => put_summary(out, n),
        Err(f) => {
            let number = [f.reason.number() as usize];
            program_text::put_line(out, 0, b"refused", &number)
        }
    }
}

// Copies a text to the front of an output and answers how many bytes it has, or refuses with 14.
fn copy_text(text: &[u8], output: &mut [u8]) -> Result<usize, Refusal>
    ensures answer { result ≡ copy_answer text.now output.old }
    ensures output_after { output.new ≡ copy_buffer text.now output.old }
{
    order::room_fault(output.len(), text.len() as u64)?;
    Ok(program_text::put_bytes(output, 0, text))
}

// Writes what the program says of an input: the six lines, or the line of a refusal.
fn write_text(said: Result<Summary, Refusal>, output: &mut [u8]) -> Result<usize, Refusal>
    ensures answer { result ≡ text_answer said output.old }
    ensures output_after { output.new ≡ text_buffer said output.old }
{
    let mut text = [0u8; 256];
    let n = put_text(&mut text, said);
    copy_text(&text[..n], output)
}

// Reads the records of an input, maps the vessel and writes what the program says of it; answers how many
// bytes were written.
pub fn run(input: &[u8], output: &mut [u8]) -> Result<usize, Refusal>
    ensures { Runs input.now output.old result output.new }
{
    let said = program_summary::summarize(input);
    write_text(said, output)
}
