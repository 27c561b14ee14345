// The program: standard input to records to standard output, and nothing else in it. What is said of an input
// turns on its first 7,190 bytes (program_reader/proofs/Long.antt), and the buffer has room for more.
#![tactic(auto)]

// The numbers of the standard input and output among the open files.
const STDIN: i32 = 0;

const STDOUT: i32 = 1;

// Writes what is said of an input. A text has at most 256 bytes, so it always has room.
fn say(input: &[u8]) {
    let mut output = [0u8; 256];
    match program::run(input, &mut output) {
        Err(_) => {}
        Ok(k) => {
            io::write_all(STDOUT, &output[..k]);
        }
    }
}

fn main() {
    let mut buffer = io::large_buffer();
    let n = io::read_full(STDIN, &mut buffer);
    say(&buffer[..n]);
}
