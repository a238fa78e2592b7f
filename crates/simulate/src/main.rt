// Reads a horizon and a sheet from standard input, runs the sheet and prints the answer's sentence and its listing.
#![tactic(auto)]

ghost use Rattle.std.specs.Prelude.{◌≡◌, ◌≤◌, length, take};
ghost use Rattle.std.specs.Io.KnownBytes.{Consumes};
ghost use Rattle.program.specs.Program.{program_text};
ghost use Rattle.program.specs.Room.{lent_bytes, text_bytes};

use std::io::Read;

// The bytes that are lent for the listing. The program's buffers are arrays, since there is no heap.
const LISTING: usize = 60000;

// The longest text: a first line of 31 bytes, and 6,000 lines of 21.
const TEXT: usize = 126031;

// Runs the input's sheet and prints its text, which the lent array takes whole. Answers the text's bytes.
fn print_whole(input: &[u8], listing: &mut [u8; LISTING], text: &mut [u8; TEXT]) -> usize
    requires { (length listing.old ≡ lent_bytes) × (length text.old ≡ text_bytes) }
    ensures { (result ≡ length (program_text input.now listing.old))
        × (take result text.new ≡ program_text input.now listing.old) × (result ≤ length text.new) }
{
    program::simulate(input, listing, text)
}

// Fills the array from its start until it is full, the input ends or a read fails. Answers how many bytes it put there, which `read_exact`
// does not say where the input ends early.
fn read_full<R: Read>(reader: &mut R, input: &mut [u8]) -> usize
    ensures within { result ≤ length input.new }
    ensures bytes { Consumes (R.remaining reader.old) (R.remaining reader.new) (take result input.new) }
{
    let mut done = 0;
    while done < input.len() {
        match reader.read(&mut input[done..]) {
            Ok(n) if n > 0 => done += n,
            _ => return done,
        }
    }
    done
}

fn main(rt: HostRuntime) {
    let mut input = [0u8; program::INPUT];
    let n = read_full(&mut rt.stdin(), &mut input);
    if n == 0 {
        let _ = eprintln!(rt; "simulate: nothing was read from standard input");
    }
    let mut listing = [0u8; LISTING];
    let mut text = [0u8; TEXT];
    let k = print_whole(&input[..n], &mut listing, &mut text);
    if rt.stdout().write_all(&text[..k]).is_err() {
        let _ = eprintln!(rt; "simulate: standard output did not take the whole text");
    }
}
