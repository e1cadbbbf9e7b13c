// Prints one line for the take on standard input: its numbers of records, its smallest and its largest frame and the length of
// its export, or why it is turned down.
#![tactic(auto)]

ghost use Rattle.std.specs.Prelude.{◌≤◌, length, take};
ghost use Rattle.std.specs.Io.KnownBytes.{Consumes};

use std::io::Read;

// Reads until the array is full, the input ends or a read fails, and returns how many bytes were put at its front: the input's
// first, however many each read gave.
fn read_full<R: Read>(input: &mut R, file: &mut [u8]) -> usize
    ensures upper_bound { result ≤ length file.new }
    ensures taken { Consumes (R.remaining input.old) (R.remaining input.new) (take result file.new) }
{
    let mut done = 0;
    // The library's read_exact tells no number where the input ends early, and its read_to_end wants the heap.
    while done < file.len() {
        match input.read(&mut file[done..]) {
            Ok(0) => break,
            Ok(n) => done += n,
            Err(_) => break,
        }
    }
    done
}

fn main(rt: HostRuntime) {
    // One byte more than the longest file that is listed.
    let mut file = [0u8; 65537];
    let n = read_full(&mut rt.stdin(), &mut file);
    // Enough for a file of that length: a place serves sixteen property frames, and a frame has nine bytes.
    let mut scratch = [0u64; 512];
    let mut out = [0u8; 256];
    let end = vmd_line::list_line(&file[..n], &mut scratch, &mut out);
    // Nobody is there to be told where the line cannot be written.
    let _ = rt.write_all(&out[..end]);
}
