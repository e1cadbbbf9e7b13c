// Prints the presence table of the jis0208 index on standard input, one word a line in decimal; or says on standard error why
// there is none, and prints nothing.
#![tactic(auto)]

ghost use Rattle.std.specs.Prelude.{◌≡◌, IfSome};
ghost use Rattle.vmd_index.specs.Steps.{first_reader, fed};

use std::io::Read;
use vmd_index::{Fault, IndexReader};

// Reads to the end of the input. Where no read fails the reader has read all that the input had, however long the pieces were.
fn read_input<R: Read>(input: &mut R) -> Option<IndexReader>
    ensures { IfSome result (λ r. IfSome (R.remaining input.old) (λ xs. r ≡ fed first_reader xs)) }
{
    let mut piece = [0u8; 65536];
    let mut reader = vmd_index::index_reader();
    // A proved loop has to end, and nothing says that an input does: no input has as many pieces.
    for _ in 0..u64::MAX {
        match input.read(&mut piece) {
            Ok(0) => return Some(reader),
            Ok(n) => reader = vmd_index::read_index(reader, &piece[..n]),
            Err(_) => return None,
        }
    }
    None
}

// Says why there is no table. Where that cannot be said either, nobody is there to be told.
fn say(rt: &HostRuntime, text: &[u8]) {
    let _ = rt.stderr().write_all(text);
}

fn print_table(rt: &HostRuntime, words: [u32; vmd_presence::WORDS]) {
    let mut text = [0u8; 4096];
    let n = vmd_index::write_words(&words, &mut text);
    if rt.write_all(&text[..n]).is_err() {
        say(rt, b"presence-table: the table cannot be written\n");
    }
}

fn print_fault(rt: &HostRuntime, fault: Fault) {
    let mut text = [0u8; 128];
    let n = vmd_index::write_message(fault.line, fault.cause, &mut text);
    say(rt, &text[..n]);
}

fn main(rt: HostRuntime) {
    let Some(reader) = read_input(&mut rt.stdin()) else {
        say(&rt, b"presence-table: standard input cannot be read\n");
        return;
    };
    let read = vmd_index::index_words(reader);
    match read.outcome {
        Ok(()) => print_table(&rt, read.words),
        Err(fault) => print_fault(&rt, fault),
    }
}
