// Text that programs print: numbers in decimal, and words. Internal: callers see to the lengths.
#![tactic(auto)]

ghost use Rattle.std.specs.Prelude.{◌≡◌, ◌+◌, ◌*◌, ◌%◌, ◌≤◌, length};
ghost use Rattle.vmd_bytes.specs.Written.{Room, Wrote};
ghost use Rattle.vmd_text.specs.Text.{decimal, number_lines};

// The last digit of n, in ASCII.
fn digit(n: u64) -> u8
    ensures { result ≡ 48 + n % 10 }
{
    48 + (n % 10) as u8
}

// Writes n in decimal into out from `to` on, and returns the place after it.
pub fn write_decimal(out: &mut [u8], to: usize, n: u64) -> usize
    requires { to + 20 ≤ length out.old }
    ensures wrote { Wrote out.old to (decimal n) out.new result }
    ensures upper_bound { result ≤ to + 20 }
{
    if n < 10 {
        out[to] = digit(n);
        return to + 1;
    }
    let tens = n / 10;
    let at = write_decimal(out, to, tens);
    out[at] = digit(n);
    at + 1
}

// Writes text into out from `to` on, and returns the place after it.
pub fn write_text(out: &mut [u8], to: usize, text: &[u8]) -> usize
    requires { Room out.old to text.now }
    ensures { Wrote out.old to text.now out.new result }
{
    let n = text.len();
    vmd_bytes::copy_bytes(text, 0, out, to, n);
    to + n
}

// Writes each number on a line at the front of out, and returns the length of the text. A number has at most ten digits; there is
// room for as long a number as any after the last.
pub fn write_lines(out: &mut [u8], numbers: &[u32]) -> usize
    requires { 11 * length numbers.now + 20 ≤ length out.old }
    ensures { Wrote out.old 0 (number_lines numbers.now) out.new result }
{
    let mut at = 0;
    for number in numbers {
        at = write_decimal(out, at, u64::from(*number));
        out[at] = b'\n';
        at += 1;
    }
    at
}
