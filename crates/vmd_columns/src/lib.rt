// Columns out of the records of a section: frames, floats by their bits, and interpolation bytes, each at the front of its
// buffer. Internal: callers see to the lengths.
#![tactic(auto)]

ghost use Rattle.std.specs.Prelude.{◌≡◌, ◌+◌, ◌*◌, ◌≤◌, length};
ghost use Rattle.vmd_bytes.specs.Slices.{splice, run};
ghost use Rattle.vmd_columns.specs.Columns.{numbers_at, column};

use vmd_records::VmdParsedBoneFrame;

const INTERPOLATION_SIZE: usize = VmdParsedBoneFrame::INTERPOLATION_SIZE;

const NUMBER_SIZE: usize = 4;

// w numbers of the file from `at` on, into out from `to` on.
fn copy_numbers(out: &mut [u32], to: usize, s: &[u8], at: usize, w: usize)
    requires { (at + 4 * w ≤ length s.now) × (to + w ≤ length out.old) }
    ensures { out.new ≡ splice out.old to (numbers_at s.now w at) }
{
    for i in 0..w {
        out[to + i] = vmd_bytes::read_u32_le(s, at + NUMBER_SIZE * i);
    }
}

// w numbers of each of n records of a size, so far into it.
pub fn write_numbers(
    out: &mut [u32],
    s: &[u8],
    at: usize,
    size: usize,
    n: usize,
    offset: usize,
    w: usize,
)
    requires { (at + size * n ≤ length s.now) × (offset + 4 * w ≤ size) × (w * n ≤ length out.old) }
    ensures { out.new ≡ splice out.old 0 (column (numbers_at s.now w) (at + offset) size n) }
{
    for i in 0..n {
        copy_numbers(out, w * i, s, at + size * i + offset, w);
    }
}

// The interpolation bytes of n records of a size, so far into it. One loop with write_numbers would take the items of `out` as a
// type parameter, and a clause cannot speak of their bytes: `splice` and `column` are of numbers.
pub fn write_interpolations(
    out: &mut [u8],
    s: &[u8],
    at: usize,
    size: usize,
    n: usize,
    offset: usize,
)
    requires { (at + size * n ≤ length s.now) × (offset + 64 ≤ size) × (64 * n ≤ length out.old) }
    ensures { out.new ≡ splice out.old 0 (column (λ p. run s.now p 64) (at + offset) size n) }
{
    for i in 0..n {
        vmd_bytes::copy_interpolation(s, at + size * i + offset, out, INTERPOLATION_SIZE * i);
    }
}
