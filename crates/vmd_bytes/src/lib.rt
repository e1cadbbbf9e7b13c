// Bytes: numbers, copies, name fields, flags and floats, as the reader and the exporter use them. Internal: callers see to
// the lengths. A buffer comes with the place in it and not as its part: contracts speak of the whole buffer, by `splice`, and
// after a write to a part each caller's proof would have to put the part back.
#![tactic(auto)]

ghost use Rattle.std.specs.Prelude.{◌≡◌, ◌+◌, ◌<◌, ◌≤◌, min, max, true, not, ◌&&◌, map, length, take, drop, replicate, if◌then◌else◌, ◌==◌, from_bits, to_bits};
ghost use Rattle.std.specs.Float.{binary32};
ghost use Rattle.vmd_format.specs.Bytes.{u32, u32_bytes, before_zero, padded, is_set, flag_byte, is_zero, inverted_byte};
ghost use Rattle.vmd_format.specs.Characters.{between};
ghost use Rattle.vmd_format.specs.Take.{same};
ghost use Rattle.vmd_format.specs.Parts.{finite};
ghost use Rattle.vmd_bytes.specs.Slices.{splice, run};
ghost use Rattle.vmd_bytes.specs.Fields.{no_zero, canonical, blank};
ghost use Rattle.vmd_bytes.specs.Words.{digits, zeros, up_to};

// ---- numbers

// The little-endian number in the four bytes from `at` on.
pub fn read_u32_le(bytes: &[u8], at: usize) -> u32
    requires { at + 4 ≤ length bytes.now }
    ensures { result ≡ u32 (drop at bytes.now) }
{
    u32::from_le_bytes([bytes[at], bytes[at + 1], bytes[at + 2], bytes[at + 3]])
}

// Writes the N bytes from `at` on. The compiler makes them one store where N is 4 or 8; `copy_from_slice` it may leave as a
// call.
fn put_bytes<const N: usize>(out: &mut [u8], at: usize, bytes: [u8; N])
    requires { at + N ≤ length out.old }
    ensures { out.new ≡ splice out.old at bytes.entry }
{
    for k in 0..N {
        out[at + k] = bytes[k];
    }
}

// Writes v in four bytes from `at` on, the lowest first.
pub fn write_u32_le(out: &mut [u8], at: usize, v: u32)
    requires { at + 4 ≤ length out.old }
    ensures { out.new ≡ splice out.old at (u32_bytes v) }
{
    put_bytes(out, at, v.to_le_bytes());
}

pub fn between(low: u8, high: u8, b: u8) -> bool
    ensures { result ≡ between low high b }
{
    low <= b && b <= high
}

// ---- copies

// Copies the n bytes of src from `at` on into out from `to` on. Not by `copy_from_slice`, which the compiler may leave as a
// call: then a record's few bytes take longer to save.
pub fn copy_bytes(src: &[u8], at: usize, out: &mut [u8], to: usize, n: usize)
    requires { (at + n ≤ length src.now) × (to + n ≤ length out.old) }
    ensures { out.new ≡ splice out.old to (run src.now at n) }
{
    for i in 0..n {
        out[to + i] = src[at + i];
    }
}

// Writes n zeros into out from `to` on.
pub fn fill_zeros(out: &mut [u8], to: usize, n: usize)
    requires { to + n ≤ length out.old }
    ensures { out.new ≡ splice out.old to (replicate n 0) }
{
    out[to..to + n].fill(0);
}

// The eight bytes from `at` on as one number. The compiler makes them one load.
pub fn word_at(src: &[u8], at: usize) -> u64
    requires { at + 8 ≤ length src.now }
    ensures { digits 8 result ≡ run src.now at 8 }
{
    u64::from_le_bytes([
        src[at],
        src[at + 1],
        src[at + 2],
        src[at + 3],
        src[at + 4],
        src[at + 5],
        src[at + 6],
        src[at + 7],
    ])
}

// Writes v in eight bytes from `at` on, the lowest first. The compiler makes them one store.
pub fn put_word(out: &mut [u8], at: usize, v: u64)
    requires { at + 8 ≤ length out.old }
    ensures { out.new ≡ splice out.old at (digits 8 v) }
{
    put_bytes(out, at, v.to_le_bytes());
}

// Copies eight bytes.
pub fn copy_word(src: &[u8], at: usize, out: &mut [u8], to: usize)
    requires { (at + 8 ≤ length src.now) × (to + 8 ≤ length out.old) }
    ensures { out.new ≡ splice out.old to (run src.now at 8) }
{
    put_word(out, to, word_at(src, at));
}

// Copies the 64 interpolation bytes of a bone by words: the compiler leaves a loop over so few bytes as single bytes.
pub fn copy_interpolation(src: &[u8], at: usize, out: &mut [u8], to: usize)
    requires { (at + 64 ≤ length src.now) × (to + 64 ≤ length out.old) }
    ensures { out.new ≡ splice out.old to (run src.now at 64) }
{
    for k in 0..8 {
        copy_word(src, at + 8 * k, out, to + 8 * k);
    }
}

// Whether the first n bytes of a and of b are the same.
pub fn same_start(a: &[u8], b: &[u8], n: usize) -> bool
    requires { (n ≤ length a.now) × (n ≤ length b.now) }
    ensures { result ≡ same (take n a.now) (take n b.now) }
{
    a[..n] == b[..n]
}

// ---- names

// The part before the first zero byte.
pub fn trim_fixed_bytes<'a>(bytes: &'a [u8]) -> &'a [u8]
    ensures { result.now ≡ before_zero bytes.now }
{
    for i in 0..bytes.len() {
        if bytes[i] == 0 {
            return &bytes[..i];
        }
    }
    bytes
}

// Writes width bytes into out from `to` on: those of value, cut at the width, and then zeros.
pub fn write_fixed_bytes(value: &[u8], out: &mut [u8], to: usize, width: usize)
    requires { to + width ≤ length out.old }
    ensures { out.new ≡ splice out.old to (padded width value.now) }
{
    let n = value.len();
    if width <= n {
        copy_bytes(value, 0, out, to, width);
        return;
    }
    copy_bytes(value, 0, out, to, n);
    fill_zeros(out, to + n, width - n);
}

// 128 in each byte of x that is zero. Adding 127 to a byte's low seven bits sets its top bit unless they are all clear.
fn zeros_in(x: u64) -> u64
    ensures { result ≡ zeros 8 x }
{
    ((((x & 0x7f7f_7f7f_7f7f_7f7f) + 0x7f7f_7f7f_7f7f_7f7f) | x) & 0x8080_8080_8080_8080)
        ^ 0x8080_8080_8080_8080
}

// The bits that stay of a word whose zero bytes are m: those up to the first, or none once the name has ended.
fn mask(m: u64, live: bool) -> u64
    ensures { result ≡ (if live then up_to 8 m else 0) }
{
    m ^ m.wrapping_sub(u64::from(live))
}

// The eight bytes x of a name field in canonical form. live: the name has not ended before them.
pub fn canonical_word(x: u64, live: bool) -> u64
    ensures { digits 8 result ≡ canonical live (digits 8 x) }
{
    x & mask(zeros_in(x), live)
}

// Whether the name has not ended after the eight bytes x.
pub fn live_after_word(live: bool, x: u64) -> bool
    ensures { result ≡ (live && no_zero (digits 8 x)) }
{
    let no_zero = zeros_in(x) == 0;
    live && no_zero
}

// The eight bytes x, with a zero for each line feed. A line feed is a zero byte once 10 is taken off by `^`, which gives 128 in
// its byte; as 10 that takes off the byte itself.
pub fn blank_line_feeds(x: u64) -> u64
    ensures { digits 8 result ≡ map blank (digits 8 x) }
{
    let m = zeros_in(x ^ 0x0a0a_0a0a_0a0a_0a0a);
    x ^ (m / 128 * 10)
}

// Whether the name has not ended after the byte b.
fn live_after(live: bool, b: u8) -> bool
    ensures { result ≡ (live && not (b == 0)) }
{
    live && b != 0
}

// b, or zero once the name has ended.
fn kept(live: bool, b: u8) -> u8
    ensures { result ≡ (if live then b else 0) }
{
    if live { b } else { 0 }
}

// Writes n bytes of a name field in canonical form, byte by byte. live: the name has not ended before them.
fn write_name_end(src: &[u8], at: usize, out: &mut [u8], to: usize, n: usize, live: bool)
    requires { (at + n ≤ length src.now) × (to + n ≤ length out.old) }
    ensures { out.new ≡ splice out.old to (canonical live (run src.now at n)) }
{
    let mut on = live;
    for i in 0..n {
        let b = src[at + i];
        on = live_after(on, b);
        out[to + i] = kept(on, b);
    }
}

// Writes the name field of src at `at`, width bytes wide, into out from `to` on in canonical form: the name, and then zeros.
// It goes by words and does not branch on the bytes, since names end anywhere.
pub fn write_name(src: &[u8], at: usize, out: &mut [u8], to: usize, width: usize)
    requires { (at + width ≤ length src.now) × (to + width ≤ length out.old) }
    ensures { out.new ≡ splice out.old to (padded width (before_zero (run src.now at width))) }
{
    let words = width / 8;
    let mut live = true;
    for k in 0..words {
        let x = word_at(src, at + 8 * k);
        put_word(out, to + 8 * k, canonical_word(x, live));
        live = live_after_word(live, x);
    }
    let done = 8 * words;
    write_name_end(src, at + done, out, to + done, width - done, live);
}

// ---- flags

// A flag that is true when its byte is not 0.
pub fn flag_of(b: u8) -> bool
    ensures { result ≡ is_set b }
{
    b != 0
}

// The byte that is written for a flag: 0 or 1.
pub fn canonical_flag(b: u8) -> u8
    ensures { result ≡ flag_byte (is_set b) }
{
    u8::from(b != 0)
}

// A flag that is true when its byte is 0.
pub fn inverted_of(b: u8) -> bool
    ensures { result ≡ is_zero b }
{
    b == 0
}

// The byte that is written for such a flag: the same as `canonical_flag`, of the other flag in the format.
pub fn canonical_inverted(b: u8) -> u8
    ensures { result ≡ inverted_byte (is_zero b) }
{
    u8::from(b != 0)
}

// ---- floats

// The float that the bits stand for; every NaN pattern is the one NaN.
pub fn float_from_bits(bits: u32) -> f32
    ensures { result ≡ from_bits binary32 bits }
{
    if 0x7f80_0000 < bits % 0x8000_0000 {
        return f32::NAN;
    }
    f32::from_bits(bits)
}

// A NaN has no bits of its own, so only finite floats are taken.
pub fn float_to_bits(x: f32) -> u32
    requires { finite (to_bits binary32 x) ≡ true }
    ensures { result ≡ to_bits binary32 x }
{
    x.to_bits()
}

// Whether the bits, without their sign, are below those of infinity.
pub fn is_finite_bits(bits: u32) -> bool
    ensures { result ≡ finite bits }
{
    bits % 0x8000_0000 < 0x7f80_0000
}

// Whether x is no infinity and no NaN.
pub fn is_finite(x: f32) -> bool
    ensures { result ≡ finite (to_bits binary32 x) }
{
    !x.is_nan() && is_finite_bits(x.to_bits())
}
