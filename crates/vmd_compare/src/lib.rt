// A file compared with its canonical bytes, where they stand: names, flags and the records of a section. Internal: callers see
// to the lengths. Each comparison gives the place after what it compared, or the first place at which saving would change a
// byte.
// A file and a place in it stand beside each other: with both in a value each contract would say besides that the next one has
// the same file: no plainer.
#![tactic(auto)]

ghost use Rattle.std.specs.Prelude.{ℕ, ◌≡◌, refl, true, List, ◌+◌, ◌*◌, ◌≤◌, length, drop, replicate};
ghost use Rattle.std.proofs.lemmas.Bool.{leb-true};
ghost use Rattle.vmd_format.specs.Fetch.{next_frame};
ghost use Rattle.vmd_format.specs.Read.{table, write_all};
ghost use Rattle.vmd_format.specs.Take.{property};
ghost use Rattle.vmd_laws.specs.Places.{Reaches};
ghost use Rattle.vmd_laws.specs.PlacesLaws.{property_in, frames_in};
ghost use Rattle.vmd_records.specs.Kinds.{layout, size_of};
ghost use Rattle.vmd_form.specs.Compare.{compare_at};
ghost use Rattle.vmd_form.specs.Form.{ZerosAfter};
ghost use Rattle.vmd_form.specs.RowLaws.{named_length, camera_length, ik_length};
ghost use Rattle.vmd_form.specs.Rows.{rows, name_field, flag_field, named_row, camera_row, ik_row};
ghost use Rattle.vmd_compare.specs.Meaning.{compared_is};

use vmd_records::{
    VmdKind, VmdParsedBoneFrame, VmdParsedCameraFrame, VmdParsedIkState, VmdParsedLightFrame,
    VmdParsedMorphFrame, VmdParsedPropertyFrame, VmdParsedSelfShadowFrame, VmdRecord,
};

// The first place at which saving would change a byte.
#[derive(Clone, Copy, Debug, PartialEq, Eq)]
pub struct VmdDifference {
    pub at: usize,
}

// The name of a bone or a morph, and of an IK state.
const NAME_WIDTH: usize = VmdParsedBoneFrame::NAME_WIDTH;

const IK_NAME_WIDTH: usize = VmdParsedIkState::NAME_WIDTH;

// ---- bytes

// Whether these bytes stand at a place; the file may end before them.
pub fn compare_bytes(file: &[u8], at: usize, bytes: &[u8]) -> Result<usize, VmdDifference>
    requires { at ≤ length file.now }
    ensures { compared_is result ≡ compare_at file.now at bytes.now }
{
    let rest = &file[at..];
    match rest.iter().zip(bytes).position(|(a, b)| *a != *b) {
        Some(i) => Err(VmdDifference { at: at + i }),
        None if rest.len() < bytes.len() => Err(VmdDifference { at: file.len() }),
        None => Ok(at + bytes.len()),
    }
}

fn compare_zeros(file: &[u8], at: usize, n: usize) -> Result<usize, VmdDifference>
    requires { at + n ≤ length file.now }
    ensures { compared_is result ≡ compare_at file.now at (replicate n 0) }
{
    match file[at..at + n].iter().position(|byte| *byte != 0) {
        Some(i) => Err(VmdDifference { at: at + i }),
        None => Ok(at + n),
    }
}

// ---- names

// A field of any width, byte by byte: zeros after the name. Loops over records call it for the name that differs alone, and are
// short without it.
#[inline(never)]
pub fn compare_name(file: &[u8], at: usize, width: usize) -> Result<usize, VmdDifference>
    requires { at + width ≤ length file.now }
    ensures { compared_is result ≡ compare_at file.now at (name_field file.now width at) }
{
    let end = at + width;
    let n = vmd_bytes::trim_fixed_bytes(&file[at..end]).len();
    compare_zeros(file, at + n, width - n)
}

// Whether the eight bytes at a place have nothing but zeros after a zero. It does not branch on the bytes.
fn is_plain_word(file: &[u8], at: usize) -> bool
    requires { at + 8 ≤ length file.now }
    ensures { result ≡ true → ZerosAfter file.now at 8 }
{
    let x = vmd_bytes::word_at(file, at);
    vmd_bytes::canonical_word(x, true) == x
}

// The same of a name's field, by words that share a byte: a zero is seen by the next word through the byte that both have.
fn is_plain_name(file: &[u8], at: usize) -> bool
    requires { at + 15 ≤ length file.now }
    ensures { result ≡ true → ZerosAfter file.now at 15 }
{
    let first = is_plain_word(file, at);
    let second = is_plain_word(file, at + 7);
    first && second
}

fn is_plain_ik_name(file: &[u8], at: usize) -> bool
    requires { at + 20 ≤ length file.now }
    ensures { result ≡ true → ZerosAfter file.now at 20 }
{
    let first = is_plain_name(file, at);
    let last = is_plain_word(file, at + 12);
    first && last
}

fn compare_ik_name(file: &[u8], at: usize) -> Result<usize, VmdDifference>
    requires { at + 20 ≤ length file.now }
    ensures { compared_is result ≡ compare_at file.now at (name_field file.now 20 at) }
{
    if is_plain_ik_name(file, at) {
        return Ok(at + IK_NAME_WIDTH);
    }
    compare_name(file, at, IK_NAME_WIDTH)
}

// ---- flags

// A flag byte that is 0 or 1 stays, the perspective byte too.
fn compare_flag(file: &[u8], at: usize) -> Result<usize, VmdDifference>
    requires { at + 1 ≤ length file.now }
    ensures { compared_is result ≡ compare_at file.now at (flag_field file.now at) }
{
    if 1 < file[at] {
        return Err(VmdDifference { at });
    }
    Ok(at + 1)
}

// ---- records

// A kind of record of which saving can change bytes. Lights and self-shadows stay as they are.
trait VmdComparedRecord: VmdRecord {
    // What saving makes of the record at a place.
    ghost saved: { List ℕ → ℕ → List ℕ };

    fn compare(file: &[u8], at: usize) -> Result<usize, VmdDifference>
        requires { at + Self.SIZE ≤ length file.now }
        ensures { compared_is result ≡ compare_at file.now at (saved file.now at) };

    ghost saved_length: { (s : List ℕ) (at : ℕ) → at + Self.SIZE ≤ length s → length (saved s at) ≡ Self.SIZE };
}

// A bone or a morph: a name, and then bytes that stay.
fn compare_named(file: &[u8], at: usize, size: usize) -> Result<usize, VmdDifference>
    requires { (15 ≤ size) × (at + size ≤ length file.now) }
    ensures { compared_is result ≡ compare_at file.now at (named_row file.now size at) }
{
    if is_plain_name(file, at) {
        return Ok(at + size);
    }
    compare_name(file, at, NAME_WIDTH)?;
    Ok(at + size)
}

impl VmdComparedRecord for VmdParsedBoneFrame {
    ghost saved = { λ s. named_row s 111 };

    fn compare(file: &[u8], at: usize) -> Result<usize, VmdDifference> {
        compare_named(file, at, VmdParsedBoneFrame::SIZE)
    }

    ghost saved_length = { λ s at h. named_length s at 111 (leb-true 15 111 refl) h };
}

impl VmdComparedRecord for VmdParsedMorphFrame {
    ghost saved = { λ s. named_row s 23 };

    fn compare(file: &[u8], at: usize) -> Result<usize, VmdDifference> {
        compare_named(file, at, VmdParsedMorphFrame::SIZE)
    }

    ghost saved_length = { λ s at h. named_length s at 23 (leb-true 15 23 refl) h };
}

impl VmdComparedRecord for VmdParsedCameraFrame {
    ghost saved = { camera_row };

    // Only its perspective byte can change.
    fn compare(file: &[u8], at: usize) -> Result<usize, VmdDifference> {
        compare_flag(file, at + VmdParsedCameraFrame::PERSPECTIVE_OFFSET)
    }

    ghost saved_length = { camera_length };
}

impl VmdComparedRecord for VmdParsedIkState {
    ghost saved = { ik_row };

    fn compare(file: &[u8], at: usize) -> Result<usize, VmdDifference> {
        let flag = compare_ik_name(file, at)?;
        compare_flag(file, flag)
    }

    ghost saved_length = { λ s at h. ik_length s at };
}

// n records of such a kind, one after another. Where the next one stands does not wait for the bytes of this one.
fn compare_rows<T: VmdComparedRecord>(
    file: &[u8],
    at: usize,
    n: usize,
) -> Result<usize, VmdDifference>
    requires { at + n * T.SIZE ≤ length file.now }
    ensures { compared_is result ≡ compare_at file.now at (rows (T.saved file.now) T.SIZE n at) }
{
    let mut p = at;
    for _ in 0..n {
        T::compare(file, p)?;
        p += T::SIZE;
    }
    Ok(p)
}

// n records of a kind. The match picks a type, which no closure or table could.
pub fn compare_records(
    file: &[u8],
    at: usize,
    kind: VmdKind,
    n: usize,
) -> Result<usize, VmdDifference>
    requires { at + n * size_of kind ≤ length file.now }
    ensures { compared_is result ≡ compare_at file.now at (write_all (layout kind).encode (table (layout kind) n (drop at file.now))) }
{
    match kind {
        VmdKind::Bone => compare_rows::<VmdParsedBoneFrame>(file, at, n),
        VmdKind::Morph => compare_rows::<VmdParsedMorphFrame>(file, at, n),
        VmdKind::Camera => compare_rows::<VmdParsedCameraFrame>(file, at, n),
        VmdKind::Light => Ok(at + n * VmdParsedLightFrame::SIZE),
        VmdKind::SelfShadow => Ok(at + n * VmdParsedSelfShadowFrame::SIZE),
    }
}

// ---- property frames

// A property frame with its IK states.
fn compare_property(file: &[u8], at: usize) -> Result<usize, VmdDifference>
    requires { next_frame file.now at ≤ length file.now }
    ensures { compared_is result ≡ compare_at file.now at (property.write (property_in file.now at)) }
{
    compare_flag(file, at + VmdParsedPropertyFrame::VISIBLE_OFFSET)?;
    let states = vmd_bytes::read_u32_le(file, at + VmdParsedPropertyFrame::IK_COUNT_OFFSET);
    let place = at + VmdParsedPropertyFrame::SIZE;
    compare_rows::<VmdParsedIkState>(file, place, states as usize)
}

// n property frames one after another.
pub fn compare_properties(file: &[u8], at: usize, n: usize) -> Result<usize, VmdDifference>
    requires { Reaches file.now n at }
    ensures { compared_is result ≡ compare_at file.now at (write_all property.write (frames_in file.now n at)) }
{
    let mut p = at;
    for _ in 0..n {
        p = compare_property(file, p)?;
    }
    Ok(p)
}
