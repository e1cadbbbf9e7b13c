// The writing of a file, for every call that writes one: how long a file is, the header, a count, and a
// section from records of one file or two. Internal: callers see to the room. Every writer gives the place
// after what it wrote, where the next one goes on. `out` and `to` stand side by side, here and in the crates above: of a value
// with both, each clause would have to say besides that the next writer's buffer is the one before's.
#![tactic(auto)]

ghost use Rattle.std.specs.Prelude.{◌≡◌, [], ◌∷◌, ◌++◌, ◌+◌, ◌≤◌, length};
ghost use Rattle.vmd_format.specs.Answer.{within};
ghost use Rattle.vmd_format.specs.Bytes.{u32_bytes};
ghost use Rattle.vmd_format.specs.Read.{fixed, write_counted};
ghost use Rattle.vmd_format.specs.Take.{property, magic_of, write_header};
ghost use Rattle.vmd_format.specs.Join.{file_length};
ghost use Rattle.vmd_base.specs.Meaning.{answer_of, edition_is, extent_is};
ghost use Rattle.vmd_records.specs.Kinds.{layout, size_of};
ghost use Rattle.vmd_bytes.specs.Slices.{splice};
ghost use Rattle.vmd_bytes.specs.Written.{Room, Wrote};
ghost use Rattle.vmd_output.specs.Sections.{BothWithin, Frames, records_of, frames_of};

use vmd_base::{VmdCounts, VmdEdition, VmdRefusal, VmdSection};
use vmd_records::{
    VmdKind, VmdParsedBoneFrame, VmdParsedCameraFrame, VmdParsedIkState, VmdParsedLightFrame,
    VmdParsedMorphFrame, VmdParsedPropertyFrame, VmdParsedSelfShadowFrame, VmdRecord,
};

// ---- sizes, in bytes

const COUNT_SIZE: usize = 4;

// The magic and six counts: a file of no records, without the field of the model name.
pub const BARE_SIZE: usize = vmd_base::MAGIC_SIZE + 6 * COUNT_SIZE;

// The largest length of an output.
pub const LARGEST: usize = usize::MAX;

// The size of a file of so many bytes and so many more, where that is within a limit.
pub fn size_within(limit: usize, front: usize, rest: usize) -> Result<u64, VmdRefusal>
    ensures { answer_of result ≡ within limit (front + rest) }
{
    if limit < front {
        return Err(VmdRefusal::OutputTooShort);
    }
    if limit - front < rest {
        return Err(VmdRefusal::OutputTooShort);
    }
    Ok((front + rest) as u64)
}

// The size of a file of so many records. Only the IK states can be so many that the sum would not fit.
pub fn file_size(
    limit: usize,
    edition: VmdEdition,
    counts: VmdCounts,
    ik_states: u64,
) -> Result<u64, VmdRefusal>
    ensures { answer_of result ≡ within limit (file_length (edition_is edition) counts.bones counts.morphs counts.cameras counts.lights counts.self_shadows counts.properties ik_states) }
{
    let states = ik_states as usize;
    let front = BARE_SIZE
        + edition.model_width()
        + VmdParsedBoneFrame::SIZE * counts.bones as usize
        + VmdParsedMorphFrame::SIZE * counts.morphs as usize
        + VmdParsedCameraFrame::SIZE * counts.cameras as usize
        + VmdParsedLightFrame::SIZE * counts.lights as usize
        + VmdParsedSelfShadowFrame::SIZE * counts.self_shadows as usize
        + VmdParsedPropertyFrame::SIZE * counts.properties as usize;
    if LARGEST / VmdParsedIkState::SIZE < states {
        return Err(VmdRefusal::OutputTooShort);
    }
    size_within(limit, front, VmdParsedIkState::SIZE * states)
}

// ---- the header, and a count

fn write_magic(out: &mut [u8], edition: VmdEdition)
    requires { 30 ≤ length out.old }
    ensures { out.new ≡ splice out.old 0 (magic_of (edition_is edition) ++ (0 ∷ 0 ∷ 0 ∷ 0 ∷ [])) }
{
    match edition {
        VmdEdition::Newer => {
            vmd_bytes::copy_bytes(&vmd_base::VMD_MAGIC, 0, out, 0, vmd_base::MAGIC_SIZE);
        }
        VmdEdition::Older => {
            vmd_bytes::copy_bytes(&vmd_base::OLDER_MAGIC, 0, out, 0, vmd_base::MAGIC_SIZE);
        }
    }
}

pub fn write_header(out: &mut [u8], edition: VmdEdition, model: &[u8]) -> usize
    requires { Room out.old 0 (write_header (edition_is edition) model.now) }
    ensures { Wrote out.old 0 (write_header (edition_is edition) model.now) out.new result }
{
    let width = edition.model_width();
    write_magic(out, edition);
    vmd_bytes::write_fixed_bytes(model, out, vmd_base::MAGIC_SIZE, width);
    vmd_base::MAGIC_SIZE + width
}

pub fn write_count(out: &mut [u8], to: usize, n: u32) -> usize
    requires { Room out.old to (u32_bytes n) }
    ensures { Wrote out.old to (u32_bytes n) out.new result }
{
    vmd_bytes::write_u32_le(out, to, n);
    to + COUNT_SIZE
}

// ---- a section: the count of both, then the first file's records, then the second's

pub fn write_section(
    out: &mut [u8],
    to: usize,
    kind: VmdKind,
    first: &[u8],
    a: VmdSection,
    second: &[u8],
    b: VmdSection,
) -> usize
    requires { BothWithin (size_of kind) first.now (extent_is a) second.now (extent_is b) × Room out.old to (write_counted (fixed (layout kind)) (records_of (layout kind) first.now (extent_is a) second.now (extent_is b))) }
    ensures { Wrote out.old to (write_counted (fixed (layout kind)) (records_of (layout kind) first.now (extent_is a) second.now (extent_is b))) out.new result }
{
    let p = write_count(out, to, a.count + b.count);
    let q = vmd_writers::write_records(out, p, kind, first, a.place, a.count as usize);
    vmd_writers::write_records(out, q, kind, second, b.place, b.count as usize)
}

// Property frames with their IK states. Not one function with the records', here and in the crates above: property frames have
// no one size, so what is promised of them is of other rows.
pub fn write_property_section(
    out: &mut [u8],
    to: usize,
    first: &[u8],
    a: VmdSection,
    second: &[u8],
    b: VmdSection,
) -> usize
    requires { Frames first.now (extent_is a) second.now (extent_is b) × Room out.old to (write_counted property (frames_of first.now (extent_is a) second.now (extent_is b))) }
    ensures { Wrote out.old to (write_counted property (frames_of first.now (extent_is a) second.now (extent_is b))) out.new result }
{
    let p = write_count(out, to, a.count + b.count);
    let q = vmd_write_properties::write_properties(out, p, first, a.place, a.count as usize);
    vmd_write_properties::write_properties(out, q, second, b.place, b.count as usize)
}
