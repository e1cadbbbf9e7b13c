// Building a file from parts: a model name, name tables, record bytes and columns. Every part is checked before a byte is
// written.
#![tactic(auto)]

ghost use Rattle.std.specs.Prelude.{◌≡◌, true, ◌+◌, ◌*◌, ◌/◌, ◌≤◌, length};
ghost use Rattle.vmd_format.specs.Read.{fixed, write_counted};
ghost use Rattle.vmd_format.specs.Take.{property};
ghost use Rattle.vmd_format.specs.Parts.{records_of, is_got, frames, properties_of, build};
ghost use Rattle.vmd_format.specs.Answer.{fitted, map_answer, within, left};
ghost use Rattle.vmd_checks.specs.Meaning.{parts_is};
ghost use Rattle.vmd_records.specs.Kinds.{layout, size_of};
ghost use Rattle.vmd_base.specs.Meaning.{answer_of};
ghost use Rattle.vmd_bytes.specs.Written.{Room, Wrote};
ghost use Rattle.vmd_write_columns.specs.Stages.{BonesFit, MorphsFit};
ghost use Rattle.vmd_parts.specs.Stages.{front_of, RecordsFit, back_bytes};

use vmd_base::VmdRefusal;
use vmd_checks::VmdParts;
use vmd_records::{VmdKind, VmdParsedBoneFrame, VmdParsedMorphFrame, VmdRecord};

const BONE_SIZE: usize = VmdParsedBoneFrame::SIZE;

const MORPH_SIZE: usize = VmdParsedMorphFrame::SIZE;

// ---- the size

// The size of a file of these parts, where it is within a limit. Only the bytes of the properties can be so many that the sum
// would not fit.
fn parts_size(limit: usize, parts: &VmdParts) -> Result<u64, VmdRefusal>
    requires { let p = parts_is parts.now in
        (length p.bone_name_indices ≤ 4294967295) × (length p.morph_name_indices ≤ 4294967295) × (length p.cameras ≤ 261993004995)
        × (length p.lights ≤ 120259084260) × (length p.self_shadows ≤ 38654705655) }
    ensures { let p = parts_is parts.now in
        answer_of result ≡ within limit (74 + 111 * length p.bone_name_indices + 23 * length p.morph_name_indices
        + length p.cameras + length p.lights + length p.self_shadows + length p.properties) }
{
    let front = vmd_output::BARE_SIZE
        + vmd_base::MODEL_WIDTH
        + BONE_SIZE * parts.bones.len()
        + MORPH_SIZE * parts.morphs.len()
        + parts.camera_frames.len()
        + parts.light_frames.len()
        + parts.self_shadow_frames.len();
    vmd_output::size_within(limit, front, parts.property_frames.len())
}

// How many bytes building writes.
pub fn build_vmd_size(parts: &VmdParts) -> Result<u64, VmdRefusal>
    ensures { answer_of result ≡ map_answer length (fitted 18446744073709551615 (build (parts_is parts.now))) }
{
    vmd_checks::parts_check(parts)?;
    parts_size(vmd_output::LARGEST, parts)
}

// A section of the records of a kind that fill some bytes. The result is the place after it.
fn write_records_section(out: &mut [u8], to: usize, kind: VmdKind, src: &[u8]) -> usize
    requires { (length src.now / size_of kind ≤ 4294967295) × Room out.old to (write_counted (fixed (layout kind)) (records_of (layout kind) src.now)) }
    ensures { Wrote out.old to (write_counted (fixed (layout kind)) (records_of (layout kind) src.now)) out.new result }
{
    let n = src.len() / kind.size();
    let p = vmd_output::write_count(out, to, n as u32);
    vmd_writers::write_records(out, p, kind, src, 0, n)
}

// The same of property frames.
fn write_property_section(out: &mut [u8], to: usize, src: &[u8]) -> usize
    requires { (length (properties_of src.now) ≤ 4294967295) × (is_got (frames src.now) ≡ true) × Room out.old to (write_counted property (properties_of src.now)) }
    ensures { Wrote out.old to (write_counted property (properties_of src.now)) out.new result }
{
    let n = vmd_check_records::property_count(src);
    let p = vmd_output::write_count(out, to, n as u32);
    vmd_write_properties::write_properties(out, p, src, 0, n)
}

// The header, the bones and the morphs. The result is the place after them.
fn write_front(out: &mut [u8], parts: &VmdParts) -> usize
    requires bones_fit { let p = parts_is parts.now in
        BonesFit p.bone_names p.bone_name_indices p.bone_frames p.bone_translations p.bone_rotations p.bone_interpolations }
    requires morphs_fit { let p = parts_is parts.now in MorphsFit p.morph_names p.morph_name_indices p.morph_frames p.morph_weights }
    requires few { let p = parts_is parts.now in (length p.bone_name_indices ≤ 4294967295) × (length p.morph_name_indices ≤ 4294967295) }
    requires room { Room out.old 0 (front_of (parts_is parts.now)) }
    ensures { Wrote out.old 0 (front_of (parts_is parts.now)) out.new result }
{
    let bones = parts.bones.len();
    let morphs = parts.morphs.len();
    let p = vmd_output::write_header(out, vmd_base::VmdEdition::Newer, parts.model_name);
    let q = vmd_output::write_count(out, p, bones as u32);
    let r = vmd_write_columns::write_bone_frames(&parts.bone_names, &parts.bones, out, q);
    let s = vmd_output::write_count(out, r, morphs as u32);
    vmd_write_columns::write_morph_frames(&parts.morph_names, &parts.morphs, out, s)
}

// Cameras, lights, self-shadows and properties. The result is the place after them.
fn write_back(out: &mut [u8], to: usize, parts: &VmdParts) -> usize
    requires { let p = parts_is parts.now in
        RecordsFit p.cameras p.lights p.self_shadows p.properties × Room out.old to (back_bytes p.cameras p.lights p.self_shadows p.properties) }
    ensures { let p = parts_is parts.now in Wrote out.old to (back_bytes p.cameras p.lights p.self_shadows p.properties) out.new result }
{
    let p = write_records_section(out, to, VmdKind::Camera, parts.camera_frames);
    let q = write_records_section(out, p, VmdKind::Light, parts.light_frames);
    let r = write_records_section(out, q, VmdKind::SelfShadow, parts.self_shadow_frames);
    write_property_section(out, r, parts.property_frames)
}

// Builds the file of the parts at the front of out.
pub fn build_vmd_animation_from_parts(parts: &VmdParts, out: &mut [u8]) -> Result<u64, VmdRefusal>
    ensures result_value { answer_of result ≡ map_answer length (fitted (length out.old) (build (parts_is parts.now))) }
    ensures out_after { out.new ≡ left out.old (fitted (length out.old) (build (parts_is parts.now))) }
{
    vmd_checks::parts_check(parts)?;
    let _size = parts_size(out.len(), parts)?;
    let to = write_front(out, parts);
    let end = write_back(out, to, parts);
    Ok(end as u64)
}
