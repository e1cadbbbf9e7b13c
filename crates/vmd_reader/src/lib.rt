// Opening a take, and its records, names and interpolation bytes by number. Public: no call asks anything of its caller, and
// each states its answer, and every byte lent, by an equation with a definition. File, opening and scratch stay parameters side
// by side: the C interface lends them anew at each call.
#![tactic(auto)]

ghost use Rattle.std.specs.Prelude.{◌≡◌, ◌+◌, ◌≤◌, length, take};
ghost use Rattle.vmd_format.specs.Answer.{given, map_answer};
ghost use Rattle.vmd_format.specs.Records.{bone, morph, camera, light, self_shadow};
ghost use Rattle.vmd_format.specs.Read.{strict};
ghost use Rattle.vmd_format.specs.Opening.{open_file, scratch_after};
ghost use Rattle.vmd_laws.specs.Places.{open_scan, scan_scratch};
ghost use Rattle.vmd_format.specs.Fetch.{record_place, fetch, or_empty, model_of, fetch_property, step_property, fetch_ik_state};
ghost use Rattle.vmd_records.specs.Fields.{bone_fields, morph_fields, camera_fields, light_floats, light_bits, self_shadow_fields, property_fields, ik_fields};
ghost use Rattle.vmd_base.specs.Meaning.{answer, answer_of, extent_is, manner_of};
ghost use Rattle.vmd_places.specs.Meaning.{ik_place};
ghost use Rattle.vmd_places.specs.Parts.{file_part, part_in, name_in, there};
ghost use Rattle.vmd_scan.specs.Meaning.{scan_is};
ghost use Rattle.vmd_reader.specs.Meaning.{opening_is, step_fields};

use vmd_base::{VmdManner, VmdPart, VmdRefusal, VmdSection};
use vmd_records::{
    VmdParsedBoneFrame, VmdParsedCameraFrame, VmdParsedIkState, VmdParsedLightBits,
    VmdParsedLightFrame, VmdParsedMorphFrame, VmdParsedPropertyFrame, VmdParsedSelfShadowFrame,
    VmdRecord,
};
use vmd_scan::VmdSections;
use vmd_scan::scanned::VmdScanned;

// What opening gives: the sections' counts and places, the number of IK states, and the smallest and the largest frame.
#[derive(Clone, Copy, Debug, PartialEq, Eq)]
pub struct VmdOpening {
    pub sections: VmdSections,
    pub min_frame: u32,
    pub max_frame: u32,
}

// ---- opening

// The opening of a file that was scanned: the positions of every sixteenth property frame go into scratch.
fn open_scanned(take: &VmdScanned, scratch: &mut [u64]) -> Result<VmdOpening, VmdRefusal>
    ensures result_value { answer opening_is result ≡ open_scan take.now.file.now (length scratch.old) (scan_is take.now.sections) }
    ensures scratch_left { scratch.new ≡ scan_scratch take.now.file.now scratch.old (given (scan_is take.now.sections)) }
{
    let file = take.file;
    let sections = take.sections;
    let properties = sections.properties;
    if scratch.len() < vmd_frames::places_needed(properties.count) {
        return Err(VmdRefusal::ScratchTooShort);
    }
    let frames = vmd_frames::frames_of(file, sections);
    vmd_frames::write_frame_places(file, properties, scratch);
    Ok(VmdOpening {
        sections,
        min_frame: frames.smallest,
        max_frame: frames.largest,
    })
}

// Checks a whole file in a manner of reading. Place j of scratch receives the position of property frame 16j; a refusal leaves
// all of it as it was.
pub fn open_file(
    file: &[u8],
    manner: VmdManner,
    scratch: &mut [u64],
) -> Result<VmdOpening, VmdRefusal>
    ensures result_value { answer opening_is result ≡ open_file (manner_of manner) file.now (length scratch.old) }
    ensures scratch_left { scratch.new ≡ scratch_after (manner_of manner) file.now scratch.old }
{
    let take = vmd_scan::scan_file(file, manner)?;
    open_scanned(&take, scratch)
}

// The same in the strict manner, which is meant where none is named.
pub fn parse_vmd_animation(file: &[u8], scratch: &mut [u64]) -> Result<VmdOpening, VmdRefusal>
    ensures result_value { answer opening_is result ≡ open_file strict file.now (length scratch.old) }
    ensures scratch_left { scratch.new ≡ scratch_after strict file.now scratch.old }
{
    open_file(file, VmdManner::Strict, scratch)
}

// ---- records by number

// Record i of a section.
fn record_at<R: VmdRecord>(file: &[u8], section: VmdSection, i: usize) -> Result<R, VmdRefusal>
    ensures { answer_of result ≡ map_answer R.fields (fetch R.layout (extent_is section) i file.now) }
{
    let at = vmd_places::place_of(file, section, R::SIZE, i)?;
    Ok(R::from_bytes(vmd_places::bytes_from(file, at)))
}

pub fn bone_frame(
    file: &[u8],
    opening: VmdOpening,
    i: usize,
) -> Result<VmdParsedBoneFrame, VmdRefusal>
    ensures { answer_of result ≡ map_answer bone_fields (fetch bone (opening_is opening).scan.bones i file.now) }
{
    let sections = opening.sections;
    record_at(file, sections.bones, i)
}

pub fn morph_frame(
    file: &[u8],
    opening: VmdOpening,
    i: usize,
) -> Result<VmdParsedMorphFrame, VmdRefusal>
    ensures { answer_of result ≡ map_answer morph_fields (fetch morph (opening_is opening).scan.morphs i file.now) }
{
    let sections = opening.sections;
    record_at(file, sections.morphs, i)
}

pub fn camera_frame(
    file: &[u8],
    opening: VmdOpening,
    i: usize,
) -> Result<VmdParsedCameraFrame, VmdRefusal>
    ensures { answer_of result ≡ map_answer camera_fields (fetch camera (opening_is opening).scan.cameras i file.now) }
{
    let sections = opening.sections;
    record_at(file, sections.cameras, i)
}

// A light with its six floats; every NaN is the one NaN.
pub fn light_frame(
    file: &[u8],
    opening: VmdOpening,
    i: usize,
) -> Result<VmdParsedLightFrame, VmdRefusal>
    ensures { answer_of result ≡ map_answer light_floats (fetch light (opening_is opening).scan.lights i file.now) }
{
    let sections = opening.sections;
    record_at(file, sections.lights, i)
}

// A light with its floats' exact bits.
pub fn light_frame_bits(
    file: &[u8],
    opening: VmdOpening,
    i: usize,
) -> Result<VmdParsedLightBits, VmdRefusal>
    ensures { answer_of result ≡ map_answer light_bits (fetch light (opening_is opening).scan.lights i file.now) }
{
    let sections = opening.sections;
    record_at(file, sections.lights, i)
}

pub fn self_shadow_frame(
    file: &[u8],
    opening: VmdOpening,
    i: usize,
) -> Result<VmdParsedSelfShadowFrame, VmdRefusal>
    ensures { answer_of result ≡ map_answer self_shadow_fields (fetch self_shadow (opening_is opening).scan.self_shadows i file.now) }
{
    let sections = opening.sections;
    record_at(file, sections.self_shadows, i)
}

pub fn property_frame(
    file: &[u8],
    opening: VmdOpening,
    scratch: &[u64],
    i: usize,
) -> Result<VmdParsedPropertyFrame, VmdRefusal>
    ensures { answer_of result ≡ map_answer property_fields (fetch_property (opening_is opening).scan.properties scratch.now i file.now) }
{
    let sections = opening.sections;
    let at = vmd_places::place_of_property(file, sections.properties, scratch, i)?;
    Ok(VmdParsedPropertyFrame::from_bytes(vmd_places::bytes_from(file, at)))
}

// The property frame at a place, all of it in the file, and the place of the next one: the frames of a section one after
// another, from its place on.
pub fn property_frame_at(
    file: &[u8],
    place: usize,
) -> Result<(VmdParsedPropertyFrame, usize), VmdRefusal>
    ensures { answer_of result ≡ map_answer step_fields (step_property place file.now) }
{
    let next = vmd_places::next_place(file, place)?;
    let frame = VmdParsedPropertyFrame::from_bytes(vmd_places::bytes_from(file, place));
    Ok((frame, next))
}

// IK state j of property frame i.
pub fn ik_state(
    file: &[u8],
    opening: VmdOpening,
    scratch: &[u64],
    i: usize,
    j: usize,
) -> Result<VmdParsedIkState, VmdRefusal>
    ensures { answer_of result ≡ map_answer ik_fields (fetch_ik_state (opening_is opening).scan.properties scratch.now i j file.now) }
{
    let sections = opening.sections;
    let at = vmd_places::place_of_ik_state(file, sections.properties, scratch, i, j)?;
    Ok(VmdParsedIkState::from_bytes(vmd_places::bytes_from(file, at)))
}

// ---- names and interpolation bytes, parts of the file: where each stands, and the part itself

// The name at the front of record i of a section.
fn name_part<R: VmdRecord>(file: &[u8], section: VmdSection, i: usize, width: usize) -> VmdPart
    requires { width ≤ R.SIZE }
    ensures { result ≡ part_in (record_place R.SIZE (extent_is section) i file.now) 0 (there (name_in width) 0 (record_place R.SIZE (extent_is section) i file.now) file.now) }
{
    let place = vmd_places::place_of(file, section, R::SIZE, i);
    vmd_places::name_of(file, place, width)
}

// n bytes, so far into it.
fn bytes_part<R: VmdRecord>(
    file: &[u8],
    section: VmdSection,
    i: usize,
    offset: usize,
    n: usize,
) -> VmdPart
    requires { offset + n ≤ R.SIZE }
    ensures { result ≡ part_in (record_place R.SIZE (extent_is section) i file.now) offset (there (take n) offset (record_place R.SIZE (extent_is section) i file.now) file.now) }
{
    let place = vmd_places::place_of(file, section, R::SIZE, i);
    vmd_places::bytes_of(file, place, offset, n)
}

// Nowhere, and empty, where there is no such record or its name is empty.
pub fn bone_name_part(file: &[u8], opening: VmdOpening, i: usize) -> VmdPart
    ensures { result ≡ part_in (record_place 111 (opening_is opening).scan.bones i file.now) 0 (or_empty (map_answer (λ x. x.name) (fetch bone (opening_is opening).scan.bones i file.now))) }
{
    let sections = opening.sections;
    name_part::<VmdParsedBoneFrame>(file, sections.bones, i, VmdParsedBoneFrame::NAME_WIDTH)
}

pub fn bone_name<'a>(file: &'a [u8], opening: VmdOpening, i: usize) -> &'a [u8]
    ensures { result.now ≡ or_empty (map_answer (λ x. x.name) (fetch bone (opening_is opening).scan.bones i file.now)) }
{
    vmd_places::cut(file, bone_name_part(file, opening, i))
}

pub fn morph_name_part(file: &[u8], opening: VmdOpening, i: usize) -> VmdPart
    ensures { result ≡ part_in (record_place 23 (opening_is opening).scan.morphs i file.now) 0 (or_empty (map_answer (λ x. x.name) (fetch morph (opening_is opening).scan.morphs i file.now))) }
{
    let sections = opening.sections;
    name_part::<VmdParsedMorphFrame>(file, sections.morphs, i, VmdParsedMorphFrame::NAME_WIDTH)
}

pub fn morph_name<'a>(file: &'a [u8], opening: VmdOpening, i: usize) -> &'a [u8]
    ensures { result.now ≡ or_empty (map_answer (λ x. x.name) (fetch morph (opening_is opening).scan.morphs i file.now)) }
{
    vmd_places::cut(file, morph_name_part(file, opening, i))
}

pub fn ik_name_part(
    file: &[u8],
    opening: VmdOpening,
    scratch: &[u64],
    i: usize,
    j: usize,
) -> VmdPart
    ensures { result ≡ part_in (ik_place (opening_is opening).scan.properties scratch.now i j file.now) 0 (or_empty (map_answer (λ x. x.name) (fetch_ik_state (opening_is opening).scan.properties scratch.now i j file.now))) }
{
    let sections = opening.sections;
    let place = vmd_places::place_of_ik_state(file, sections.properties, scratch, i, j);
    vmd_places::name_of(file, place, VmdParsedIkState::NAME_WIDTH)
}

pub fn ik_name<'a>(
    file: &'a [u8],
    opening: VmdOpening,
    scratch: &[u64],
    i: usize,
    j: usize,
) -> &'a [u8]
    ensures { result.now ≡ or_empty (map_answer (λ x. x.name) (fetch_ik_state (opening_is opening).scan.properties scratch.now i j file.now)) }
{
    vmd_places::cut(file, ik_name_part(file, opening, scratch, i, j))
}

pub fn model_part(file: &[u8]) -> VmdPart
    ensures { result ≡ file_part 30 (length (model_of file.now)) }
{
    vmd_header::model_part(file)
}

pub fn model_name<'a>(file: &'a [u8]) -> &'a [u8]
    ensures { result.now ≡ model_of file.now }
{
    vmd_header::model_name(file)
}

pub fn bone_interpolation_part(file: &[u8], opening: VmdOpening, i: usize) -> VmdPart
    ensures { result ≡ part_in (record_place 111 (opening_is opening).scan.bones i file.now) 47 (or_empty (map_answer (λ x. x.interpolation) (fetch bone (opening_is opening).scan.bones i file.now))) }
{
    let sections = opening.sections;
    let offset = VmdParsedBoneFrame::INTERPOLATION_OFFSET;
    let end = VmdParsedBoneFrame::SIZE;
    bytes_part::<VmdParsedBoneFrame>(file, sections.bones, i, offset, end - offset)
}

pub fn bone_interpolation<'a>(file: &'a [u8], opening: VmdOpening, i: usize) -> &'a [u8]
    ensures { result.now ≡ or_empty (map_answer (λ x. x.interpolation) (fetch bone (opening_is opening).scan.bones i file.now)) }
{
    vmd_places::cut(file, bone_interpolation_part(file, opening, i))
}

pub fn camera_interpolation_part(file: &[u8], opening: VmdOpening, i: usize) -> VmdPart
    ensures { result ≡ part_in (record_place 61 (opening_is opening).scan.cameras i file.now) 32 (or_empty (map_answer (λ x. x.interpolation) (fetch camera (opening_is opening).scan.cameras i file.now))) }
{
    let sections = opening.sections;
    let offset = VmdParsedCameraFrame::INTERPOLATION_OFFSET;
    bytes_part::<VmdParsedCameraFrame>(
        file,
        sections.cameras,
        i,
        offset,
        VmdParsedCameraFrame::FOV_OFFSET - VmdParsedCameraFrame::INTERPOLATION_OFFSET,
    )
}

pub fn camera_interpolation<'a>(file: &'a [u8], opening: VmdOpening, i: usize) -> &'a [u8]
    ensures { result.now ≡ or_empty (map_answer (λ x. x.interpolation) (fetch camera (opening_is opening).scan.cameras i file.now)) }
{
    vmd_places::cut(file, camera_interpolation_part(file, opening, i))
}
