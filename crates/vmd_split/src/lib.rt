// Parts out of a take: what the builder takes, from an accepted file. Public: the pub calls ask nothing of their caller. Every
// buffer is tested before the first element is written.
#![tactic(auto)]

ghost use Rattle.std.specs.Prelude.{◌≡◌, true, ◌&&◌, ◌+◌, ◌*◌, ◌≤◌, leb};
ghost use Rattle.vmd_format.specs.Read.{strict};
ghost use Rattle.vmd_laws.specs.ScanLaws.{ExtentWithin};
ghost use Rattle.vmd_base.specs.Meaning.{answer, extent_is, manner_of};
ghost use Rattle.vmd_scan.specs.Meaning.{scan_is};
ghost use Rattle.vmd_keys.specs.Names.{names_in};
ghost use Rattle.vmd_tables.specs.Tables.{name_table};
ghost use Rattle.vmd_take_parts.specs.Split.{split, split_answer, split_sizes, parts_left};
ghost use Rattle.vmd_split.specs.Meaning.{sizes_are};
ghost use Rattle.vmd_split.specs.Stages.{table_room, bones_in, morphs_in};
ghost use Rattle.vmd_split.specs.Lent.{bones_hold, bone_names_hold, morphs_hold, morph_names_hold, records_hold, parts_hold, parts_are, SameBones, SameMorphs, SameRecords, BonesWritten, MorphsWritten, RecordsWritten};

use vmd_base::{VmdManner, VmdRefusal, VmdSection};
use vmd_count::VmdNames;
use vmd_keys::VmdCut;
use vmd_records::{
    VmdKind, VmdParsedBoneFrame, VmdParsedCameraFrame, VmdParsedIkState, VmdParsedLightFrame,
    VmdParsedMorphFrame, VmdParsedPropertyFrame, VmdParsedSelfShadowFrame, VmdRecord,
};
use vmd_scan::VmdSections;
use vmd_scan::scanned::VmdScanned;

// How many names a table has, and how many bytes they are together.
#[derive(Clone, Copy, Debug, PartialEq, Eq)]
pub struct VmdTableSizes {
    pub bone_names: u64,
    pub bone_name_bytes: u64,
    pub morph_names: u64,
    pub morph_name_bytes: u64,
}

// ---- the buffers that are lent. Of a name table, the names' bytes one after another, and where each ends; a float is its 32
// bits. The three stand beside one another (tried as fields of one struct; the proof of a caller, of what is left in its
// buffers, did not close).

// For the bones' name table and columns.
#[derive(Drop)]
pub struct VmdLentBones<'a> {
    pub name_bytes: &'a mut [u8],
    pub name_ends: &'a mut [u32],
    pub name_indices: &'a mut [u32],
    pub frames: &'a mut [u32],
    pub translations_xyz: &'a mut [u32],
    pub rotations_xyzw: &'a mut [u32],
    pub interpolations: &'a mut [u8],
}

// For the morphs'.
#[derive(Drop)]
pub struct VmdLentMorphs<'a> {
    pub name_bytes: &'a mut [u8],
    pub name_ends: &'a mut [u32],
    pub name_indices: &'a mut [u32],
    pub frames: &'a mut [u32],
    pub weights: &'a mut [u32],
}

// For cameras, lights, self-shadows and properties with their IK states, in canonical form.
#[derive(Drop)]
pub struct VmdLentRecords<'a> {
    pub cameras: &'a mut [u8],
    pub lights: &'a mut [u8],
    pub self_shadows: &'a mut [u8],
    pub properties: &'a mut [u8],
}

const BONE_SIZE: usize = VmdParsedBoneFrame::SIZE;

const MORPH_SIZE: usize = VmdParsedMorphFrame::SIZE;

// The most bytes that a name has.
const NAME_WIDTH: usize = VmdParsedBoneFrame::NAME_WIDTH;

// The most bytes that a name table has: its ends are u32.
const LARGEST_TABLE: usize = 0xffff_ffff;

// ---- whether the parts fit

// Whether so many property frames with so many IK states fit. The states are any number of 64 bits, so the room is divided.
fn properties_fit(frames: u32, ik_states: u64, bytes: usize) -> bool
    ensures { result ≡ leb (9 * frames + 21 * ik_states) bytes }
{
    let heads = VmdParsedPropertyFrame::SIZE * frames as usize;
    if bytes < heads {
        return false;
    }
    ik_states as usize <= (bytes - heads) / VmdParsedIkState::SIZE
}

// Whether the name table of a section fits two buffers of these lengths. Where they have room for a name of every record,
// nothing is counted.
fn table_fits(
    file: &[u8],
    section: VmdSection,
    record_size: usize,
    bytes: usize,
    ends: usize,
) -> bool
    requires { ExtentWithin record_size file.now (extent_is section) × (16 ≤ record_size) × (record_size ≤ 111) }
    ensures { result ≡ table_room (name_table (names_in file.now section.place record_size section.count)) bytes ends }
{
    let n = section.count as usize;
    let most = NAME_WIDTH * n;
    if n <= ends && most <= bytes && most <= LARGEST_TABLE {
        return true;
    }
    let table = vmd_count::count_names(file, section.place, record_size, n, VmdCut::Whole);
    let size = table.bytes as usize;
    if size > LARGEST_TABLE {
        return false;
    }
    size <= bytes && table.names as usize <= ends
}

impl<'a> VmdLentBones<'a> {
    // Whether the columns of so many bones fit.
    #[tactic(auto, unfolding(crate::specs::Stages::bone_room))]
    fn hold(&self, count: u32) -> bool
        ensures { result ≡ bones_hold count self.now }
    {
        let n = count as usize;
        n <= self.name_indices.len()
            && n <= self.frames.len()
            && 3 * n <= self.translations_xyz.len()
            && 4 * n <= self.rotations_xyzw.len()
            && 64 * n <= self.interpolations.len()
    }

    // Whether the bones' name table fits.
    fn hold_names(&self, take: &VmdScanned) -> bool
        ensures { result ≡ bone_names_hold take.now.file.now (scan_is take.now.sections) self.now }
    {
        let bones = take.sections.bones;
        table_fits(
            take.file,
            bones,
            BONE_SIZE,
            self.name_bytes.len(),
            self.name_ends.len(),
        )
    }

    // Writes the name table and the columns of a take's bones. The frames' column is work space for the table.
    fn write(&mut self, take: &VmdScanned) -> VmdNames
        requires columns_fit { bones_hold take.now.sections.bones.count self.old ≡ true }
        requires names_fit { bone_names_hold take.now.file.now (scan_is take.now.sections) self.old ≡ true }
        ensures same { SameBones self.old self.new }
        ensures written { BonesWritten (bones_in take.now.file.now (extent_is take.now.sections.bones)) result.names result.bytes self.old self.new }
    {
        let file = take.file;
        let n = take.sections.bones.count as usize;
        let at = take.sections.bones.place;
        let table = vmd_tables::write_name_table(
            self.name_bytes,
            self.name_ends,
            self.name_indices,
            self.frames,
            file,
            at,
            BONE_SIZE,
            n,
        );
        vmd_columns::write_numbers(
            self.frames,
            file,
            at,
            BONE_SIZE,
            n,
            VmdParsedBoneFrame::FRAME_OFFSET,
            1,
        );
        vmd_columns::write_numbers(
            self.translations_xyz,
            file,
            at,
            BONE_SIZE,
            n,
            VmdParsedBoneFrame::TRANSLATION_OFFSET,
            3,
        );
        vmd_columns::write_numbers(
            self.rotations_xyzw,
            file,
            at,
            BONE_SIZE,
            n,
            VmdParsedBoneFrame::ROTATION_OFFSET,
            4,
        );
        vmd_columns::write_interpolations(
            self.interpolations,
            file,
            at,
            BONE_SIZE,
            n,
            VmdParsedBoneFrame::INTERPOLATION_OFFSET,
        );
        table
    }
}

impl<'a> VmdLentMorphs<'a> {
    // Whether the columns of so many morphs fit.
    #[tactic(auto, unfolding(crate::specs::Stages::morph_room))]
    fn hold(&self, count: u32) -> bool
        ensures { result ≡ morphs_hold count self.now }
    {
        let n = count as usize;
        n <= self.name_indices.len() && n <= self.frames.len() && n <= self.weights.len()
    }

    // Whether the morphs' name table fits. No trait over both: each is one expression.
    fn hold_names(&self, take: &VmdScanned) -> bool
        ensures { result ≡ morph_names_hold take.now.file.now (scan_is take.now.sections) self.now }
    {
        let morphs = take.sections.morphs;
        table_fits(
            take.file,
            morphs,
            MORPH_SIZE,
            self.name_bytes.len(),
            self.name_ends.len(),
        )
    }

    // Writes the name table and the columns of a take's morphs.
    fn write(&mut self, take: &VmdScanned) -> VmdNames
        requires columns_fit { morphs_hold take.now.sections.morphs.count self.old ≡ true }
        requires names_fit { morph_names_hold take.now.file.now (scan_is take.now.sections) self.old ≡ true }
        ensures same { SameMorphs self.old self.new }
        ensures written { MorphsWritten (morphs_in take.now.file.now (extent_is take.now.sections.morphs)) result.names result.bytes self.old self.new }
    {
        let file = take.file;
        let n = take.sections.morphs.count as usize;
        let at = take.sections.morphs.place;
        let table = vmd_tables::write_name_table(
            self.name_bytes,
            self.name_ends,
            self.name_indices,
            self.frames,
            file,
            at,
            MORPH_SIZE,
            n,
        );
        vmd_columns::write_numbers(
            self.frames,
            file,
            at,
            MORPH_SIZE,
            n,
            VmdParsedMorphFrame::FRAME_OFFSET,
            1,
        );
        vmd_columns::write_numbers(
            self.weights,
            file,
            at,
            MORPH_SIZE,
            n,
            VmdParsedMorphFrame::WEIGHT_OFFSET,
            1,
        );
        table
    }
}

impl<'a> VmdLentRecords<'a> {
    // Whether the records of the last four sections fit.
    #[tactic(auto, unfolding(crate::specs::Stages::record_room))]
    fn hold(&self, x: VmdSections) -> bool
        ensures { result ≡ records_hold (scan_is x) self.now }
    {
        let camera_bytes = VmdParsedCameraFrame::SIZE * x.cameras.count as usize;
        let light_bytes = VmdParsedLightFrame::SIZE * x.lights.count as usize;
        let self_shadow_bytes = VmdParsedSelfShadowFrame::SIZE * x.self_shadows.count as usize;
        camera_bytes <= self.cameras.len()
            && light_bytes <= self.lights.len()
            && self_shadow_bytes <= self.self_shadows.len()
            && properties_fit(x.properties.count, x.ik_states, self.properties.len())
    }

    // Writes the records of a take's last four sections.
    fn write(&mut self, take: &VmdScanned)
        requires { records_hold (scan_is take.now.sections) self.old ≡ true }
        ensures same { SameRecords self.old self.new }
        ensures written { RecordsWritten take.now.file.now (scan_is take.now.sections) self.old self.new }
    {
        let file = take.file;
        let x = take.sections;
        vmd_writers::write_records(
            self.cameras,
            0,
            VmdKind::Camera,
            file,
            x.cameras.place,
            x.cameras.count as usize,
        );
        vmd_writers::write_records(
            self.lights,
            0,
            VmdKind::Light,
            file,
            x.lights.place,
            x.lights.count as usize,
        );
        vmd_writers::write_records(
            self.self_shadows,
            0,
            VmdKind::SelfShadow,
            file,
            x.self_shadows.place,
            x.self_shadows.count as usize,
        );
        vmd_write_properties::write_properties(
            self.properties,
            0,
            file,
            x.properties.place,
            x.properties.count as usize,
        );
    }
}

// Whether all parts of a take fit. The tables come last: they may have to be counted.
#[tactic(auto, unfolding(crate::specs::Stages::parts_room))]
fn parts_fit(
    take: &VmdScanned,
    bones: &VmdLentBones,
    morphs: &VmdLentMorphs,
    records: &VmdLentRecords,
) -> bool
    ensures { result ≡ parts_hold take.now.file.now (scan_is take.now.sections) bones.now morphs.now records.now }
{
    let x = take.sections;
    records.hold(x)
        && bones.hold(x.bones.count)
        && morphs.hold(x.morphs.count)
        && bones.hold_names(take)
        && morphs.hold_names(take)
}

// ---- the calls, with the manner of reading named

// Splits the file's take into parts, each at the front of its buffer; a refusal leaves every buffer as it was.
pub fn split_file(
    file: &[u8],
    manner: VmdManner,
    bones: &mut VmdLentBones,
    morphs: &mut VmdLentMorphs,
    records: &mut VmdLentRecords,
) -> Result<VmdTableSizes, VmdRefusal>
    ensures result_value { answer sizes_are result ≡ split_answer (manner_of manner) file.now (parts_are bones.old morphs.old records.old) }
    ensures parts_after { parts_are bones.new morphs.new records.new ≡ parts_left (parts_are bones.old morphs.old records.old) (split (manner_of manner) file.now (parts_are bones.old morphs.old records.old)) }
    ensures same { SameBones bones.old bones.new × SameMorphs morphs.old morphs.new × SameRecords records.old records.new }
{
    let take = vmd_scan::scan_file(file, manner)?;
    if !parts_fit(&take, bones, morphs, records) {
        return Err(VmdRefusal::PartsDoNotFit);
    }
    records.write(&take);
    let bone_table = bones.write(&take);
    let morph_table = morphs.write(&take);
    Ok(VmdTableSizes {
        bone_names: bone_table.names,
        bone_name_bytes: bone_table.bytes,
        morph_names: morph_table.names,
        morph_name_bytes: morph_table.bytes,
    })
}

// How many names and name bytes each table has.
pub fn split_file_sizes(file: &[u8], manner: VmdManner) -> Result<VmdTableSizes, VmdRefusal>
    ensures { answer sizes_are result ≡ split_sizes (manner_of manner) file.now }
{
    let take = vmd_scan::scan_file(file, manner)?;
    let a = take.sections;
    let bones = vmd_count::count_names(
        take.file,
        a.bones.place,
        BONE_SIZE,
        a.bones.count as usize,
        VmdCut::Whole,
    );
    let morphs = vmd_count::count_names(
        take.file,
        a.morphs.place,
        MORPH_SIZE,
        a.morphs.count as usize,
        VmdCut::Whole,
    );
    if bones.bytes as usize <= LARGEST_TABLE && morphs.bytes as usize <= LARGEST_TABLE {
        return Ok(VmdTableSizes {
            bone_names: bones.names,
            bone_name_bytes: bones.bytes,
            morph_names: morphs.names,
            morph_name_bytes: morphs.bytes,
        });
    }
    Err(VmdRefusal::PartsDoNotFit)
}

// ---- the same in the strict manner, which is meant where none is named

pub fn split_vmd_animation_into_parts(
    file: &[u8],
    bones: &mut VmdLentBones,
    morphs: &mut VmdLentMorphs,
    records: &mut VmdLentRecords,
) -> Result<VmdTableSizes, VmdRefusal>
    ensures result_value { answer sizes_are result ≡ split_answer strict file.now (parts_are bones.old morphs.old records.old) }
    ensures parts_after { parts_are bones.new morphs.new records.new ≡ parts_left (parts_are bones.old morphs.old records.old) (split strict file.now (parts_are bones.old morphs.old records.old)) }
    ensures same { SameBones bones.old bones.new × SameMorphs morphs.old morphs.new × SameRecords records.old records.new }
{
    split_file(file, VmdManner::Strict, bones, morphs, records)
}

pub fn split_vmd_sizes(file: &[u8]) -> Result<VmdTableSizes, VmdRefusal>
    ensures { answer sizes_are result ≡ split_sizes strict file.now }
{
    split_file_sizes(file, VmdManner::Strict)
}
