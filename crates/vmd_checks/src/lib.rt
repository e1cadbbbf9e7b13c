// The checks of the parts that a file is built from, in their order. Internal.
#![tactic(auto)]

ghost use Rattle.std.specs.Prelude.{◌≡◌, true, ◌*◌, ◌/◌, length};
ghost use Rattle.vmd_format.specs.Parts.{table_right, is_got, frames, properties_of, parts_check};
ghost use Rattle.vmd_names.specs.Meaning.{check_of};
ghost use Rattle.vmd_check_tables.specs.Meaning.{table_is};
ghost use Rattle.vmd_check_columns.specs.Meaning.{bits};
ghost use Rattle.vmd_checks.specs.Meaning.{parts_is};
ghost use Rattle.vmd_checks.specs.Stages.{all_whole, names_right, records_right, values_right, all_columns};

use vmd_base::VmdRefusal;
use vmd_check_columns::{VmdBoneColumns, VmdMorphColumns};
use vmd_check_tables::VmdNameTable;
use vmd_names::need;
use vmd_presence::VmdPresence;
use vmd_records::{
    VmdParsedBoneFrame, VmdParsedCameraFrame, VmdParsedLightFrame, VmdParsedSelfShadowFrame,
    VmdRecord,
};

const CAMERA_SIZE: usize = VmdParsedCameraFrame::SIZE;

const LIGHT_SIZE: usize = VmdParsedLightFrame::SIZE;

const SELF_SHADOW_SIZE: usize = VmdParsedSelfShadowFrame::SIZE;

// The name of a bone or a morph.
const NAME_SIZE: usize = VmdParsedBoneFrame::NAME_WIDTH;

// The parts that a file is built from: a model name, name tables, records one after another, and columns.
#[derive(Clone, Copy)]
pub struct VmdParts<'a> {
    pub model_name: &'a [u8],
    pub bone_names: VmdNameTable<'a>,
    pub morph_names: VmdNameTable<'a>,
    pub camera_frames: &'a [u8],
    pub light_frames: &'a [u8],
    pub self_shadow_frames: &'a [u8],
    pub property_frames: &'a [u8],
    pub bones: VmdBoneColumns<'a>,
    pub morphs: VmdMorphColumns<'a>,
}

impl<'a> VmdParts<'a> {
    // Whether the tables' ends are right and the record bytes are whole records.
    #[tactic(auto, using(crate::proofs::Whole::whole_is))]
    fn is_whole(&self) -> bool
        ensures { result ≡ all_whole (table_is self.now.bone_names) (table_is self.now.morph_names)
            self.now.camera_frames.now self.now.light_frames.now self.now.self_shadow_frames.now self.now.property_frames.now }
    {
        self.bone_names.is_right()
            && self.morph_names.is_right()
            && self.camera_frames.len() % CAMERA_SIZE == 0
            && self.light_frames.len() % LIGHT_SIZE == 0
            && self.self_shadow_frames.len() % SELF_SHADOW_SIZE == 0
            && vmd_check_records::frames_whole(self.property_frames)
    }

    // The model name, the bone names and the morph names.
    fn names_check(&self, presence: &VmdPresence) -> Result<(), VmdRefusal>
        requires { (table_right (table_is self.now.bone_names) ≡ true) × (table_right (table_is self.now.morph_names) ≡ true) }
        ensures { check_of result ≡ names_right self.now.model_name.now (table_is self.now.bone_names) (table_is self.now.morph_names) }
    {
        vmd_names::name_check(presence, self.model_name, vmd_base::MODEL_WIDTH)?;
        self.bone_names.names_check(presence, NAME_SIZE)?;
        self.morph_names.names_check(presence, NAME_SIZE)
    }

    // Cameras, lights, self-shadows and the IK names of the property frames.
    fn records_check(&self, presence: &VmdPresence) -> Result<(), VmdRefusal>
        requires { is_got (frames self.now.property_frames.now) ≡ true }
        ensures { check_of result ≡ records_right self.now.camera_frames.now self.now.light_frames.now self.now.self_shadow_frames.now self.now.property_frames.now }
    {
        vmd_check_records::cameras_check(self.camera_frames)?;
        vmd_check_records::lights_check(self.light_frames)?;
        vmd_check_records::self_shadows_check(self.self_shadow_frames)?;
        vmd_check_records::properties_check(presence, self.property_frames)
    }

    // The bones and then the morphs.
    fn values_check(&self) -> Result<(), VmdRefusal>
        requires { (length self.now.bones.translations_xyz.now ≡ 3 * length self.now.bones.name_indices.now)
            × (length self.now.bones.rotations_xyzw.now ≡ 4 * length self.now.bones.name_indices.now)
            × (length self.now.morphs.weights.now ≡ length self.now.morphs.name_indices.now) }
        ensures { check_of result ≡ values_right (length self.now.bone_names.ends.now) self.now.bones.name_indices.now
            (bits self.now.bones.translations_xyz.now) (bits self.now.bones.rotations_xyzw.now)
            (length self.now.morph_names.ends.now) self.now.morphs.name_indices.now (bits self.now.morphs.weights.now) }
    {
        self.bones.check(self.bone_names.len())?;
        self.morphs.check(self.morph_names.len())
    }

    // The lengths of the columns, the number of records in each section, and then the values.
    fn columns_check(&self, properties: usize) -> Result<(), VmdRefusal>
        ensures { check_of result ≡ all_columns (length self.now.camera_frames.now / 61) (length self.now.light_frames.now / 28)
            (length self.now.self_shadow_frames.now / 9) properties
            (length self.now.bone_names.ends.now) (length self.now.morph_names.ends.now)
            self.now.bones.name_indices.now self.now.bones.frames.now (bits self.now.bones.translations_xyz.now)
            (bits self.now.bones.rotations_xyzw.now) self.now.bones.interpolations.now
            self.now.morphs.name_indices.now self.now.morphs.frames.now (bits self.now.morphs.weights.now) }
    {
        vmd_check_columns::columns_check(&self.bones, &self.morphs)?;
        vmd_check_columns::counts_check(
            self.bones.len(),
            self.morphs.len(),
            self.camera_frames.len() / CAMERA_SIZE,
            self.light_frames.len() / LIGHT_SIZE,
            self.self_shadow_frames.len() / SELF_SHADOW_SIZE,
            properties,
        )?;
        self.values_check()
    }
}

// All checks in their order.
pub fn parts_check(parts: &VmdParts) -> Result<(), VmdRefusal>
    ensures { check_of result ≡ parts_check (parts_is parts.now) }
{
    need(parts.is_whole(), VmdRefusal::PartsNotWhole)?;
    let presence = vmd_presence::presence();
    parts.names_check(&presence)?;
    parts.records_check(&presence)?;
    let properties = vmd_check_records::property_count(parts.property_frames);
    parts.columns_check(properties)
}
