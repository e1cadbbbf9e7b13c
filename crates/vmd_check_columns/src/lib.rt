// Checks of columns: their lengths, the counts, and each bone's and morph's name index and floats. Internal.
#![tactic(auto)]

ghost use Rattle.std.specs.Prelude.{◌≡◌, ◌+◌, ◌*◌, ◌≤◌, ◌<◌, ◌↔◌, length, eqb, ltb, IsTrue, slice_index, EachIndex};
ghost use Rattle.vmd_format.specs.Refusal.{name_index_too_large};
ghost use Rattle.vmd_format.specs.Parts.{need, each, all_finite, upto};
ghost use Rattle.vmd_names.specs.Meaning.{check_of};
ghost use Rattle.vmd_check_columns.specs.Meaning.{bits};
ghost use Rattle.vmd_check_columns.specs.Stages.{bone_columns, morph_columns, columns_right, counts_right, bone_right, morph_right};

use vmd_base::VmdRefusal;
use vmd_names::{check_each, need};

// A section has no more records than its count can say.
const LARGEST_COUNT: usize = 0xffff_ffff;

// ---- columns

// The fields of bones, each field for all bones in their order: 3, 4 and 64 values of a bone in the last three columns. Columns
// side by side, as C lends them.
#[derive(Clone, Copy)]
pub struct VmdBoneColumns<'a> {
    pub name_indices: &'a [u32],
    pub frames: &'a [u32],
    pub translations_xyz: &'a [f32],
    pub rotations_xyzw: &'a [f32],
    pub interpolations: &'a [u8],
}

// The same of morphs.
#[derive(Clone, Copy)]
pub struct VmdMorphColumns<'a> {
    pub name_indices: &'a [u32],
    pub frames: &'a [u32],
    pub weights: &'a [f32],
}

// Whether a length is k times n. Dividing keeps within the range of lengths.
fn is_times(len: usize, k: usize, n: usize) -> bool
    requires { 0 < k }
    ensures { result ≡ eqb len (k * n) }
{
    len % k == 0 && len / k == n
}

// Whether the floats are finite.
fn floats_finite(xs: &[f32]) -> bool
    ensures { result ≡ all_finite (bits xs.now) }
{
    for x in xs {
        if !vmd_bytes::is_finite(*x) {
            return false;
        }
    }
    true
}

// An index among so many names.
fn index_check(index: u32, names: usize) -> Result<(), VmdRefusal>
    ensures { check_of result ≡ need (ltb index names) name_index_too_large }
{
    need((index as usize) < names, VmdRefusal::NameIndexTooLarge)
}

impl<'a> VmdBoneColumns<'a> {
    // How many bones there are.
    pub fn len(&self) -> usize
        ensures { result ≡ length self.now.name_indices.now }
    {
        let bones = self.name_indices;
        bones.len()
    }

    #[tactic(auto, unfolding(crate::specs::Stages::bone_columns))]
    fn lengths_agree(&self) -> bool
        ensures { result ≡ bone_columns (length self.now.name_indices.now) (length self.now.frames.now) (length self.now.translations_xyz.now)
            (length self.now.rotations_xyzw.now) (length self.now.interpolations.now) }
    {
        let n = self.len();
        self.frames.len() == n
            && is_times(self.translations_xyz.len(), 3, n)
            && is_times(self.rotations_xyzw.len(), 4, n)
            && is_times(self.interpolations.len(), 64, n)
    }

    // A bone's name index, and then its floats.
    fn bone_check(&self, names: usize, i: usize) -> Result<(), VmdRefusal>
        requires { (i < length self.now.name_indices.now) × (3 * i + 3 ≤ length self.now.translations_xyz.now) × (4 * i + 4 ≤ length self.now.rotations_xyzw.now) }
        ensures { check_of result ≡ bone_right self.now.name_indices.now names (bits self.now.translations_xyz.now) (bits self.now.rotations_xyzw.now) i }
    {
        index_check(self.name_indices[i], names)?;
        let translation = &self.translations_xyz[3 * i..3 * i + 3];
        let rotation = &self.rotations_xyzw[4 * i..4 * i + 4];
        need(
            floats_finite(translation) && floats_finite(rotation),
            VmdRefusal::NotFinite,
        )
    }

    // The bones in turn.
    pub fn check(&self, names: usize) -> Result<(), VmdRefusal>
        requires { (length self.now.translations_xyz.now ≡ 3 * length self.now.name_indices.now) × (length self.now.rotations_xyzw.now ≡ 4 * length self.now.name_indices.now) }
        ensures { check_of result ≡ each (bone_right self.now.name_indices.now names (bits self.now.translations_xyz.now) (bits self.now.rotations_xyzw.now))
            (upto 0 (length self.now.name_indices.now)) }
    {
        // A copy: through self, the places of the columns are read anew for each bone.
        let columns = *self;
        check_each(self.len(), move |i| columns.bone_check(names, i))
    }
}

impl<'a> VmdMorphColumns<'a> {
    // How many morphs there are.
    pub fn len(&self) -> usize
        ensures { result ≡ length self.now.name_indices.now }
    {
        let morphs = self.name_indices;
        morphs.len()
    }

    #[tactic(auto, unfolding(crate::specs::Stages::morph_columns))]
    fn lengths_agree(&self) -> bool
        ensures { result ≡ morph_columns (length self.now.name_indices.now) (length self.now.frames.now) (length self.now.weights.now) }
    {
        self.frames.len() == self.len() && self.weights.len() == self.len()
    }

    // A morph's name index, and then its weight.
    fn morph_check(&self, names: usize, i: usize) -> Result<(), VmdRefusal>
        requires { (i < length self.now.name_indices.now) × (i < length self.now.weights.now) }
        ensures { check_of result ≡ morph_right self.now.name_indices.now names (bits self.now.weights.now) i }
    {
        index_check(self.name_indices[i], names)?;
        need(vmd_bytes::is_finite(self.weights[i]), VmdRefusal::NotFinite)
    }

    // The morphs in turn.
    pub fn check(&self, names: usize) -> Result<(), VmdRefusal>
        requires { length self.now.weights.now ≡ length self.now.name_indices.now }
        ensures { check_of result ≡ each (morph_right self.now.name_indices.now names (bits self.now.weights.now)) (upto 0 (length self.now.name_indices.now)) }
    {
        let columns = *self;
        check_each(self.len(), move |i| columns.morph_check(names, i))
    }
}

#[tactic(auto, unfolding(crate::specs::Stages::columns_right))]
pub fn columns_check(bones: &VmdBoneColumns, morphs: &VmdMorphColumns) -> Result<(), VmdRefusal>
    ensures { check_of result ≡ columns_right (length bones.now.name_indices.now) (length bones.now.frames.now) (length bones.now.translations_xyz.now)
        (length bones.now.rotations_xyzw.now) (length bones.now.interpolations.now)
        (length morphs.now.name_indices.now) (length morphs.now.frames.now) (length morphs.now.weights.now) }
{
    need(
        bones.lengths_agree() && morphs.lengths_agree(),
        VmdRefusal::ColumnsDisagree,
    )
}

fn all_fit(counts: &[usize]) -> bool
    ensures { IsTrue result ↔ EachIndex counts.now (λ k. slice_index counts.now k ≤ 4294967295) }
{
    counts.iter().all(|n| *n <= LARGEST_COUNT)
}

// The number of records in each section fits its count.
pub fn counts_check(
    bones: usize,
    morphs: usize,
    cameras: usize,
    lights: usize,
    self_shadows: usize,
    properties: usize,
) -> Result<(), VmdRefusal>
    ensures { check_of result ≡ counts_right bones morphs cameras lights self_shadows properties }
{
    let counts = [bones, morphs, cameras, lights, self_shadows, properties];
    need(all_fit(&counts), VmdRefusal::CountTooLarge)
}
