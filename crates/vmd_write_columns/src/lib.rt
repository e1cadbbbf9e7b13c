// Bones and morphs written from their columns and name tables. Internal: callers see to the room, and that the checks passed.
#![tactic(auto)]

ghost use Rattle.std.specs.Prelude.{◌≡◌, true, cond, [], ◌∷◌, map, ◌+◌, ◌-◌, ◌*◌, ◌≤◌, ◌<◌, length, get_or, take, eqb};
ghost use Rattle.vmd_format.specs.Bytes.{u32_bytes, padded};
ghost use Rattle.vmd_format.specs.Records.{bone, morph};
ghost use Rattle.vmd_format.specs.Read.{write_all};
ghost use Rattle.vmd_format.specs.Parts.{passes, each, name_check, names_of, table_right, all_finite, upto};
ghost use Rattle.vmd_bytes.specs.Slices.{splice, run};
ghost use Rattle.vmd_bytes.specs.Words.{digits};
ghost use Rattle.vmd_check_tables.specs.Meaning.{table_is};
ghost use Rattle.vmd_check_columns.specs.Meaning.{bits};
ghost use Rattle.vmd_bytes.specs.Written.{Room, Wrote};
ghost use Rattle.vmd_write_columns.specs.Stages.{BonesFit, bone_of, MorphsFit, morph_of};

use vmd_check_columns::{VmdBoneColumns, VmdMorphColumns};
use vmd_check_tables::VmdNameTable;
use vmd_records::{VmdParsedBoneFrame, VmdParsedMorphFrame, VmdRecord};

const BONE_SIZE: usize = VmdParsedBoneFrame::SIZE;

const MORPH_SIZE: usize = VmdParsedMorphFrame::SIZE;

const INTERPOLATION_SIZE: usize = VmdParsedBoneFrame::INTERPOLATION_SIZE;

const FLOAT_SIZE: usize = 4;

const WORD: usize = 8;

// The name of a bone or a morph with the byte after it, which is two words.
const NAME_WORDS: usize = 16;

// ---- writing

// The n lowest bytes of a word, and zeros above them. A shift by all of a word's bits is undefined, so the mask is shifted
// twice, by half each time.
fn low_bytes(x: u64, n: usize) -> u64
    requires { n ≤ 8 }
    ensures { digits 8 result ≡ padded 8 (take n (digits 8 x)) }
{
    let half = 4 * (8 - n);
    x & (0xffff_ffff_ffff_ffff >> half >> half)
}

// Writes the n bytes of a name at a place of a table, and then zeros to two words. Names end anywhere, so it does not branch
// on the length, but where the table has fewer than two words from that place on. In line, as write_name is.
#[inline(always)]
fn write_table_name(bytes: &[u8], start: usize, n: usize, out: &mut [u8], to: usize)
    requires { (n ≤ 15) × (start + n ≤ length bytes.now) × (to + 16 ≤ length out.old) }
    ensures { out.new ≡ splice out.old to (padded 16 (run bytes.now start n)) }
{
    if bytes.len() - start < NAME_WORDS {
        let end = start + n;
        vmd_bytes::write_fixed_bytes(&bytes[start..end], out, to, NAME_WORDS);
        return;
    }
    let past = n.saturating_sub(WORD);
    let low = low_bytes(vmd_bytes::word_at(bytes, start), n - past);
    let high = low_bytes(vmd_bytes::word_at(bytes, start + WORD), past);
    vmd_bytes::put_word(out, to, low);
    vmd_bytes::put_word(out, to + WORD, high);
}

// x, or 0 for the first index.
fn unless_first(i: usize, x: usize) -> usize
    ensures { result ≡ cond (eqb i 0) 0 x }
{
    if i == 0 { 0 } else { x }
}

// Where a name of a table begins: where the one before it ends. An end is read for the first name too, so as not to branch.
fn name_start(ends: &[u32], i: usize) -> usize
    requires { i < length ends.now }
    ensures { result ≡ get_or (0 ∷ ends.now) i 0 }
{
    let end = ends[i.saturating_sub(1)] as usize;
    unless_first(i, end)
}

// Writes the name at an index of a table, and then zeros to two words. A call for each name would cost a tenth of building.
#[inline(always)]
fn write_name(names: &VmdNameTable, index: usize, out: &mut [u8], to: usize)
    requires table { table_right (table_is names.now) ≡ true }
    requires named { each (name_check 15) (names_of (table_is names.now)) ≡ passes }
    requires inside { (index < length names.now.ends.now) × (to + 16 ≤ length out.old) }
    ensures { out.new ≡ splice out.old to (padded 16 (get_or (names_of (table_is names.now)) index [])) }
{
    let start = name_start(names.ends, index);
    let n = names.ends[index] as usize - start;
    write_table_name(names.bytes, start, n, out, to);
}

// Writes floats one after another.
fn write_floats(xs: &[f32], out: &mut [u8], to: usize)
    requires { (to + length xs.now * 4 ≤ length out.old) × (all_finite (bits xs.now) ≡ true) }
    ensures { out.new ≡ splice out.old to (write_all u32_bytes (bits xs.now)) }
{
    for (i, x) in xs.iter().enumerate() {
        let bits = vmd_bytes::float_to_bits(*x);
        vmd_bytes::write_u32_le(out, to + i * FLOAT_SIZE, bits);
    }
}

// The fields of the bone at an index. The frame is written over the last byte of the name's words.
fn write_bone_frame(
    names: &VmdNameTable,
    bones: &VmdBoneColumns,
    i: usize,
    out: &mut [u8],
    to: usize,
)
    requires fit { BonesFit (table_is names.now) bones.now.name_indices.now bones.now.frames.now (bits bones.now.translations_xyz.now) (bits bones.now.rotations_xyzw.now) bones.now.interpolations.now }
    requires inside { (i < length bones.now.name_indices.now) × (to + 111 ≤ length out.old) }
    ensures { out.new ≡ splice out.old to (bone.encode (bone_of (table_is names.now)
        bones.now.name_indices.now bones.now.frames.now (bits bones.now.translations_xyz.now) (bits bones.now.rotations_xyzw.now) bones.now.interpolations.now i)) }
{
    let name = bones.name_indices[i] as usize;
    // The name first: what is read before it would wait on the stack meanwhile.
    write_name(names, name, out, to);
    let frame = bones.frames[i];
    let translation = &bones.translations_xyz[3 * i..3 * i + 3];
    let rotation = &bones.rotations_xyzw[4 * i..4 * i + 4];
    vmd_bytes::write_u32_le(out, to + VmdParsedBoneFrame::FRAME_OFFSET, frame);
    write_floats(
        translation,
        out,
        to + VmdParsedBoneFrame::TRANSLATION_OFFSET,
    );
    write_floats(rotation, out, to + VmdParsedBoneFrame::ROTATION_OFFSET);
    vmd_bytes::copy_interpolation(
        bones.interpolations,
        INTERPOLATION_SIZE * i,
        out,
        to + VmdParsedBoneFrame::INTERPOLATION_OFFSET,
    );
}

// The fields of the morph at an index.
fn write_morph_frame(
    names: &VmdNameTable,
    morphs: &VmdMorphColumns,
    i: usize,
    out: &mut [u8],
    to: usize,
)
    requires fit { MorphsFit (table_is names.now) morphs.now.name_indices.now morphs.now.frames.now (bits morphs.now.weights.now) }
    requires inside { (i < length morphs.now.name_indices.now) × (to + 23 ≤ length out.old) }
    ensures { out.new ≡ splice out.old to (morph.encode (morph_of (table_is names.now)
        morphs.now.name_indices.now morphs.now.frames.now (bits morphs.now.weights.now) i)) }
{
    let name = morphs.name_indices[i] as usize;
    let frame = morphs.frames[i];
    let weight = morphs.weights[i];
    write_name(names, name, out, to);
    vmd_bytes::write_u32_le(out, to + VmdParsedMorphFrame::FRAME_OFFSET, frame);
    let bits = vmd_bytes::float_to_bits(weight);
    vmd_bytes::write_u32_le(out, to + VmdParsedMorphFrame::WEIGHT_OFFSET, bits);
}

// The bones from their columns. The result is the place after them.
pub fn write_bone_frames(
    names: &VmdNameTable,
    bones: &VmdBoneColumns,
    out: &mut [u8],
    to: usize,
) -> usize
    requires { BonesFit (table_is names.now) bones.now.name_indices.now bones.now.frames.now (bits bones.now.translations_xyz.now) (bits bones.now.rotations_xyzw.now) bones.now.interpolations.now
        × Room out.old to (write_all bone.encode (map (bone_of (table_is names.now)
        bones.now.name_indices.now bones.now.frames.now (bits bones.now.translations_xyz.now) (bits bones.now.rotations_xyzw.now) bones.now.interpolations.now) (upto 0 (length bones.now.name_indices.now)))) }
    ensures { Wrote out.old to (write_all bone.encode (map (bone_of (table_is names.now)
        bones.now.name_indices.now bones.now.frames.now (bits bones.now.translations_xyz.now) (bits bones.now.rotations_xyzw.now) bones.now.interpolations.now) (upto 0 (length bones.now.name_indices.now)))) out.new result }
{
    let mut q = to;
    for i in 0..bones.len() {
        write_bone_frame(names, bones, i, out, q);
        q += BONE_SIZE;
    }
    q
}

// The morphs from their columns. A loop of its own: a generic one would take the writer of a record as a closure over out, and
// be longer than both loops.
pub fn write_morph_frames(
    names: &VmdNameTable,
    morphs: &VmdMorphColumns,
    out: &mut [u8],
    to: usize,
) -> usize
    requires { MorphsFit (table_is names.now) morphs.now.name_indices.now morphs.now.frames.now (bits morphs.now.weights.now)
        × Room out.old to (write_all morph.encode (map (morph_of (table_is names.now)
        morphs.now.name_indices.now morphs.now.frames.now (bits morphs.now.weights.now)) (upto 0 (length morphs.now.name_indices.now)))) }
    ensures { Wrote out.old to (write_all morph.encode (map (morph_of (table_is names.now)
        morphs.now.name_indices.now morphs.now.frames.now (bits morphs.now.weights.now)) (upto 0 (length morphs.now.name_indices.now)))) out.new result }
{
    let mut q = to;
    for i in 0..morphs.len() {
        write_morph_frame(names, morphs, i, out, q);
        q += MORPH_SIZE;
    }
    q
}
