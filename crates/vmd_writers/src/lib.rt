// The writers of records: each reads records of a file and writes their canonical bytes, names up to their first zero and then
// zeros, flags as 0 or 1, everything else as it is. Internal: callers see to the room. What writes records gives the place after
// them, where the next one goes on. `out` and `to` stand side by side as in vmd_output.
#![tactic(auto)]

ghost use Rattle.std.specs.Prelude.{◌≡◌, ℕ, ◌+◌, ◌-◌, ◌*◌, ◌≤◌, length, drop, take};
ghost use Rattle.vmd_format.specs.Records.{bone, morph, camera, ik_state};
ghost use Rattle.vmd_format.specs.Read.{table, write_all};
ghost use Rattle.vmd_laws.specs.Rewriting.{Rewrites};
ghost use Rattle.vmd_bytes.specs.Slices.{splice, run};
ghost use Rattle.vmd_bytes.specs.Written.{Room, Wrote};
ghost use Rattle.vmd_records.specs.Kinds.{layout, size_of};

use vmd_records::{
    VmdKind, VmdParsedBoneFrame, VmdParsedCameraFrame, VmdParsedIkState, VmdParsedMorphFrame,
    VmdRecord,
};

// The name of a bone or a morph with the byte after it, which is two words, and what a bone has after its name.
const NAME_WORDS: usize = 16;

const BONE_REST: usize = VmdParsedBoneFrame::SIZE - VmdParsedBoneFrame::NAME_WIDTH;

// ---- records one after another

// A record of one size that is written on its own, since some of its bytes change.
pub trait VmdWrite: VmdRecord {
    // Writes the record of src at `at` into out from `to` on.
    fn write_one(src: &[u8], at: usize, out: &mut [u8], to: usize)
        requires { (at + Self.SIZE ≤ length src.now) × (to + Self.SIZE ≤ length out.old) }
        ensures { out.new ≡ splice out.old to (Self.layout.encode (Self.layout.decode (drop at src.now))) };
}

// n records of one kind. The loop is compiled anew for each kind, with its size and its writer in place.
pub fn write_each<R: VmdWrite>(out: &mut [u8], to: usize, src: &[u8], at: usize, n: usize) -> usize
    requires { (at + n * R.SIZE ≤ length src.now) × Room out.old to (write_all R.layout.encode (table R.layout n (drop at src.now))) }
    ensures { Wrote out.old to (write_all R.layout.encode (table R.layout n (drop at src.now))) out.new result }
{
    // Running places: with at + i * R::SIZE property frames, whose IK states are few, took a fifth longer to write.
    let mut p = at;
    let mut q = to;
    for _ in 0..n {
        R::write_one(src, p, out, q);
        p += R::SIZE;
        q += R::SIZE;
    }
    q
}

// n records of a kind of which no byte changes: one copy.
fn copy_records(out: &mut [u8], to: usize, kind: VmdKind, src: &[u8], at: usize, n: usize) -> usize
    requires unchanged { Rewrites (layout kind) (size_of kind) (take (size_of kind)) }
    requires room { (at + n * size_of kind ≤ length src.now) × Room out.old to (write_all (layout kind).encode (table (layout kind) n (drop at src.now))) }
    ensures { Wrote out.old to (write_all (layout kind).encode (table (layout kind) n (drop at src.now))) out.new result }
{
    let size = n * kind.size();
    vmd_bytes::copy_bytes(src, at, out, to, size);
    to + size
}

// ---- bones

impl VmdWrite for VmdParsedBoneFrame {
    // The name is written by words, one byte too wide, and then the rest from that byte on.
    fn write_one(src: &[u8], at: usize, out: &mut [u8], to: usize) {
        vmd_bytes::write_name(src, at, out, to, NAME_WORDS);
        vmd_bytes::copy_bytes(
            src,
            at + VmdParsedBoneFrame::NAME_WIDTH,
            out,
            to + VmdParsedBoneFrame::NAME_WIDTH,
            BONE_REST,
        );
    }
}

// ---- morphs

impl VmdWrite for VmdParsedMorphFrame {
    fn write_one(src: &[u8], at: usize, out: &mut [u8], to: usize) {
        vmd_bytes::write_name(src, at, out, to, NAME_WORDS);
        vmd_bytes::copy_word(
            src,
            at + VmdParsedMorphFrame::NAME_WIDTH,
            out,
            to + VmdParsedMorphFrame::NAME_WIDTH,
        );
    }
}

// ---- cameras

// Copies what a camera has before its perspective byte, through a local array: no store comes before the last load, so that
// the copy goes by words and not by bytes.
fn copy_camera_front(src: &[u8], at: usize, out: &mut [u8], to: usize)
    requires { (at + 60 ≤ length src.now) × (to + 60 ≤ length out.old) }
    ensures { out.new ≡ splice out.old to (run src.now at 60) }
{
    let mut front = [0u8; VmdParsedCameraFrame::PERSPECTIVE_OFFSET];
    vmd_bytes::copy_bytes(
        src,
        at,
        &mut front,
        0,
        VmdParsedCameraFrame::PERSPECTIVE_OFFSET,
    );
    vmd_bytes::copy_bytes(&front, 0, out, to, VmdParsedCameraFrame::PERSPECTIVE_OFFSET);
}

impl VmdWrite for VmdParsedCameraFrame {
    fn write_one(src: &[u8], at: usize, out: &mut [u8], to: usize) {
        copy_camera_front(src, at, out, to);
        let read = src[at + VmdParsedCameraFrame::PERSPECTIVE_OFFSET];
        let flag = vmd_bytes::canonical_inverted(read);
        out[to + VmdParsedCameraFrame::PERSPECTIVE_OFFSET] = flag;
    }
}

// ---- IK states

impl VmdWrite for VmdParsedIkState {
    fn write_one(src: &[u8], at: usize, out: &mut [u8], to: usize) {
        vmd_bytes::write_name(src, at, out, to, VmdParsedIkState::NAME_WIDTH);
        let read = src[at + VmdParsedIkState::ENABLED_OFFSET];
        let flag = vmd_bytes::canonical_flag(read);
        out[to + VmdParsedIkState::ENABLED_OFFSET] = flag;
    }
}

// ---- a kind of record as a value: the kinds that have one size

// n records of a kind. The kind is looked at once, so that each has its own loop: the match picks a type, which no closure or
// table could. Inlined: where a caller names the kind, its loop alone is left, with the size in place.
#[inline(always)]
pub fn write_records(
    out: &mut [u8],
    to: usize,
    kind: VmdKind,
    src: &[u8],
    at: usize,
    n: usize,
) -> usize
    requires { (at + n * size_of kind ≤ length src.now) × Room out.old to (write_all (layout kind).encode (table (layout kind) n (drop at src.now))) }
    ensures { Wrote out.old to (write_all (layout kind).encode (table (layout kind) n (drop at src.now))) out.new result }
{
    match kind {
        VmdKind::Bone => write_each::<VmdParsedBoneFrame>(out, to, src, at, n),
        VmdKind::Morph => write_each::<VmdParsedMorphFrame>(out, to, src, at, n),
        VmdKind::Camera => write_each::<VmdParsedCameraFrame>(out, to, src, at, n),
        VmdKind::Light | VmdKind::SelfShadow => copy_records(out, to, kind, src, at, n),
    }
}

// One record of a kind.
pub fn write_record(out: &mut [u8], to: usize, kind: VmdKind, src: &[u8], at: usize) -> usize
    requires { (at + size_of kind ≤ length src.now) × Room out.old to ((layout kind).encode ((layout kind).decode (drop at src.now))) }
    ensures { Wrote out.old to ((layout kind).encode ((layout kind).decode (drop at src.now))) out.new result }
{
    write_records(out, to, kind, src, at, 1)
}
