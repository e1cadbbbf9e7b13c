// The records of a file as values, each with its size and a constructor from its bytes. A float is its 32 bits, but for the
// light with six floats. Names and interpolation bytes are parts of the file, and not here.
#![tactic(auto)]

ghost use Rattle.std.specs.Prelude.{◌≡◌, refl, ◌≤◌, ℕ, get_or, drop};
ghost use Rattle.std.proofs.lemmas.Bool.{leb-true};
ghost use Rattle.std.specs.Float.{binary32};
ghost use Rattle.std.specs.Float.Ieee.{of_bits};
ghost use Rattle.vmd_format.specs.Bytes.{u32};
ghost use Rattle.vmd_format.specs.Layout.{Layout};
ghost use Rattle.vmd_format.specs.Records.{Bone, Morph, Camera, Light, SelfShadow, IkState, bone, morph, camera, light, self_shadow, ik_state};
ghost use Rattle.vmd_format.specs.Fetch.{PropertyHead};
ghost use Rattle.vmd_laws.specs.SizedLaws.{Sized, bone_sized, morph_sized, camera_sized, light_sized, self_shadow_sized, ik_state_sized};
ghost use Rattle.vmd_records.specs.Kinds.{size_of, frame_at};
ghost use Rattle.vmd_records.specs.PropertyRow.{property_row};
ghost use Rattle.vmd_records.specs.RowLaws.{property_sized};
ghost use Rattle.vmd_records.specs.Fields.{bone_fields, morph_fields, camera_fields, light_floats, light_bits, self_shadow_fields, property_fields, ik_fields};

// ---- fields

// The byte at `at`; 0 where there is none, as `decode` of the layouts has it, by which from_bytes promises.
fn byte_at(bytes: &[u8], at: usize) -> u8
    ensures { result ≡ get_or bytes.now at 0 }
{
    bytes.get(at).copied().unwrap_or(0)
}

// The number in the four bytes from `at` on, an offset in a record; a missing byte counts as 0.
fn number_at(bytes: &[u8], at: usize) -> u32
    requires { at ≤ 1000 }
    ensures { result ≡ u32 (drop at bytes.now) }
{
    if at + 4 <= bytes.len() {
        return vmd_bytes::read_u32_le(bytes, at);
    }
    u32::from_le_bytes([
        byte_at(bytes, at),
        byte_at(bytes, at + 1),
        byte_at(bytes, at + 2),
        byte_at(bytes, at + 3),
    ])
}

// The float whose bits are there.
fn float_at(bytes: &[u8], at: usize) -> f32
    requires { at ≤ 1000 }
    ensures { result ≡ of_bits binary32 (u32 (drop at bytes.now)) }
{
    vmd_bytes::float_from_bits(number_at(bytes, at))
}

// ---- records

// A kind of record: its size in a file, its layout, and what a value of the type holds of a record that the layout reads.
pub trait VmdRecord {
    const SIZE: usize;

    ghost SIZE: { ℕ };

    ghost Row: { Type 0 };

    ghost layout: { Layout Row };

    ghost fields: { Row → Self };

    fn from_bytes(bytes: &[u8]) -> Self
        ensures { result ≡ fields (layout.decode bytes.now) };

    ghost sized: { Sized layout SIZE };

    // The largest is a bone.
    ghost size_bound: { SIZE ≤ 111 };
}

#[derive(Clone, Copy, Debug, PartialEq, Eq)]
pub struct VmdParsedBoneFrame {
    pub frame: u32,
    pub translation_x: u32,
    pub translation_y: u32,
    pub translation_z: u32,
    pub rotation_x: u32,
    pub rotation_y: u32,
    pub rotation_z: u32,
    pub rotation_w: u32,
}

impl VmdParsedBoneFrame {
    pub const NAME_WIDTH: usize = 15;

    pub const FRAME_OFFSET: usize = 15;

    pub const TRANSLATION_OFFSET: usize = 19;

    pub const ROTATION_OFFSET: usize = 31;

    pub const INTERPOLATION_OFFSET: usize = 47;

    pub const INTERPOLATION_SIZE: usize = 64;
}

impl VmdRecord for VmdParsedBoneFrame {
    const SIZE: usize = 111;

    ghost SIZE = { 111 };

    ghost Row = { Bone };

    ghost layout = { bone };

    ghost fields = { bone_fields };

    fn from_bytes(bytes: &[u8]) -> VmdParsedBoneFrame {
        VmdParsedBoneFrame {
            frame: number_at(bytes, VmdParsedBoneFrame::FRAME_OFFSET),
            translation_x: number_at(bytes, VmdParsedBoneFrame::TRANSLATION_OFFSET),
            translation_y: number_at(bytes, 23),
            translation_z: number_at(bytes, 27),
            rotation_x: number_at(bytes, VmdParsedBoneFrame::ROTATION_OFFSET),
            rotation_y: number_at(bytes, 35),
            rotation_z: number_at(bytes, 39),
            rotation_w: number_at(bytes, 43),
        }
    }

    ghost sized = { bone_sized };

    ghost size_bound = { leb-true 111 111 refl };
}

#[derive(Clone, Copy, Debug, PartialEq, Eq)]
pub struct VmdParsedMorphFrame {
    pub frame: u32,
    pub weight: u32,
}

impl VmdParsedMorphFrame {
    pub const NAME_WIDTH: usize = 15;

    pub const FRAME_OFFSET: usize = 15;

    pub const WEIGHT_OFFSET: usize = 19;
}

impl VmdRecord for VmdParsedMorphFrame {
    const SIZE: usize = 23;

    ghost SIZE = { 23 };

    ghost Row = { Morph };

    ghost layout = { morph };

    ghost fields = { morph_fields };

    fn from_bytes(bytes: &[u8]) -> VmdParsedMorphFrame {
        VmdParsedMorphFrame {
            frame: number_at(bytes, VmdParsedMorphFrame::FRAME_OFFSET),
            weight: number_at(bytes, VmdParsedMorphFrame::WEIGHT_OFFSET),
        }
    }

    ghost sized = { morph_sized };

    ghost size_bound = { leb-true 23 111 refl };
}

#[derive(Clone, Copy, Debug, PartialEq, Eq)]
pub struct VmdParsedCameraFrame {
    pub frame: u32,
    pub distance: u32,
    pub position_x: u32,
    pub position_y: u32,
    pub position_z: u32,
    pub rotation_x: u32,
    pub rotation_y: u32,
    pub rotation_z: u32,
    pub fov: u32,
    pub perspective: bool,
}

impl VmdParsedCameraFrame {
    pub const FRAME_OFFSET: usize = 0;

    pub const INTERPOLATION_OFFSET: usize = 32;

    pub const FOV_OFFSET: usize = 56;

    pub const PERSPECTIVE_OFFSET: usize = 60;
}

impl VmdRecord for VmdParsedCameraFrame {
    const SIZE: usize = 61;

    ghost SIZE = { 61 };

    ghost Row = { Camera };

    ghost layout = { camera };

    ghost fields = { camera_fields };

    fn from_bytes(bytes: &[u8]) -> VmdParsedCameraFrame {
        VmdParsedCameraFrame {
            frame: number_at(bytes, 0),
            distance: number_at(bytes, 4),
            position_x: number_at(bytes, 8),
            position_y: number_at(bytes, 12),
            position_z: number_at(bytes, 16),
            rotation_x: number_at(bytes, 20),
            rotation_y: number_at(bytes, 24),
            rotation_z: number_at(bytes, 28),
            fov: number_at(bytes, VmdParsedCameraFrame::FOV_OFFSET),
            perspective: vmd_bytes::inverted_of(byte_at(
                bytes,
                VmdParsedCameraFrame::PERSPECTIVE_OFFSET,
            )),
        }
    }

    ghost sized = { camera_sized };

    ghost size_bound = { leb-true 61 111 refl };
}

#[derive(Clone, Copy, Debug, PartialEq)]
pub struct VmdParsedLightFrame {
    pub frame: u32,
    pub color_r: f32,
    pub color_g: f32,
    pub color_b: f32,
    pub direction_x: f32,
    pub direction_y: f32,
    pub direction_z: f32,
}

impl VmdParsedLightFrame {
    pub const FRAME_OFFSET: usize = 0;
}

impl VmdRecord for VmdParsedLightFrame {
    const SIZE: usize = 28;

    ghost SIZE = { 28 };

    ghost Row = { Light };

    ghost layout = { light };

    ghost fields = { light_floats };

    fn from_bytes(bytes: &[u8]) -> VmdParsedLightFrame {
        VmdParsedLightFrame {
            frame: number_at(bytes, 0),
            color_r: float_at(bytes, 4),
            color_g: float_at(bytes, 8),
            color_b: float_at(bytes, 12),
            direction_x: float_at(bytes, 16),
            direction_y: float_at(bytes, 20),
            direction_z: float_at(bytes, 24),
        }
    }

    ghost sized = { light_sized };

    ghost size_bound = { leb-true 28 111 refl };
}

// A light by its exact bits: a float has one NaN, its bits have many.
#[derive(Clone, Copy, Debug, PartialEq, Eq)]
pub struct VmdParsedLightBits {
    pub frame: u32,
    pub color_r: u32,
    pub color_g: u32,
    pub color_b: u32,
    pub direction_x: u32,
    pub direction_y: u32,
    pub direction_z: u32,
}

impl VmdRecord for VmdParsedLightBits {
    const SIZE: usize = VmdParsedLightFrame::SIZE;

    ghost SIZE = { 28 };

    ghost Row = { Light };

    ghost layout = { light };

    ghost fields = { light_bits };

    fn from_bytes(bytes: &[u8]) -> VmdParsedLightBits {
        VmdParsedLightBits {
            frame: number_at(bytes, 0),
            color_r: number_at(bytes, 4),
            color_g: number_at(bytes, 8),
            color_b: number_at(bytes, 12),
            direction_x: number_at(bytes, 16),
            direction_y: number_at(bytes, 20),
            direction_z: number_at(bytes, 24),
        }
    }

    ghost sized = { light_sized };

    ghost size_bound = { leb-true 28 111 refl };
}

#[derive(Clone, Copy, Debug, PartialEq, Eq)]
pub struct VmdParsedSelfShadowFrame {
    pub frame: u32,
    pub mode: u8,
    pub distance: u32,
}

impl VmdParsedSelfShadowFrame {
    pub const FRAME_OFFSET: usize = 0;
}

impl VmdRecord for VmdParsedSelfShadowFrame {
    const SIZE: usize = 9;

    ghost SIZE = { 9 };

    ghost Row = { SelfShadow };

    ghost layout = { self_shadow };

    ghost fields = { self_shadow_fields };

    fn from_bytes(bytes: &[u8]) -> VmdParsedSelfShadowFrame {
        VmdParsedSelfShadowFrame {
            frame: number_at(bytes, 0),
            mode: byte_at(bytes, 4),
            distance: number_at(bytes, 5),
        }
    }

    ghost sized = { self_shadow_sized };

    ghost size_bound = { leb-true 9 111 refl };
}

// A property frame without its IK states, which stand after its SIZE bytes.
#[derive(Clone, Copy, Debug, PartialEq, Eq)]
pub struct VmdParsedPropertyFrame {
    pub frame: u32,
    pub visible: bool,
    pub ik_count: u32,
}

impl VmdParsedPropertyFrame {
    pub const VISIBLE_OFFSET: usize = 4;

    pub const IK_COUNT_OFFSET: usize = 5;
}

impl VmdRecord for VmdParsedPropertyFrame {
    const SIZE: usize = 9;

    ghost SIZE = { 9 };

    ghost Row = { PropertyHead };

    ghost layout = { property_row };

    ghost fields = { property_fields };

    fn from_bytes(bytes: &[u8]) -> VmdParsedPropertyFrame {
        VmdParsedPropertyFrame {
            frame: number_at(bytes, 0),
            visible: vmd_bytes::flag_of(byte_at(bytes, VmdParsedPropertyFrame::VISIBLE_OFFSET)),
            ik_count: number_at(bytes, VmdParsedPropertyFrame::IK_COUNT_OFFSET),
        }
    }

    ghost sized = { property_sized };

    ghost size_bound = { leb-true 9 111 refl };
}

#[derive(Clone, Copy, Debug, PartialEq, Eq)]
pub struct VmdParsedIkState {
    pub enabled: bool,
}

impl VmdParsedIkState {
    pub const NAME_WIDTH: usize = 20;

    pub const ENABLED_OFFSET: usize = 20;
}

impl VmdRecord for VmdParsedIkState {
    const SIZE: usize = 21;

    ghost SIZE = { 21 };

    ghost Row = { IkState };

    ghost layout = { ik_state };

    ghost fields = { ik_fields };

    fn from_bytes(bytes: &[u8]) -> VmdParsedIkState {
        VmdParsedIkState {
            enabled: vmd_bytes::flag_of(byte_at(bytes, VmdParsedIkState::ENABLED_OFFSET)),
        }
    }

    ghost sized = { ik_state_sized };

    ghost size_bound = { leb-true 21 111 refl };
}

// ---- kinds

// The kinds of records that have one size; property frames, with their IK states, have none.
#[derive(Clone, Copy, Debug, PartialEq, Eq)]
pub enum VmdKind {
    Bone,
    Morph,
    Camera,
    Light,
    SelfShadow,
}

impl VmdKind {
    pub fn size(self) -> usize
        ensures { result ≡ size_of self }
    {
        match self {
            VmdKind::Bone => VmdParsedBoneFrame::SIZE,
            VmdKind::Morph => VmdParsedMorphFrame::SIZE,
            VmdKind::Camera => VmdParsedCameraFrame::SIZE,
            VmdKind::Light => VmdParsedLightFrame::SIZE,
            VmdKind::SelfShadow => VmdParsedSelfShadowFrame::SIZE,
        }
    }
    // Where a record has its frame.
    pub fn frame_offset(self) -> usize
        ensures { result ≡ frame_at self }
    {
        match self {
            VmdKind::Bone => VmdParsedBoneFrame::FRAME_OFFSET,
            VmdKind::Morph => VmdParsedMorphFrame::FRAME_OFFSET,
            VmdKind::Camera => VmdParsedCameraFrame::FRAME_OFFSET,
            VmdKind::Light => VmdParsedLightFrame::FRAME_OFFSET,
            VmdKind::SelfShadow => VmdParsedSelfShadowFrame::FRAME_OFFSET,
        }
    }
}
