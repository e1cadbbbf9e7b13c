// The slots of the library for C: what the calls' answers put into them, and the openings and seasons that they say
// (internal). Every function states what it returns and leaves by equations with definitions.
#![tactic(auto)]

ghost use Rattle.std.specs.Prelude.{◌≡◌, [], ◌∷◌};
ghost use Rattle.vmd_format.specs.Bytes.{flag_byte};
ghost use Rattle.vmd_base.specs.Meaning.{answer, answer_of};
ghost use Rattle.vmd_reader.specs.Meaning.{opening_is};
ghost use Rattle.vmd_split.specs.Meaning.{sizes_are};
ghost use Rattle.vmd_tidy.specs.Meaning.{counts_are, report_is};
ghost use Rattle.vmd_season.specs.Meaning.{season_is, mean_is};
ghost use Rattle.vmd_canonical.specs.Meaning.{change_is};
ghost use Rattle.vmd_slots.specs.Meaning.{status, slot_after, scan_at, bone_slot, morph_slot, camera_slot, light_slot, self_shadow_slot, property_slot, part_words, size_words, count_words, change_words, season_counts, season_figures, season_at, mean_words};

use vmd_base::{VmdCounts, VmdPart, VmdRefusal, VmdSection};
use vmd_reader::VmdOpening;
use vmd_records::{
    VmdParsedBoneFrame, VmdParsedCameraFrame, VmdParsedIkState, VmdParsedLightBits,
    VmdParsedMorphFrame, VmdParsedPropertyFrame, VmdParsedSelfShadowFrame,
};
use vmd_scan::VmdSections;
use vmd_season::{VmdMean, VmdSeason, VmdSectionFigures};
use vmd_split::VmdTableSizes;
use vmd_tidy::VmdTidied;

// ---- opening

// The opening that counts and places say. The calls for records need neither the number of IK states nor the frames.
pub fn opening_of(counts: &[u32; 6], places: &[u64; 6]) -> VmdOpening
    ensures { (opening_is result).scan ≡ scan_at counts.now places.now }
{
    VmdOpening {
        sections: VmdSections {
            bones: VmdSection {
                count: counts[0],
                place: places[0] as usize,
            },
            morphs: VmdSection {
                count: counts[1],
                place: places[1] as usize,
            },
            cameras: VmdSection {
                count: counts[2],
                place: places[2] as usize,
            },
            lights: VmdSection {
                count: counts[3],
                place: places[3] as usize,
            },
            self_shadows: VmdSection {
                count: counts[4],
                place: places[4] as usize,
            },
            properties: VmdSection {
                count: counts[5],
                place: places[5] as usize,
            },
            ik_states: 0,
        },
        min_frame: 0,
        max_frame: 0,
    }
}

// ---- what a value is in a slot

// A number, or numbers in the order of include/vmd.h. No From: what `report` promises names `held`, a ghost of the trait.
pub trait VmdSlot<S> {
    ghost held: { Self → S };

    fn slot(self) -> S
        ensures { result ≡ held self };
}

// Hands over an answer: the status is the result, and the slot receives what the value is there.
pub fn report<S: Copy, T: VmdSlot<S>>(answer: Result<T, VmdRefusal>, slot: &mut S) -> u32
    ensures value { result ≡ status (answer_of answer) }
    ensures slot_left { slot.new ≡ slot_after slot.old T.held (answer_of answer) }
{
    match answer {
        Err(k) => k.number(),
        Ok(x) => {
            *slot = x.slot();
            0
        }
    }
}

impl VmdSlot<[u32; 8]> for VmdParsedBoneFrame {
    ghost held = { bone_slot };

    fn slot(self) -> [u32; 8] {
        [
            self.frame,
            self.translation_x,
            self.translation_y,
            self.translation_z,
            self.rotation_x,
            self.rotation_y,
            self.rotation_z,
            self.rotation_w,
        ]
    }
}

impl VmdSlot<[u32; 2]> for VmdParsedMorphFrame {
    ghost held = { morph_slot };

    fn slot(self) -> [u32; 2] {
        [self.frame, self.weight]
    }
}

impl VmdSlot<[u32; 10]> for VmdParsedCameraFrame {
    ghost held = { camera_slot };

    fn slot(self) -> [u32; 10] {
        [
            self.frame,
            self.distance,
            self.position_x,
            self.position_y,
            self.position_z,
            self.rotation_x,
            self.rotation_y,
            self.rotation_z,
            self.fov,
            u32::from(self.perspective),
        ]
    }
}

impl VmdSlot<[u32; 7]> for VmdParsedLightBits {
    ghost held = { light_slot };

    fn slot(self) -> [u32; 7] {
        [
            self.frame,
            self.color_r,
            self.color_g,
            self.color_b,
            self.direction_x,
            self.direction_y,
            self.direction_z,
        ]
    }
}

impl VmdSlot<[u32; 3]> for VmdParsedSelfShadowFrame {
    ghost held = { self_shadow_slot };

    fn slot(self) -> [u32; 3] {
        [self.frame, u32::from(self.mode), self.distance]
    }
}

impl VmdSlot<[u32; 3]> for VmdParsedPropertyFrame {
    ghost held = { property_slot };

    fn slot(self) -> [u32; 3] {
        [self.frame, u32::from(self.visible), self.ik_count]
    }
}

impl VmdSlot<u32> for VmdParsedIkState {
    ghost held = { λ x. flag_byte x.enabled };

    fn slot(self) -> u32 {
        u32::from(self.enabled)
    }
}

impl VmdSlot<[u64; 2]> for VmdPart {
    ghost held = { part_words };

    fn slot(self) -> [u64; 2] {
        [self.at as u64, self.len as u64]
    }
}

impl VmdSlot<u64> for u64 {
    ghost held = { λ n. n };

    fn slot(self) -> u64 {
        self
    }
}

// The six numbers of a section each.
impl VmdSlot<[u32; 6]> for VmdCounts {
    ghost held = { λ k. count_words (counts_are k) };

    #[tactic(auto, unfolding(crate::specs::Meaning::count_words))]
    fn slot(self) -> [u32; 6] {
        [
            self.bones,
            self.morphs,
            self.cameras,
            self.lights,
            self.self_shadows,
            self.properties,
        ]
    }
}

impl VmdSlot<[u64; 4]> for VmdTableSizes {
    ghost held = { λ t. size_words (sizes_are t) };

    #[tactic(auto, unfolding(crate::specs::Meaning::size_words))]
    fn slot(self) -> [u64; 4] {
        [
            self.bone_names,
            self.bone_name_bytes,
            self.morph_names,
            self.morph_name_bytes,
        ]
    }
}

// Whether a take is canonical.
impl VmdSlot<u32> for bool {
    ghost held = { flag_byte };

    fn slot(self) -> u32 {
        u32::from(self)
    }
}

// What saving would touch first.
impl VmdSlot<[u64; 2]> for Option<u64> {
    ghost held = { λ x. change_words (change_is x) };

    fn slot(self) -> [u64; 2] {
        match self {
            Some(n) => [1, n],
            None => [0, 0],
        }
    }
}

impl VmdSlot<[u64; 2]> for VmdMean {
    ghost held = { λ m. mean_words (mean_is m) };

    #[tactic(auto, unfolding(crate::specs::Meaning::mean_words))]
    fn slot(self) -> [u64; 2] {
        [self.quotient, self.remainder]
    }
}

// ---- saving and joining

// Hands over what a call that writes answers: the slot receives the length. It is `report`, under a name that the must-fail edit
// written_length_not_reported changes.
pub fn report_written(answer: Result<u64, VmdRefusal>, slot: &mut u64) -> u32
    ensures value { result ≡ status (answer_of answer) }
    ensures slot_left { slot.new ≡ slot_after slot.old (λ n. n) (answer_of answer) }
{
    report(answer, slot)
}

// ---- tidying

// Hands over what tidying answers: the status is the result, and the slots receive the length and both numbers of each section.
pub fn report_tidied(
    tidied: Result<VmdTidied, VmdRefusal>,
    bytes: &mut u64,
    kept: &mut [u32; 6],
    dropped: &mut [u32; 6],
) -> u32
    ensures { (result ≡ status (answer report_is tidied))
        × (bytes.new ≡ slot_after bytes.old (λ t. t.bytes) (answer report_is tidied))
        × (kept.new ≡ slot_after kept.old (λ t. count_words t.kept) (answer report_is tidied))
        × (dropped.new ≡ slot_after dropped.old (λ t. count_words t.dropped) (answer report_is tidied)) }
{
    match tidied {
        Err(k) => k.number(),
        Ok(t) => {
            *bytes = t.bytes;
            *kept = t.kept.slot();
            *dropped = t.dropped.slot();
            0
        }
    }
}

// ---- season figures

// The season that counts and figures say.
pub fn season_of(counts: &[u32; 12], figures: &[u64; 11]) -> VmdSeason
    ensures { season_is result ≡ season_at counts.now figures.now }
{
    VmdSeason {
        bones: VmdSectionFigures {
            total: figures[0],
            smallest: counts[0],
            largest: counts[6],
        },
        morphs: VmdSectionFigures {
            total: figures[1],
            smallest: counts[1],
            largest: counts[7],
        },
        cameras: VmdSectionFigures {
            total: figures[2],
            smallest: counts[2],
            largest: counts[8],
        },
        lights: VmdSectionFigures {
            total: figures[3],
            smallest: counts[3],
            largest: counts[9],
        },
        self_shadows: VmdSectionFigures {
            total: figures[4],
            smallest: counts[4],
            largest: counts[10],
        },
        properties: VmdSectionFigures {
            total: figures[5],
            smallest: counts[5],
            largest: counts[11],
        },
        records: figures[6],
        bone_names: figures[7],
        morph_names: figures[8],
        accepted: figures[9],
        refused: figures[10],
    }
}

pub fn report_season(z: VmdSeason, counts: &mut [u32; 12], figures: &mut [u64; 11])
    ensures { (counts.new ≡ season_counts (season_is z)) × (figures.new ≡ season_figures (season_is z)) }
{
    *counts = [
        z.bones.smallest,
        z.morphs.smallest,
        z.cameras.smallest,
        z.lights.smallest,
        z.self_shadows.smallest,
        z.properties.smallest,
        z.bones.largest,
        z.morphs.largest,
        z.cameras.largest,
        z.lights.largest,
        z.self_shadows.largest,
        z.properties.largest,
    ];
    *figures = [
        z.bones.total,
        z.morphs.total,
        z.cameras.total,
        z.lights.total,
        z.self_shadows.total,
        z.properties.total,
        z.records,
        z.bone_names,
        z.morph_names,
        z.accepted,
        z.refused,
    ];
}
