// Figures over takes lent one after another. A season is a value that goes in and comes back with one take more. Public: the
// calls of VmdSeason ask nothing of their caller; any numbers in a season mean something.
#![tactic(auto)]

ghost use Rattle.std.specs.Prelude.{◌≡◌, map, ◌+◌, ◌*◌, ◌≤◌, length, is_some, IfSome};
ghost use Rattle.vmd_format.specs.Read.{lenient};
ghost use Rattle.vmd_laws.specs.ExportLaws.{take_in};
ghost use Rattle.vmd_keys.specs.Names.{names_in, registration_name, distinct};
ghost use Rattle.vmd_scan.specs.Meaning.{scan_is};
ghost use Rattle.vmd_season.specs.Season.{no_takes, figures_of, in_64_bits, take_fits, with_count, with_take, with_refused, taken_if, with_file, mean};
ghost use Rattle.vmd_season.specs.Meaning.{section_is, season_is, take_is, mean_is};

use vmd_base::{VmdCounts, VmdManner, VmdSection};
use vmd_keys::VmdCut;
use vmd_records::{VmdParsedBoneFrame, VmdParsedMorphFrame, VmdRecord};
use vmd_scan::scanned::VmdScanned;

// The records of a section over all takes, and the smallest and largest number of them in one.
#[derive(Clone, Copy, Debug, PartialEq, Eq)]
pub struct VmdSectionFigures {
    pub total: u64,
    pub smallest: u32,
    pub largest: u32,
}

#[derive(Clone, Copy, Debug, PartialEq, Eq)]
pub struct VmdSeason {
    pub bones: VmdSectionFigures,
    pub morphs: VmdSectionFigures,
    pub cameras: VmdSectionFigures,
    pub lights: VmdSectionFigures,
    pub self_shadows: VmdSectionFigures,
    pub properties: VmdSectionFigures,
    // Of all six sections: the mean's total.
    pub records: u64,
    // Each take's distinct names, up to the line feed, added up.
    pub bone_names: u64,
    pub morph_names: u64,
    // Takes.
    pub accepted: u64,
    pub refused: u64,
}

// Records per accepted take.
#[derive(Clone, Copy, Debug, PartialEq, Eq)]
pub struct VmdMean {
    pub quotient: u64,
    pub remainder: u64,
}

// What a take adds. Internal: no call takes or gives one.
#[derive(Clone, Copy, Debug, PartialEq, Eq)]
pub struct VmdTakeFigures {
    pub counts: VmdCounts,
    pub bone_names: u64,
    pub morph_names: u64,
}

// ---- what a take adds

// How many distinct names the records of a section have, up to the line feed.
fn count_tracks(file: &[u8], x: VmdSection, size: usize) -> u64
    requires { (x.place + size * x.count ≤ length file.now) × (16 ≤ size) }
    ensures { result ≡ length (distinct (map registration_name (names_in file.now x.place size x.count))) }
{
    vmd_count::count_names(file, x.place, size, x.count as usize, VmdCut::LineFeed).names
}

fn figures_of(take: &VmdScanned) -> VmdTakeFigures
    ensures { take_is result ≡ figures_of (take_in take.now.file.now (scan_is take.now.sections)) }
{
    let a = take.sections;
    let bone_names = count_tracks(take.file, a.bones, VmdParsedBoneFrame::SIZE);
    let morph_names = count_tracks(take.file, a.morphs, VmdParsedMorphFrame::SIZE);
    VmdTakeFigures {
        counts: a.counts(),
        bone_names,
        morph_names,
    }
}

// ---- one take more

impl VmdSectionFigures {
    // The figures with a take of n records more, where the total has room.
    fn with_count(self, first: bool, n: u32) -> Option<VmdSectionFigures>
        ensures fits { is_some result ≡ in_64_bits (self.total + n) }
        ensures counted { IfSome result (λ x. section_is x ≡ with_count first (section_is self) n) }
    {
        let total = self.total.checked_add(n as u64)?;
        if first {
            return Some(VmdSectionFigures {
                total,
                smallest: n,
                largest: n,
            });
        }
        Some(VmdSectionFigures {
            total,
            smallest: self.smallest.min(n),
            largest: self.largest.max(n),
        })
    }
}

impl VmdSeason {
    // The season with an accepted take more, where every figure has room.
    fn with_take(self, take: VmdTakeFigures) -> Option<VmdSeason>
        ensures fits { is_some result ≡ take_fits (season_is self) (take_is take) }
        ensures taken { IfSome result (λ z. season_is z ≡ with_take (season_is self) (take_is take)) }
    {
        let first = self.accepted == 0;
        let bones = self.bones.with_count(first, take.counts.bones)?;
        let morphs = self.morphs.with_count(first, take.counts.morphs)?;
        let cameras = self.cameras.with_count(first, take.counts.cameras)?;
        let lights = self.lights.with_count(first, take.counts.lights)?;
        let self_shadows = self
            .self_shadows
            .with_count(first, take.counts.self_shadows)?;
        let properties = self.properties.with_count(first, take.counts.properties)?;
        let records = self.records.checked_add(take.counts.records())?;
        let bone_names = self.bone_names.checked_add(take.bone_names)?;
        let morph_names = self.morph_names.checked_add(take.morph_names)?;
        let accepted = self.accepted.checked_add(1)?;
        Some(VmdSeason {
            bones,
            morphs,
            cameras,
            lights,
            self_shadows,
            properties,
            records,
            bone_names,
            morph_names,
            accepted,
            refused: self.refused,
        })
    }

    // The season with a refused take more: the number stops at its largest value.
    fn with_refused(self) -> VmdSeason
        ensures { season_is result ≡ with_refused (season_is self) }
    {
        VmdSeason {
            refused: self.refused.saturating_add(1),
            ..self
        }
    }

    fn taken_if_it_fits(self, take: VmdTakeFigures) -> VmdSeason
        ensures { season_is result ≡ taken_if (take_fits (season_is self) (take_is take)) (season_is self) (take_is take) }
    {
        match self.with_take(take) {
            Some(next) => next,
            None => self.with_refused(),
        }
    }
}

// ---- the calls

impl VmdSeason {
    // The figures of no takes. Zeros and no Option: the definition `no_takes` has them, and the slots for C.
    pub fn none() -> VmdSeason
        ensures { season_is result ≡ no_takes }
    {
        let none = VmdSectionFigures {
            total: 0,
            smallest: 0,
            largest: 0,
        };
        VmdSeason {
            bones: none,
            morphs: none,
            cameras: none,
            lights: none,
            self_shadows: none,
            properties: none,
            records: 0,
            bone_names: 0,
            morph_names: 0,
            accepted: 0,
            refused: 0,
        }
    }

    // The figures with one take more, which is read in the lenient manner (02 i).
    pub fn add(self, file: &[u8]) -> VmdSeason
        ensures { season_is result ≡ with_file lenient (season_is self) file.now }
    {
        match vmd_scan::scan_file(file, VmdManner::Lenient) {
            Ok(take) => self.taken_if_it_fits(figures_of(&take)),
            Err(_) => self.with_refused(),
        }
    }

    // The mean of all six sections' records per accepted take. Zeros where there is none, as the definition `mean` has it.
    pub fn mean(self) -> VmdMean
        ensures { mean_is result ≡ mean (season_is self) }
    {
        let takes = self.accepted;
        if takes == 0 {
            return VmdMean {
                quotient: 0,
                remainder: 0,
            };
        }
        VmdMean {
            quotient: self.records / takes,
            remainder: self.records % takes,
        }
    }
}
