// The frames of a file whose sections are found: the smallest and the largest, in one pass, and the places of property frames
// for a scratch. Internal: callers see to it that the sections lie in the file.
#![tactic(auto)]

ghost use Rattle.std.specs.Prelude.{◌≡◌, ◌++◌, ◌+◌, ◌≤◌, length, drop};
ghost use Rattle.vmd_format.specs.Opening.{places_needed};
ghost use Rattle.vmd_laws.specs.Places.{frame_end, sixteenth_places, scan_frames, Reaches};
ghost use Rattle.vmd_laws.specs.ScanLaws.{ExtentWithin, Inside};
ghost use Rattle.vmd_base.specs.Meaning.{extent_is};
ghost use Rattle.vmd_records.specs.Kinds.{size_of};
ghost use Rattle.vmd_scan.specs.Meaning.{scan_is};
ghost use Rattle.vmd_frames.specs.Frames.{no_frames, with_frame, with_frames, with_records, with_properties, frames_of};

use vmd_base::{FRAMES_PER_PLACE, VmdSection};
use vmd_records::VmdKind;
use vmd_scan::VmdSections;

// ---- places of property frames

// Where n property frames from a place on end.
fn frame_end(file: &[u8], place: usize, n: usize) -> usize
    requires { Reaches file.now n place }
    ensures { result ≡ frame_end file.now n place }
{
    let mut at = place;
    for _ in 0..n {
        at = vmd_scan::next_property_frame(file, at);
    }
    at
}

// The places that the property frames of a section need in scratch: a sixteenth of their number, rounded up.
#[tactic(auto, unfolding(vmd_format::specs::Opening::places_needed))]
pub fn places_needed(count: u32) -> usize
    ensures { result ≡ places_needed count }
{
    (count as usize).div_ceil(FRAMES_PER_PLACE)
}

// The position of every sixteenth property frame, into the first places of scratch.
pub fn write_frame_places(file: &[u8], section: VmdSection, scratch: &mut [u64])
    requires { (places_needed section.count ≤ length scratch.old) × (Reaches file.now section.count section.place) }
    ensures { scratch.new ≡ sixteenth_places file.now (places_needed section.count) section.place ++ drop (places_needed section.count) scratch.old }
{
    let n = places_needed(section.count);
    let mut left = section.count;
    let mut at = section.place;
    for j in 0..n {
        scratch[j] = at as u64;
        let walked = left.min(FRAMES_PER_PLACE as u32);
        at = frame_end(file, at, walked as usize);
        left -= walked;
    }
}

// ---- frames

// The smallest and the largest frame of a file, or of what a pass has seen of it: handed on from record to record and from
// section to section.
#[derive(Clone, Copy, Debug, PartialEq, Eq)]
pub struct VmdFrames {
    pub smallest: u32,
    pub largest: u32,
}

impl VmdFrames {
    // Before any frame: no frame is above the first or below the second. No Option: it is what min and max begin from, and the
    // definition `no_frames` has it so.
    fn none() -> VmdFrames
        ensures { result ≡ no_frames }
    {
        VmdFrames {
            smallest: u32::MAX,
            largest: 0,
        }
    }

    fn with_frame(self, frame: u32) -> VmdFrames
        ensures { result ≡ with_frame self frame }
    {
        VmdFrames {
            smallest: self.smallest.min(frame),
            largest: self.largest.max(frame),
        }
    }
}

// The frames of a section's records, after others.
fn with_records(file: &[u8], kind: VmdKind, section: VmdSection, before: VmdFrames) -> VmdFrames
    requires { ExtentWithin (size_of kind) file.now (extent_is section) }
    ensures { result ≡ with_records kind file.now (extent_is section) before }
{
    let size = kind.size();
    let offset = kind.frame_offset();
    let mut frames = before;
    for i in 0..section.count as usize {
        let frame = vmd_bytes::read_u32_le(file, section.place + i * size + offset);
        frames = frames.with_frame(frame);
    }
    frames
}

// The property frames', after others.
fn with_properties(file: &[u8], section: VmdSection, before: VmdFrames) -> VmdFrames
    requires { Reaches file.now section.count section.place }
    ensures { result ≡ with_properties file.now (extent_is section) before }
{
    let mut frames = before;
    let mut at = section.place;
    for _ in 0..section.count {
        frames = frames.with_frame(vmd_bytes::read_u32_le(file, at));
        at = vmd_scan::next_property_frame(file, at);
    }
    frames
}

// The frames of a scanned file, in one pass over its sections.
fn all_frames(file: &[u8], sections: VmdSections) -> VmdFrames
    requires { Inside file.now (scan_is sections) }
    ensures { result ≡ with_frames no_frames (scan_frames file.now (scan_is sections)) }
{
    let bones = with_records(file, VmdKind::Bone, sections.bones, VmdFrames::none());
    let morphs = with_records(file, VmdKind::Morph, sections.morphs, bones);
    let cameras = with_records(file, VmdKind::Camera, sections.cameras, morphs);
    let lights = with_records(file, VmdKind::Light, sections.lights, cameras);
    let self_shadows = with_records(file, VmdKind::SelfShadow, sections.self_shadows, lights);
    with_properties(file, sections.properties, self_shadows)
}

// The smallest and the largest frame of a scanned file. Whether there are any is told by the counts: a frame may be the
// largest number there is.
pub fn frames_of(file: &[u8], sections: VmdSections) -> VmdFrames
    requires { Inside file.now (scan_is sections) }
    ensures { result ≡ frames_of file.now (scan_is sections) }
{
    let records = sections.counts().records();
    if records == 0 {
        return VmdFrames {
            smallest: 0,
            largest: 0,
        };
    }
    all_frames(file, sections)
}
