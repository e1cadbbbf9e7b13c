// Finding the sections of a file by places: the cursor, the section counts and the property frames. Internal: callers see to
// the lengths where a contract asks it.
#![tactic(auto)]

ghost use Rattle.std.specs.Prelude.{◌≡◌, ◌+◌, ◌*◌, ◌-◌, ◌≤◌, leb, length, IfOk};
ghost use Rattle.vmd_format.specs.Fetch.{next_frame};
ghost use Rattle.vmd_laws.specs.Places.{no_span, over_span, span, optional_span, walk, over_if, scan_sections, scan_file};
ghost use Rattle.vmd_base.specs.Meaning.{answer, manner_of};
ghost use Rattle.vmd_scan.specs.Stages.{read_number, optional_number, counted_span, scan_front, scan_back, scan_joined, scan_end};
ghost use Rattle.vmd_scan.specs.Meaning.{oversized_of, over_of, scan_is, section_of, counts_in, number_is, optional_is, span_is, walk_is, front_is, back_is};

use property_frames::VmdPropertyFrames;
use records::VmdRecords;
use scanned::VmdScanned;
use vmd_base::{VmdCounts, VmdManner, VmdRefusal, VmdSection};
use vmd_records::{
    VmdKind, VmdParsedBoneFrame, VmdParsedCameraFrame, VmdParsedIkState, VmdParsedLightFrame,
    VmdParsedMorphFrame, VmdParsedPropertyFrame, VmdParsedSelfShadowFrame, VmdRecord,
};

pub mod property_frames;
pub mod records;
pub mod scanned;

// ---- types

#[derive(Clone, Copy, Debug, PartialEq, Eq)]
pub struct VmdSections {
    pub bones: VmdSection,
    pub morphs: VmdSection,
    pub cameras: VmdSection,
    pub lights: VmdSection,
    pub self_shadows: VmdSection,
    pub properties: VmdSection,
    pub ik_states: u64,
}

// The position of a reader. The bytes stand beside it, since with them inside each of its contracts would say besides that the
// next reader has the same: no plainer.
#[derive(Clone, Copy, Debug, PartialEq, Eq)]
pub struct ByteReader {
    pub pos: usize,
}

impl VmdSections {
    pub fn counts(self) -> VmdCounts
        ensures { result ≡ counts_in self }
    {
        VmdCounts {
            bones: self.bones.count,
            morphs: self.morphs.count,
            cameras: self.cameras.count,
            lights: self.lights.count,
            self_shadows: self.self_shadows.count,
            properties: self.properties.count,
        }
    }
}

// Where a walk over property frames ends, and their IK states.
#[derive(Clone, Copy, Debug, PartialEq, Eq)]
pub struct VmdWalk {
    pub next: usize,
    pub ik_states: u64,
}

// The first three sections, and the reader after them.
#[derive(Clone, Copy, Debug, PartialEq, Eq)]
struct FrontSections {
    bones: VmdSection,
    morphs: VmdSection,
    cameras: VmdSection,
    next: ByteReader,
}

// The last three sections.
#[derive(Clone, Copy, Debug, PartialEq, Eq)]
struct BackSections {
    lights: VmdSection,
    self_shadows: VmdSection,
    properties: VmdSection,
}

// ---- the manner of reading

// The refusal of an oversized camera, light or self-shadow count; with none it empties its section.
fn oversized_in(manner: VmdManner) -> Option<VmdRefusal>
    ensures { oversized_of result ≡ (manner_of manner).oversized }
{
    match manner {
        VmdManner::Strict => Some(VmdRefusal::CountOversized),
        VmdManner::Lenient => None,
    }
}

// The refusal of bytes after the last property frame; with none they are ignored.
fn over_in(manner: VmdManner) -> Option<VmdRefusal>
    ensures { over_of result ≡ (manner_of manner).over }
{
    match manner {
        VmdManner::Strict => Some(VmdRefusal::BytesOver),
        VmdManner::Lenient => None,
    }
}

// ---- the cursor

// A section of no records, and the reader at the end.
fn no_section(file: &[u8]) -> (VmdSection, ByteReader)
    ensures { span_is result ≡ no_span file.now }
{
    let end = file.len();
    let section = VmdSection {
        count: 0,
        place: end,
    };
    (section, ByteReader { pos: end })
}

fn oversized_section(
    file: &[u8],
    oversized: Option<VmdRefusal>,
) -> Result<(VmdSection, ByteReader), VmdRefusal>
    ensures { answer span_is result ≡ over_span (oversized_of oversized) file.now }
{
    match oversized {
        Some(k) => Err(k),
        None => Ok(no_section(file)),
    }
}

impl ByteReader {
    pub fn remaining(self, file: &[u8]) -> usize
        ensures { result ≡ length file.now - self.pos }
    {
        let pos = self.pos;
        if file.len() < pos {
            return 0;
        }
        file.len() - pos
    }

    // Whether so many records of this size are left.
    pub fn require_record_bytes(self, file: &[u8], count: u32, record_size: usize) -> bool
        requires { record_size ≤ 111 }
        ensures { result ≡ leb (count * record_size) (length file.now - self.pos) }
    {
        let bytes = (count as usize) * record_size;
        bytes <= self.remaining(file)
    }

    pub fn read_u32_le(self, file: &[u8]) -> Result<(u32, ByteReader), VmdRefusal>
        ensures { answer number_is result ≡ read_number file.now self.pos }
    {
        let pos = self.pos;
        if self.remaining(file) < 4 {
            return Err(VmdRefusal::FileEndsEarly);
        }
        let n = vmd_bytes::read_u32_le(file, pos);
        Ok((n, ByteReader { pos: pos + 4 }))
    }

    // The same where the file may have ended before the number.
    pub fn read_optional_u32_le(self, file: &[u8]) -> Result<Option<(u32, ByteReader)>, VmdRefusal>
        ensures { answer optional_is result ≡ optional_number file.now self.pos }
    {
        if self.remaining(file) == 0 {
            return Ok(None);
        }
        let number = self.read_u32_le(file)?;
        Ok(Some(number))
    }

    // The section whose count has just been read.
    fn counted_section(
        self,
        file: &[u8],
        count: u32,
        record_size: usize,
        oversized: Option<VmdRefusal>,
    ) -> Result<(VmdSection, ByteReader), VmdRefusal>
        requires { record_size ≤ 111 }
        ensures { answer span_is result ≡ counted_span (oversized_of oversized) record_size file.now (record { value = count; next = self.pos }) }
    {
        let place = self.pos;
        if self.require_record_bytes(file, count, record_size) {
            let bytes = (count as usize) * record_size;
            let next = ByteReader { pos: place + bytes };
            return Ok((VmdSection { count, place }, next));
        }
        oversized_section(file, oversized)
    }

    // A count and its records, which have to be there.
    pub fn read_record_count(
        self,
        file: &[u8],
        record_size: usize,
        oversized: Option<VmdRefusal>,
    ) -> Result<(VmdSection, ByteReader), VmdRefusal>
        requires { record_size ≤ 111 }
        ensures { answer span_is result ≡ span (oversized_of oversized) record_size file.now self.pos }
    {
        let (count, next) = self.read_u32_le(file)?;
        next.counted_section(file, count, record_size, oversized)
    }

    // The same where the file may have ended before the count.
    pub fn read_optional_record_count(
        self,
        file: &[u8],
        record_size: usize,
        oversized: Option<VmdRefusal>,
    ) -> Result<(VmdSection, ByteReader), VmdRefusal>
        requires { record_size ≤ 111 }
        ensures { answer span_is result ≡ optional_span (oversized_of oversized) record_size file.now self.pos }
    {
        let number = self.read_optional_u32_le(file)?;
        match number {
            Some((count, next)) => next.counted_section(file, count, record_size, oversized),
            None => Ok(no_section(file)),
        }
    }
}

// ---- property frames

// Over n property frames from a place on: where they end, and their IK states.
pub fn walk_property_frames(file: &[u8], place: usize, n: usize) -> Result<VmdWalk, VmdRefusal>
    requires { place ≤ length file.now }
    ensures { answer walk_is result ≡ walk file.now n place 0 }
{
    // What a frame that is not all there is refused with.
    let cut = Err(VmdRefusal::FileEndsEarly);
    let mut at = place;
    let mut ik_states: u64 = 0;
    for _ in 0..n {
        if file.len() - at < VmdParsedPropertyFrame::SIZE {
            return cut;
        }
        let count = vmd_bytes::read_u32_le(file, at + VmdParsedPropertyFrame::IK_COUNT_OFFSET);
        let bytes = (count as usize) * VmdParsedIkState::SIZE;
        if file.len() - at - VmdParsedPropertyFrame::SIZE < bytes {
            return cut;
        }
        ik_states += count as u64;
        at = at + VmdParsedPropertyFrame::SIZE + bytes;
    }
    Ok(VmdWalk {
        next: at,
        ik_states,
    })
}

// Where the property frame at a place ends, with its IK states.
pub fn next_property_frame(file: &[u8], at: usize) -> usize
    requires { next_frame file.now at ≤ length file.now }
    ensures { result ≡ next_frame file.now at }
{
    let count = vmd_bytes::read_u32_le(file, at + VmdParsedPropertyFrame::IK_COUNT_OFFSET);
    at + VmdParsedPropertyFrame::SIZE + (count as usize) * VmdParsedIkState::SIZE
}

// ---- the whole file

// Bones, morphs and cameras. The bone count has to be there.
fn scan_front(
    file: &[u8],
    start: ByteReader,
    oversized: Option<VmdRefusal>,
) -> Result<FrontSections, VmdRefusal>
    ensures { answer front_is result ≡ scan_front (oversized_of oversized) file.now start.pos }
{
    let ends_early = Some(VmdRefusal::FileEndsEarly);
    let (bones, p) = start.read_record_count(file, VmdParsedBoneFrame::SIZE, ends_early)?;
    let (morphs, q) = p.read_optional_record_count(file, VmdParsedMorphFrame::SIZE, ends_early)?;
    let (cameras, next) = q.read_optional_record_count(
        file,
        VmdParsedCameraFrame::SIZE,
        oversized,
    )?;
    Ok(FrontSections {
        bones,
        morphs,
        cameras,
        next,
    })
}

// Lights, self-shadows and properties.
fn scan_back(
    file: &[u8],
    start: ByteReader,
    oversized: Option<VmdRefusal>,
) -> Result<BackSections, VmdRefusal>
    ensures { answer back_is result ≡ scan_back (oversized_of oversized) file.now start.pos }
{
    let ends_early = Some(VmdRefusal::FileEndsEarly);
    let (lights, p) = start.read_optional_record_count(file, VmdParsedLightFrame::SIZE, oversized)?;
    let (self_shadows, q) = p.read_optional_record_count(
        file,
        VmdParsedSelfShadowFrame::SIZE,
        oversized,
    )?;
    let (properties, _) = q.read_optional_record_count(
        file,
        VmdParsedPropertyFrame::SIZE,
        ends_early,
    )?;
    Ok(BackSections {
        lights,
        self_shadows,
        properties,
    })
}

// The answer where the last property frame ends at a place.
fn ended_at(
    file: &[u8],
    next: usize,
    over: Option<VmdRefusal>,
    sections: VmdSections,
) -> Result<VmdSections, VmdRefusal>
    ensures { answer scan_is result ≡ over_if (leb (length file.now) next) (over_of over) (scan_is sections) }
{
    if file.len() <= next {
        return Ok(sections);
    }
    match over {
        None => Ok(sections),
        Some(k) => Err(k),
    }
}

fn all_sections(front: FrontSections, back: BackSections, ik_states: u64) -> VmdSections
    ensures { scan_is result ≡ scan_joined (front_is front) (back_is back) ik_states }
{
    let bones = front.bones;
    let morphs = front.morphs;
    let cameras = front.cameras;
    let lights = back.lights;
    let self_shadows = back.self_shadows;
    let properties = back.properties;
    VmdSections {
        bones,
        morphs,
        cameras,
        lights,
        self_shadows,
        properties,
        ik_states,
    }
}

// The property frames and the bytes after them. What these do is asked after the walk, whose loop so has registers enough.
fn scan_end(
    file: &[u8],
    manner: VmdManner,
    front: FrontSections,
    back: BackSections,
) -> Result<VmdSections, VmdRefusal>
    requires { back.properties.place ≤ length file.now }
    ensures { answer scan_is result ≡ scan_end (manner_of manner).over file.now (front_is front) (back_is back) }
{
    let properties = back.properties;
    let place = properties.place;
    let walk = walk_property_frames(file, place, properties.count as usize)?;
    let sections = all_sections(front, back, walk.ik_states);
    ended_at(file, walk.next, over_in(manner), sections)
}

// The counts and places of all six sections, from the place where they begin.
pub fn scan_sections(
    file: &[u8],
    start: ByteReader,
    manner: VmdManner,
) -> Result<VmdSections, VmdRefusal>
    requires { start.pos ≤ length file.now }
    ensures { answer scan_is result ≡ scan_sections (manner_of manner) file.now start.pos }
{
    let oversized = oversized_in(manner);
    let front = scan_front(file, start, oversized)?;
    let back = scan_back(file, front.next, oversized)?;
    scan_end(file, manner, front, back)
}

// The counts and places of a whole file.
fn scan_whole(file: &[u8], manner: VmdManner) -> Result<VmdSections, VmdRefusal>
    ensures { answer scan_is result ≡ scan_file (manner_of manner) file.now }
{
    let header = vmd_header::read_header(file)?;
    let start = ByteReader {
        pos: header.sections,
    };
    scan_sections(file, start, manner)
}

// The same with the file beside them.
pub fn scan_file<'a>(file: &'a [u8], manner: VmdManner) -> Result<VmdScanned<'a>, VmdRefusal>
    ensures found { answer (λ x. scan_is x.sections) result ≡ scan_file (manner_of manner) file.now }
    ensures same { IfOk result (λ x. x.file.now ≡ file.now) }
{
    let sections = scan_whole(file, manner)?;
    Ok(VmdScanned { file, sections })
}

// ---- the sections of a scanned file

impl<'a> VmdScanned<'a> {
    // The records of a kind.
    pub fn records(&self, kind: VmdKind) -> VmdRecords<'a>
        ensures file { result.file.now ≡ self.now.file.now }
        ensures kind { result.kind ≡ kind }
        ensures section { result.section ≡ section_of kind self.now.sections }
    {
        let file = self.file;
        let sections = self.sections;
        let section = match kind {
            VmdKind::Bone => sections.bones,
            VmdKind::Morph => sections.morphs,
            VmdKind::Camera => sections.cameras,
            VmdKind::Light => sections.lights,
            VmdKind::SelfShadow => sections.self_shadows,
        };
        VmdRecords {
            file,
            kind,
            section,
        }
    }

    pub fn property_frames(&self) -> VmdPropertyFrames<'a>
        ensures file { result.file.now ≡ self.now.file.now }
        ensures section { result.section ≡ self.now.sections.properties }
    {
        VmdPropertyFrames {
            file: self.file,
            section: self.sections.properties,
        }
    }
}
