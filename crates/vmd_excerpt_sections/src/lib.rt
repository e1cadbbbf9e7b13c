// Sections of an excerpt: the records whose frame lies between a first and a last, counted, and written with the first frame
// subtracted from theirs. Internal: callers see to the lengths.
#![tactic(auto)]

ghost use Rattle.std.specs.Prelude.{◌≡◌, map, ◌+◌, ◌*◌, ◌≤◌, length, drop};
ghost use Rattle.vmd_format.specs.Bytes.{u32};
ghost use Rattle.vmd_format.specs.Characters.{between};
ghost use Rattle.vmd_format.specs.Fetch.{next_frame};
ghost use Rattle.vmd_format.specs.Read.{fixed, write_all, write_counted};
ghost use Rattle.vmd_format.specs.Opening.{ik_total};
ghost use Rattle.vmd_format.specs.Take.{property};
ghost use Rattle.vmd_laws.specs.PlacesLaws.{property_in};
ghost use Rattle.vmd_laws.specs.ReadLaws.{All};
ghost use Rattle.vmd_bytes.specs.Slices.{splice};
ghost use Rattle.vmd_bytes.specs.Written.{Room, Wrote};
ghost use Rattle.vmd_records.specs.Kinds.{layout, size_of};
ghost use Rattle.vmd_framed.specs.Excerpt.{moved, property_framed};
ghost use Rattle.vmd_excerpt_sections.specs.Rows.{framed, rows, kept_rows, kept_frames, number_if, Stands};

use vmd_records::{VmdKind, VmdParsedPropertyFrame};
use vmd_scan::property_frames::VmdPropertyFrames;
use vmd_scan::records::VmdRecords;

// A count before the records of a section, in bytes.
const COUNT_SIZE: usize = 4;

// As many records are looked at before they are written: few enough that they are still in the cache.
const RUN: u32 = 64;

// The frames of an excerpt: from the first to the last, both included. A range of the library would not be copied, and a clause
// could not name its ends so plainly.
#[derive(Clone, Copy, Debug, PartialEq, Eq)]
pub struct VmdSpan {
    pub first: u32,
    pub last: u32,
}

impl VmdSpan {
    #[tactic(auto, unfolding(vmd_format::specs::Characters::between))]
    pub fn contains(self, frame: u32) -> bool
        ensures { result ≡ between self.first self.last frame }
    {
        self.first <= frame && frame <= self.last
    }
}

// The frame of the record of a kind at a place.
fn frame_at(s: &[u8], kind: VmdKind, at: usize) -> u32
    requires { at + size_of kind ≤ length s.now }
    ensures { result ≡ (framed kind).frame ((layout kind).decode (drop at s.now)) }
{
    vmd_bytes::read_u32_le(s, at + kind.frame_offset())
}

// ---- how many stay

pub fn count_records(records: VmdRecords, span: VmdSpan) -> u32
    ensures { result ≡ length (kept_rows records.entry.kind span.first span.last records.entry.file.now records.entry.section.count records.entry.section.place) }
{
    let file = records.file;
    let kind = records.kind;
    let section = records.section;
    let size = kind.size();
    let mut kept = 0;
    for i in 0..section.count as usize {
        let on = span.contains(frame_at(file, kind, section.place + i * size));
        kept = vmd_count::next_if(kept, on);
    }
    kept as u32
}

// How many property frames, and how many IK states they have together.
#[derive(Clone, Copy, Debug, PartialEq, Eq)]
pub struct VmdKeptFrames {
    pub frames: u32,
    pub ik_states: u64,
}

// The IK states of a frame, or none.
#[tactic(auto, unfolding(crate::specs::Rows::number_if))]
fn states_if(states: u32, on: bool) -> u64
    ensures { result ≡ number_if on states }
{
    if on { u64::from(states) } else { 0 }
}

pub fn count_properties(properties: VmdPropertyFrames, span: VmdSpan) -> VmdKeptFrames
    ensures { (result.frames ≡ length (kept_frames span.first span.last properties.entry.file.now properties.entry.section.count properties.entry.section.place)) × (result.ik_states ≡ ik_total (kept_frames span.first span.last properties.entry.file.now properties.entry.section.count properties.entry.section.place)) }
{
    let file = properties.file;
    let section = properties.section;
    let mut kept = 0;
    let mut states: u64 = 0;
    let mut p = section.place;
    for _ in 0..section.count {
        let on = span.contains(vmd_bytes::read_u32_le(file, p));
        let here = vmd_bytes::read_u32_le(file, p + VmdParsedPropertyFrame::IK_COUNT_OFFSET);
        kept = vmd_count::next_if(kept, on);
        states += states_if(here, on);
        p = vmd_scan::next_property_frame(file, p);
    }
    VmdKeptFrames {
        frames: kept as u32,
        ik_states: states,
    }
}

// ---- records one after another that stay, or that do not

// How many of n records are as the first is.
fn run_length(s: &[u8], kind: VmdKind, at: usize, n: u32, span: VmdSpan, on: bool) -> u32
    requires { (1 ≤ n) × (at + n * size_of kind ≤ length s.now) × (on ≡ between span.first span.last ((framed kind).frame ((layout kind).decode (drop at s.now)))) }
    ensures { (1 ≤ result) × (result ≤ n) × All (λ a. between span.first span.last ((framed kind).frame a) ≡ on) (rows kind s.now result at) }
{
    let size = kind.size();
    for k in 1..n {
        if span.contains(frame_at(s, kind, at + k as usize * size)) != on {
            return k;
        }
    }
    n
}

// Writes the frames of n records over those in their copies, the first one subtracted.
fn move_frames(out: &mut [u8], to: usize, kind: VmdKind, s: &[u8], at: usize, n: usize, first: u32)
    requires { (at + n * size_of kind ≤ length s.now) × (to + n * size_of kind ≤ length out.old) × All (λ a. first ≤ (framed kind).frame a) (rows kind s.now n at) × Stands out.old to (write_all (layout kind).encode (rows kind s.now n at)) }
    ensures { out.new ≡ splice out.old to (write_all (layout kind).encode (map (moved (framed kind) first) (rows kind s.now n at))) }
{
    let size = kind.size();
    let offset = kind.frame_offset();
    // Running places: with at + i * size a run of one, which alternating frames make, took longer to begin.
    let mut p = at;
    let mut q = to;
    for _ in 0..n {
        let frame = frame_at(s, kind, p);
        vmd_bytes::write_u32_le(out, q + offset, frame - first);
        p += size;
        q += size;
    }
}

// n records that stay. Inlined, as write_kept and write_section are: each kind has its own code, with its size in place. With a
// call for each run, runs of one took half as long again.
#[inline(always)]
fn write_run(
    out: &mut [u8],
    to: usize,
    kind: VmdKind,
    s: &[u8],
    at: usize,
    n: usize,
    first: u32,
) -> usize
    requires { (at + n * size_of kind ≤ length s.now) × All (λ a. first ≤ (framed kind).frame a) (rows kind s.now n at) × Room out.old to (write_all (layout kind).encode (map (moved (framed kind) first) (rows kind s.now n at))) }
    ensures { Wrote out.old to (write_all (layout kind).encode (map (moved (framed kind) first) (rows kind s.now n at))) out.new result }
{
    let end = vmd_writers::write_records(out, to, kind, s, at, n);
    move_frames(out, to, kind, s, at, n, first);
    end
}

// ---- a section

// Where the records end, and how many there are.
#[derive(Clone, Copy, Debug, PartialEq, Eq)]
struct VmdPiece {
    end: usize,
    kept: u32,
}

#[inline(always)]
fn write_kept(out: &mut [u8], to: usize, records: VmdRecords, span: VmdSpan) -> VmdPiece
    requires { Room out.old to (write_all (layout records.kind).encode (kept_rows records.kind span.first span.last records.file.now records.section.count records.section.place)) }
    ensures { Wrote out.old to (write_all (layout records.entry.kind).encode (kept_rows records.entry.kind span.first span.last records.entry.file.now records.entry.section.count records.entry.section.place)) out.new result.end × (result.kept ≡ length (kept_rows records.entry.kind span.first span.last records.entry.file.now records.entry.section.count records.entry.section.place)) }
{
    let file = records.file;
    let kind = records.kind;
    let size = kind.size();
    let mut p = records.section.place;
    let mut q = to;
    let mut kept = 0;
    let mut left = records.section.count;
    // A turn takes a run, whose length is found as it goes: no range or chunks have such steps.
    while 0 < left {
        let on = span.contains(frame_at(file, kind, p));
        let n = run_length(file, kind, p, left.min(RUN), span, on);
        if on {
            q = write_run(out, q, kind, file, p, n as usize, span.first);
            kept += n;
        }
        p += n as usize * size;
        left -= n;
    }
    VmdPiece { end: q, kept }
}

// The section of an excerpt: how many records stay, and the records. The count is written last: the records are looked at once.
#[inline(always)]
pub fn write_section(out: &mut [u8], to: usize, records: VmdRecords, span: VmdSpan) -> usize
    requires { Room out.old to (write_counted (fixed (layout records.kind)) (kept_rows records.kind span.first span.last records.file.now records.section.count records.section.place)) }
    ensures { Wrote out.old to (write_counted (fixed (layout records.entry.kind)) (kept_rows records.entry.kind span.first span.last records.entry.file.now records.entry.section.count records.entry.section.place)) out.new result }
{
    let written = write_kept(out, to + COUNT_SIZE, records, span);
    vmd_bytes::write_u32_le(out, to, written.kept);
    written.end
}

// ---- property frames

// One that stays, with its IK states.
fn write_moved_property(out: &mut [u8], to: usize, s: &[u8], at: usize, first: u32) -> usize
    requires { (next_frame s.now at ≤ length s.now) × (first ≤ u32 (drop at s.now)) × Room out.old to (property.write (moved property_framed first (property_in s.now at))) }
    ensures { Wrote out.old to (property.write (moved property_framed first (property_in s.now at))) out.new result }
{
    let frame = vmd_bytes::read_u32_le(s, at);
    let end = vmd_write_properties::write_properties(out, to, s, at, 1);
    vmd_bytes::write_u32_le(out, to, frame - first);
    end
}

fn write_kept_properties(
    out: &mut [u8],
    to: usize,
    properties: VmdPropertyFrames,
    span: VmdSpan,
) -> VmdPiece
    requires { Room out.old to (write_all property.write (kept_frames span.first span.last properties.file.now properties.section.count properties.section.place)) }
    ensures { Wrote out.old to (write_all property.write (kept_frames span.first span.last properties.entry.file.now properties.entry.section.count properties.entry.section.place)) out.new result.end × (result.kept ≡ length (kept_frames span.first span.last properties.entry.file.now properties.entry.section.count properties.entry.section.place)) }
{
    let file = properties.file;
    let mut p = properties.section.place;
    let mut q = to;
    let mut kept = 0;
    for _ in 0..properties.section.count {
        if span.contains(vmd_bytes::read_u32_le(file, p)) {
            q = write_moved_property(out, q, file, p, span.first);
            kept += 1;
        }
        p = vmd_scan::next_property_frame(file, p);
    }
    VmdPiece { end: q, kept }
}

pub fn write_property_section(
    out: &mut [u8],
    to: usize,
    properties: VmdPropertyFrames,
    span: VmdSpan,
) -> usize
    requires { Room out.old to (write_counted property (kept_frames span.first span.last properties.file.now properties.section.count properties.section.place)) }
    ensures { Wrote out.old to (write_counted property (kept_frames span.first span.last properties.entry.file.now properties.entry.section.count properties.entry.section.place)) out.new result }
{
    let frames = write_kept_properties(out, to + COUNT_SIZE, properties, span);
    vmd_bytes::write_u32_le(out, to, frames.kept);
    frames.end
}
