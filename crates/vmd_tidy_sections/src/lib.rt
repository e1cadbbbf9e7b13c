// Sections tidied: where the records stand that are kept, in the places of a lent scratch, and these records written. Internal:
// callers see to the lengths. One scratch is lent for all sections, so that it has a place for each record stays a clause.
#![tactic(auto)]

ghost use Rattle.std.specs.Prelude.{◌≡◌, ◌++◌, ◌+◌, ◌≤◌, ◌<◌, length, get_or, take, drop, replicate};
ghost use Rattle.vmd_format.specs.Bytes.{u32_bytes};
ghost use Rattle.vmd_format.specs.Read.{fixed, write_all, write_counted};
ghost use Rattle.vmd_laws.specs.ReadLaws.{All};
ghost use Rattle.vmd_format.specs.Take.{property};
ghost use Rattle.vmd_format.specs.Opening.{ik_total};
ghost use Rattle.vmd_base.specs.Meaning.{extent_is};
ghost use Rattle.vmd_bytes.specs.Written.{Room, Wrote};
ghost use Rattle.vmd_records.specs.Kinds.{layout};
ghost use Rattle.vmd_tracks.specs.Tracks.{lasts};
ghost use Rattle.vmd_sort.specs.Order.{there};
ghost use Rattle.vmd_sort.specs.Walk.{step, width, places_by, end_by};
ghost use Rattle.vmd_sort.specs.Ranking.{places_in};
ghost use Rattle.vmd_tables.specs.Leading.{Beyond};
ghost use Rattle.vmd_tidy_sections.specs.Sections.{order_of, written_at, tidied_places, tidied_rows, tidied_frame_places, tidied_frames};

use vmd_records::VmdKind;
use vmd_scan::property_frames::VmdPropertyFrames;
use vmd_scan::records::VmdRecords;
use vmd_sort::{VmdOrder, VmdRanking, VmdRun, VmdStride};

// ---- where the records of a section stand

// What tells the records of a kind apart: their frames, and among several tracks their names too.
fn key_order(kind: VmdKind) -> VmdOrder
    ensures { result ≡ order_of kind }
{
    match kind {
        VmdKind::Bone | VmdKind::Morph => VmdOrder::NameFrame,
        VmdKind::Camera | VmdKind::Light | VmdKind::SelfShadow => VmdOrder::Frame,
    }
}

// Has the places hold where the records stand that tidying keeps of one track, whose records begin with their frame. The result
// is how many.
fn tidy_frames(a: &mut [u64], run: VmdRun) -> usize
    requires { length a.old ≡ run.count }
    ensures { (take result a.new ≡ lasts (there run.entry.file.now) (places_in run.entry)) × (result ≤ length a.old) × (length a.new ≡ length a.old) }
{
    run.fill_places(a);
    let file = run.file;
    let order = VmdOrder::Frame;
    VmdRanking { file, order }.tidy_places(a)
}

// ---- writing what stands at some places

// How many places from the i-th on hold records that stand one after another.
fn run_length(places: &[u64], i: usize, s: &[u8], stride: VmdStride) -> usize
    requires { (i < length places.now) × All (λ p. step s.now (width stride) p ≤ length s.now) places.now }
    ensures { (1 ≤ result) × (i + result ≤ length places.now) × (take result (drop i places.now) ≡ places_by (step s.now (width stride)) result (get_or places.now i 0)) × (end_by (step s.now (width stride)) result (get_or places.now i 0) ≤ length s.now) }
{
    let mut next = stride.next_place(s, places[i] as usize);
    for n in 1..places.len() - i {
        if places[i + n] != next as u64 {
            return n;
        }
        next = stride.next_place(s, next);
    }
    places.len() - i
}

// Writes the records of a run.
fn write_run(out: &mut [u8], to: usize, run: VmdRun) -> usize
    requires { Room out.old to (write_all (written_at run.stride run.file.now) (places_in run)) }
    ensures { Wrote out.old to (write_all (written_at run.entry.stride run.entry.file.now) (places_in run.entry)) out.new result }
{
    match run.stride {
        VmdStride::Records(kind) => {
            vmd_writers::write_records(out, to, kind, run.file, run.place, run.count)
        }
        VmdStride::PropertyFrames => {
            vmd_write_properties::write_properties(out, to, run.file, run.place, run.count)
        }
    }
}

// Writes what stands at some places; records that stand one after another are written together. No `chunk_by`, whose closure has
// to be callable at any two places: the place after a record is known only where the record ends in the file.
fn write_places(out: &mut [u8], to: usize, s: &[u8], places: &[u64], stride: VmdStride) -> usize
    requires { All (λ p. step s.now (width stride) p ≤ length s.now) places.now × Room out.old to (write_all (written_at stride s.now) places.now) }
    ensures { Wrote out.old to (write_all (written_at stride s.now) places.now) out.new result }
{
    let mut q = to;
    let mut i = 0;
    while i < places.len() {
        let count = run_length(places, i, s, stride);
        let run = VmdRun {
            file: s,
            place: places[i] as usize,
            count,
            stride,
        };
        q = write_run(out, q, run);
        i += count;
    }
    q
}

// The same after their number.
fn write_counted_places(
    out: &mut [u8],
    to: usize,
    s: &[u8],
    places: &[u64],
    stride: VmdStride,
) -> usize
    requires { (length places.now ≤ 4294967295) × All (λ p. step s.now (width stride) p ≤ length s.now) places.now × Room out.old to (u32_bytes (length places.now) ++ write_all (written_at stride s.now) places.now) }
    ensures { Wrote out.old to (u32_bytes (length places.now) ++ write_all (written_at stride s.now) places.now) out.new result }
{
    let p = vmd_output::write_count(out, to, places.len() as u32);
    write_places(out, p, s, places, stride)
}

// ---- a section

// The same in the first places, whatever further ones hold.
fn tidy_first_frames(a: &mut [u64], run: VmdRun) -> usize
    requires { run.count ≤ length a.old }
    ensures { (take result a.new ≡ lasts (there run.entry.file.now) (places_in run.entry)) × (result ≤ run.entry.count) × Beyond run.entry.count a.old a.new }
{
    tidy_frames(&mut a[..run.count], run)
}

// Has the first places hold where the records stand that tidying keeps of a section. The result is how many.
pub fn tidy_records(a: &mut [u64], records: VmdRecords) -> usize
    requires { records.section.count ≤ length a.old }
    ensures { (take result a.new ≡ tidied_places records.entry.kind records.entry.file.now (extent_is records.entry.section)) × (result ≤ records.entry.section.count) × Beyond records.entry.section.count a.old a.new }
{
    let file = records.file;
    let kind = records.kind;
    let section = records.section;
    match key_order(kind) {
        VmdOrder::NameFrame => {
            vmd_gather::tidy_named(a, file, section.place, kind.size(), section.count as usize)
        }
        _ => {
            let run = VmdRun {
                file,
                place: section.place,
                count: section.count as usize,
                stride: VmdStride::Records(kind),
            };
            tidy_first_frames(a, run)
        }
    }
}

// The same of property frames.
pub fn tidy_properties(a: &mut [u64], properties: VmdPropertyFrames) -> usize
    requires { properties.section.count ≤ length a.old }
    ensures { (take result a.new ≡ tidied_frame_places properties.entry.file.now (extent_is properties.entry.section)) × (result ≤ properties.entry.section.count) × Beyond properties.entry.section.count a.old a.new }
{
    let section = properties.section;
    let run = VmdRun {
        file: properties.file,
        place: section.place,
        count: section.count as usize,
        stride: VmdStride::PropertyFrames,
    };
    tidy_first_frames(a, run)
}

// Where a section ends, and how many records it has.
#[derive(Clone, Copy, PartialEq, Eq)]
pub struct VmdTidiedSection {
    pub end: usize,
    pub kept: u32,
}

// Writes a section tidied: how many records are kept, and the records.
pub fn write_tidied(
    out: &mut [u8],
    to: usize,
    a: &mut [u64],
    records: VmdRecords,
) -> VmdTidiedSection
    requires { (records.section.count ≤ length a.old) × Room out.old to (write_counted (fixed (layout records.kind)) (tidied_rows records.kind records.file.now (extent_is records.section))) }
    ensures { Wrote out.old to (write_counted (fixed (layout records.entry.kind)) (tidied_rows records.entry.kind records.entry.file.now (extent_is records.entry.section))) out.new result.end × (result.kept ≡ length (tidied_rows records.entry.kind records.entry.file.now (extent_is records.entry.section))) × Beyond records.entry.section.count a.old a.new }
{
    let n = tidy_records(a, records);
    let stride = VmdStride::Records(records.kind);
    let end = write_counted_places(out, to, records.file, &a[..n], stride);
    VmdTidiedSection {
        end,
        kept: n as u32,
    }
}

// The same of property frames, each with its IK states.
pub fn write_tidied_properties(
    out: &mut [u8],
    to: usize,
    a: &mut [u64],
    properties: VmdPropertyFrames,
) -> VmdTidiedSection
    requires { (properties.section.count ≤ length a.old) × Room out.old to (write_counted property (tidied_frames properties.file.now (extent_is properties.section))) }
    ensures { Wrote out.old to (write_counted property (tidied_frames properties.entry.file.now (extent_is properties.entry.section))) out.new result.end × (result.kept ≡ length (tidied_frames properties.entry.file.now (extent_is properties.entry.section))) × Beyond properties.entry.section.count a.old a.new }
{
    let n = tidy_properties(a, properties);
    let stride = VmdStride::PropertyFrames;
    let end = write_counted_places(out, to, properties.file, &a[..n], stride);
    VmdTidiedSection {
        end,
        kept: n as u32,
    }
}

// Has the first places hold 0.
pub fn clear_places(a: &mut [u64], n: usize)
    requires { n ≤ length a.old }
    ensures { a.new ≡ replicate n 0 ++ drop n a.old }
{
    a[..n].fill(0);
}

// How many records tidying keeps of a section; the places are left as it leaves them.
pub fn keep_records(a: &mut [u64], records: VmdRecords) -> u32
    requires { records.section.count ≤ length a.old }
    ensures { (result ≡ length (tidied_rows records.entry.kind records.entry.file.now (extent_is records.entry.section))) × Beyond records.entry.section.count a.old a.new }
{
    tidy_records(a, records) as u32
}

// How many property frames, and how many IK states they have together.
#[derive(Clone, Copy, PartialEq, Eq)]
pub struct VmdKeptFrames {
    pub frames: u32,
    pub ik_states: u64,
}

// The same of property frames.
pub fn keep_properties(a: &mut [u64], properties: VmdPropertyFrames) -> VmdKeptFrames
    requires { properties.section.count ≤ length a.old }
    ensures { (result.frames ≡ length (tidied_frames properties.entry.file.now (extent_is properties.entry.section))) × (result.ik_states ≡ ik_total (tidied_frames properties.entry.file.now (extent_is properties.entry.section))) × Beyond properties.entry.section.count a.old a.new }
{
    let n = tidy_properties(a, properties);
    VmdKeptFrames {
        frames: n as u32,
        ik_states: vmd_kept::count_ik_states(properties.file, &a[..n]),
    }
}

// ---- without the scratch

// How many records tidying keeps of a section.
pub fn count_records(records: VmdRecords) -> u32
    ensures { result ≡ length (tidied_rows records.entry.kind records.entry.file.now (extent_is records.entry.section)) }
{
    let section = records.section;
    let run = VmdRun {
        file: records.file,
        place: section.place,
        count: section.count as usize,
        stride: VmdStride::Records(records.kind),
    };
    vmd_kept::count_kept(run, key_order(records.kind)).records as u32
}

// The same of property frames.
pub fn count_properties(properties: VmdPropertyFrames) -> VmdKeptFrames
    ensures { (result.frames ≡ length (tidied_frames properties.entry.file.now (extent_is properties.entry.section))) × (result.ik_states ≡ ik_total (tidied_frames properties.entry.file.now (extent_is properties.entry.section))) }
{
    let section = properties.section;
    let run = VmdRun {
        file: properties.file,
        place: section.place,
        count: section.count as usize,
        stride: VmdStride::PropertyFrames,
    };
    let kept = vmd_kept::count_kept(run, VmdOrder::Frame);
    VmdKeptFrames {
        frames: kept.records as u32,
        ik_states: kept.ik_states,
    }
}
