// Tidying a take: each track sorted by frame, and of each frame only the last record in file order. Public: the pub calls ask
// nothing of their caller, and each states its answer, and every byte and place lent, by an equation with a definition.
#![tactic(auto)]

ghost use Rattle.std.specs.Prelude.{◌≡◌, ◌++◌, ◌≤◌, leb, length, IfOk};
ghost use Rattle.vmd_format.specs.Read.{strict};
ghost use Rattle.vmd_format.specs.Take.{write_take};
ghost use Rattle.vmd_laws.specs.ExportLaws.{take_in};
ghost use Rattle.vmd_base.specs.Meaning.{answer, manner_of};
ghost use Rattle.vmd_scan.specs.Meaning.{scan_is};
ghost use Rattle.vmd_bytes.specs.Written.{Room, Wrote};
ghost use Rattle.vmd_tables.specs.Leading.{Beyond};
ghost use Rattle.vmd_tidy.specs.Tidied.{fitting, tidied_answer, tidied_output, tidied_scratch, size_answer, size_scratch, longest};
ghost use Rattle.vmd_tidy.specs.Meaning.{counts_are, report_is};
ghost use Rattle.vmd_tidy.specs.Stages.{largest_count, tidied_at, front_bytes, back_bytes, Kept, Fewer, Whole, counts_at};

use vmd_base::{VmdCounts, VmdEdition, VmdManner, VmdRefusal};
use vmd_records::VmdKind;
use vmd_scan::VmdSections;
use vmd_scan::scanned::VmdScanned;

// A take that was tidied: the bytes of its file, and how many records of each section it keeps and how many were dropped.
#[derive(Clone, Copy, Debug, PartialEq, Eq)]
pub struct VmdTidied {
    pub bytes: u64,
    pub kept: VmdCounts,
    pub dropped: VmdCounts,
}

// ---- how much scratch and output there has to be

// How many records the largest section has.
fn largest_section(x: VmdSections) -> usize
    ensures { result ≡ largest_count (scan_is x) }
{
    let n = x.counts();
    let front = n.bones.max(n.morphs).max(n.cameras);
    let back = n.lights.max(n.self_shadows).max(n.properties);
    front.max(back) as usize
}

// How many records of each section tidying keeps, and how many IK states its property frames have together.
#[derive(Clone, Copy, Debug, PartialEq, Eq)]
struct VmdKept {
    counts: VmdCounts,
    ik_states: u64,
}

// What tidying keeps, counted without the scratch.
fn count_kept(take: &VmdScanned) -> VmdKept
    ensures { Kept take.now.file.now (scan_is take.now.sections) (counts_are result.counts) result.ik_states }
{
    let bones = vmd_tidy_sections::count_records(take.records(VmdKind::Bone));
    let morphs = vmd_tidy_sections::count_records(take.records(VmdKind::Morph));
    let cameras = vmd_tidy_sections::count_records(take.records(VmdKind::Camera));
    let lights = vmd_tidy_sections::count_records(take.records(VmdKind::Light));
    let self_shadows = vmd_tidy_sections::count_records(take.records(VmdKind::SelfShadow));
    let frames = vmd_tidy_sections::count_properties(take.property_frames());
    VmdKept {
        counts: VmdCounts {
            bones,
            morphs,
            cameras,
            lights,
            self_shadows,
            properties: frames.frames,
        },
        ik_states: frames.ik_states,
    }
}

// Whether the tidied file is within a limit. It is not longer than the export: only where that is too long is anything counted.
fn tidied_fits(limit: usize, take: &VmdScanned) -> bool
    ensures { result ≡ leb (length (write_take (tidied_at take.now.file.now (scan_is take.now.sections)))) limit }
{
    let x = take.sections;
    let export = vmd_output::file_size(limit, VmdEdition::Newer, x.counts(), x.ik_states);
    if export.is_ok() {
        return true;
    }
    let kept = count_kept(take);
    let tidied = vmd_output::file_size(limit, VmdEdition::Newer, kept.counts, kept.ik_states);
    tidied.is_ok()
}

// How many places of scratch a take needs, where so many are lent and its tidied file has room.
fn places_for(places: usize, room: usize, take: &VmdScanned) -> Result<usize, VmdRefusal>
    ensures found { answer (λ _. take_in take.now.file.now (scan_is take.now.sections)) result ≡ fitting places room (take_in take.now.file.now (scan_is take.now.sections)) }
    ensures needed { IfOk result (λ n. (n ≡ largest_count (scan_is take.now.sections)) × (n ≤ places) × (length (write_take (tidied_at take.now.file.now (scan_is take.now.sections))) ≤ room)) }
{
    let needed = largest_section(take.sections);
    if places < needed {
        return Err(VmdRefusal::ScratchTooShort);
    }
    if !tidied_fits(room, take) {
        return Err(VmdRefusal::OutputTooShort);
    }
    Ok(needed)
}

// ---- the sections written

// Where the last section ends, and how many records of each are kept.
#[derive(Clone, Copy, Debug, PartialEq, Eq)]
struct VmdTidiedSections {
    end: usize,
    kept: VmdCounts,
}

// All six sections, tidied.
fn write_sections(
    out: &mut [u8],
    to: usize,
    scratch: &mut [u64],
    take: &VmdScanned,
) -> VmdTidiedSections
    requires { (largest_count (scan_is take.now.sections) ≤ length scratch.old) × Room out.old to (front_bytes take.now.file.now (scan_is take.now.sections) ++ back_bytes take.now.file.now (scan_is take.now.sections)) }
    ensures { Wrote out.old to (front_bytes take.now.file.now (scan_is take.now.sections) ++ back_bytes take.now.file.now (scan_is take.now.sections)) out.new result.end × (counts_are result.kept ≡ counts_at take.now.file.now (scan_is take.now.sections)) × Beyond (largest_count (scan_is take.now.sections)) scratch.old scratch.new }
{
    let bones = take.records(VmdKind::Bone);
    let morphs = take.records(VmdKind::Morph);
    let cameras = take.records(VmdKind::Camera);
    let lights = take.records(VmdKind::Light);
    let self_shadows = take.records(VmdKind::SelfShadow);
    let properties = take.property_frames();
    let b = vmd_tidy_sections::write_tidied(out, to, scratch, bones);
    let m = vmd_tidy_sections::write_tidied(out, b.end, scratch, morphs);
    let c = vmd_tidy_sections::write_tidied(out, m.end, scratch, cameras);
    let l = vmd_tidy_sections::write_tidied(out, c.end, scratch, lights);
    let d = vmd_tidy_sections::write_tidied(out, l.end, scratch, self_shadows);
    let p = vmd_tidy_sections::write_tidied_properties(out, d.end, scratch, properties);
    VmdTidiedSections {
        end: p.end,
        kept: VmdCounts {
            bones: b.kept,
            morphs: m.kept,
            cameras: c.kept,
            lights: l.kept,
            self_shadows: d.kept,
            properties: p.kept,
        },
    }
}

// What was dropped: all but what is kept.
fn dropped_from(x: VmdSections, kept: VmdCounts) -> VmdCounts
    requires { Fewer (counts_are kept) (scan_is x) }
    ensures { Whole (counts_are kept) (counts_are result) (scan_is x) }
{
    VmdCounts {
        bones: x.bones.count - kept.bones,
        morphs: x.morphs.count - kept.morphs,
        cameras: x.cameras.count - kept.cameras,
        lights: x.lights.count - kept.lights,
        self_shadows: x.self_shadows.count - kept.self_shadows,
        properties: x.properties.count - kept.properties,
    }
}

// The tidied file of a take, where it has room.
fn write_file(out: &mut [u8], scratch: &mut [u64], take: &VmdScanned) -> VmdTidied
    requires { (largest_count (scan_is take.now.sections) ≤ length scratch.old) × Room out.old 0 (write_take (tidied_at take.now.file.now (scan_is take.now.sections))) }
    ensures { Wrote out.old 0 (write_take (tidied_at take.now.file.now (scan_is take.now.sections))) out.new result.bytes × (counts_are result.kept ≡ counts_at take.now.file.now (scan_is take.now.sections)) × Whole (counts_are result.kept) (counts_are result.dropped) (scan_is take.now.sections) × Beyond (largest_count (scan_is take.now.sections)) scratch.old scratch.new }
{
    let model = vmd_header::model_name(take.file);
    let to = vmd_output::write_header(out, VmdEdition::Newer, model);
    let written = write_sections(out, to, scratch, take);
    VmdTidied {
        bytes: written.end as u64,
        kept: written.kept,
        dropped: dropped_from(take.sections, written.kept),
    }
}

// ---- how long the output has to be

// What tidying keeps; the places are left as it leaves them.
fn keep_sections(scratch: &mut [u64], take: &VmdScanned) -> VmdKept
    requires { largest_count (scan_is take.now.sections) ≤ length scratch.old }
    ensures { Kept take.now.file.now (scan_is take.now.sections) (counts_are result.counts) result.ik_states × Beyond (largest_count (scan_is take.now.sections)) scratch.old scratch.new }
{
    let bones = vmd_tidy_sections::keep_records(scratch, take.records(VmdKind::Bone));
    let morphs = vmd_tidy_sections::keep_records(scratch, take.records(VmdKind::Morph));
    let cameras = vmd_tidy_sections::keep_records(scratch, take.records(VmdKind::Camera));
    let lights = vmd_tidy_sections::keep_records(scratch, take.records(VmdKind::Light));
    let shadows = take.records(VmdKind::SelfShadow);
    let self_shadows = vmd_tidy_sections::keep_records(scratch, shadows);
    let frames = vmd_tidy_sections::keep_properties(scratch, take.property_frames());
    VmdKept {
        counts: VmdCounts {
            bones,
            morphs,
            cameras,
            lights,
            self_shadows,
            properties: frames.frames,
        },
        ik_states: frames.ik_states,
    }
}

// What a tidied file has, which is not longer than an output can be.
fn measure_file(scratch: &mut [u64], take: &VmdScanned) -> VmdTidied
    requires { (largest_count (scan_is take.now.sections) ≤ length scratch.old) × (length (write_take (tidied_at take.now.file.now (scan_is take.now.sections))) ≤ longest) }
    ensures { (result.bytes ≡ length (write_take (tidied_at take.now.file.now (scan_is take.now.sections)))) × (counts_are result.kept ≡ counts_at take.now.file.now (scan_is take.now.sections)) × Whole (counts_are result.kept) (counts_are result.dropped) (scan_is take.now.sections) × Beyond (largest_count (scan_is take.now.sections)) scratch.old scratch.new }
{
    let kept = keep_sections(scratch, take);
    let size = vmd_output::file_size(
        vmd_output::LARGEST,
        VmdEdition::Newer,
        kept.counts,
        kept.ik_states,
    );
    VmdTidied {
        bytes: size.unwrap(),
        kept: kept.counts,
        dropped: dropped_from(take.sections, kept.counts),
    }
}

// ---- the calls, with the manner of reading named

// Writes the tidied file of a take at the front of out. The scratch has a place for each record of the largest section; after
// success these hold 0. A refusal leaves out and scratch as they were.
pub fn tidy_file(
    file: &[u8],
    manner: VmdManner,
    scratch: &mut [u64],
    out: &mut [u8],
) -> Result<VmdTidied, VmdRefusal>
    ensures result_value { answer report_is result ≡ tidied_answer (manner_of manner) file.now scratch.old out.old }
    ensures out_after { out.new ≡ tidied_output (manner_of manner) file.now scratch.old out.old }
    ensures scratch_left { scratch.new ≡ tidied_scratch (manner_of manner) file.now scratch.old out.old }
{
    let take = vmd_scan::scan_file(file, manner)?;
    let places = places_for(scratch.len(), out.len(), &take)?;
    let tidied = write_file(out, scratch, &take);
    vmd_tidy_sections::clear_places(scratch, places);
    Ok(tidied)
}

// How long its output has to be. The scratch is that of the call, and is left as the call leaves it.
pub fn tidy_file_size(
    file: &[u8],
    manner: VmdManner,
    scratch: &mut [u64],
) -> Result<VmdTidied, VmdRefusal>
    ensures result_value { answer report_is result ≡ size_answer (manner_of manner) file.now scratch.old }
    ensures scratch_left { scratch.new ≡ size_scratch (manner_of manner) file.now scratch.old }
{
    let take = vmd_scan::scan_file(file, manner)?;
    let places = places_for(scratch.len(), vmd_output::LARGEST, &take)?;
    let tidied = measure_file(scratch, &take);
    vmd_tidy_sections::clear_places(scratch, places);
    Ok(tidied)
}

// ---- the same in the strict manner, which is meant where none is named

pub fn tidy_vmd_animation(
    file: &[u8],
    scratch: &mut [u64],
    out: &mut [u8],
) -> Result<VmdTidied, VmdRefusal>
    ensures result_value { answer report_is result ≡ tidied_answer strict file.now scratch.old out.old }
    ensures out_after { out.new ≡ tidied_output strict file.now scratch.old out.old }
    ensures scratch_left { scratch.new ≡ tidied_scratch strict file.now scratch.old out.old }
{
    tidy_file(file, VmdManner::Strict, scratch, out)
}

pub fn tidy_vmd_size(file: &[u8], scratch: &mut [u64]) -> Result<VmdTidied, VmdRefusal>
    ensures result_value { answer report_is result ≡ size_answer strict file.now scratch.old }
    ensures scratch_left { scratch.new ≡ size_scratch strict file.now scratch.old }
{
    tidy_file_size(file, VmdManner::Strict, scratch)
}
