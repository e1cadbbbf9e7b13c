// Saving a take and joining two. Public: the pub calls ask nothing of their caller, and each states its answer, and every
// byte lent, by an equation with a definition.
#![tactic(auto)]

ghost use Rattle.std.specs.Prelude.{◌≡◌, ◌&&◌, ◌+◌, leb, length, IfOk};
ghost use Rattle.vmd_format.specs.Answer.{given, map_answer, fitted, within, left};
ghost use Rattle.vmd_format.specs.Read.{strict};
ghost use Rattle.vmd_format.specs.Take.{write_edition};
ghost use Rattle.vmd_format.specs.Fetch.{model_of};
ghost use Rattle.vmd_format.specs.Join.{joined_model};
ghost use Rattle.vmd_base.specs.Meaning.{answer, answer_of, edition_is, manner_of};
ghost use Rattle.vmd_scan.specs.Meaning.{scan_is};
ghost use Rattle.vmd_bytes.specs.Written.{Room, Wrote};
ghost use Rattle.vmd_export.specs.Saved.{exported_answer, exported_output, older_answer, older_output, joined_answer, joined_output, export_size, older_size, join_size};
ghost use Rattle.vmd_export.specs.Together.{no_scan, sums_fit, sum_length, scan_fitting, scan_both, edition_file, back_bytes, sections_bytes, take_of_both};

use both::VmdBoth;
use vmd_base::{VmdCounts, VmdEdition, VmdManner, VmdRefusal, VmdSection};
use vmd_records::VmdKind;
use vmd_scan::VmdSections;
use vmd_scan::scanned::VmdScanned;

pub mod both;

// ---- two takes together. An export is a take and nothing.

// The sections of nothing. No Option of a second take: each sum and each section written would be said for both cases.
fn no_sections() -> VmdSections
    ensures { scan_is result ≡ no_scan }
{
    let none = VmdSection { count: 0, place: 0 };
    VmdSections {
        bones: none,
        morphs: none,
        cameras: none,
        lights: none,
        self_shadows: none,
        properties: none,
        ik_states: 0,
    }
}

// Whether the sum of two counts fits 32 bits, as those before did. A sum and no checked_add: the must-fail edit
// sum_past_32_bits moves its limit by one.
fn also_fits(so_far: bool, a: u32, b: u32) -> bool
    ensures { result ≡ (so_far && leb (a + b) 4294967295) }
{
    so_far && (a as u64) + (b as u64) <= 0xffff_ffff
}

// Whether all six sums do.
fn sums_fit(a: VmdSections, b: VmdSections) -> bool
    ensures { result ≡ sums_fit (scan_is a) (scan_is b) }
{
    let one = also_fits(true, a.bones.count, b.bones.count);
    let two = also_fits(one, a.morphs.count, b.morphs.count);
    let three = also_fits(two, a.cameras.count, b.cameras.count);
    let four = also_fits(three, a.lights.count, b.lights.count);
    let five = also_fits(four, a.self_shadows.count, b.self_shadows.count);
    also_fits(five, a.properties.count, b.properties.count)
}

impl<'a> VmdBoth<'a> {
    // How long the two are together, where that is within a limit.
    fn size(&self, limit: usize, edition: VmdEdition) -> Result<u64, VmdRefusal>
        ensures { answer_of result ≡ within limit (sum_length (edition_is edition) (scan_is self.now.first.sections) (scan_is self.now.second.sections)) }
    {
        let a = self.first.sections;
        let b = self.second.sections;
        let counts = VmdCounts {
            bones: a.bones.count + b.bones.count,
            morphs: a.morphs.count + b.morphs.count,
            cameras: a.cameras.count + b.cameras.count,
            lights: a.lights.count + b.lights.count,
            self_shadows: a.self_shadows.count + b.self_shadows.count,
            properties: a.properties.count + b.properties.count,
        };
        vmd_output::file_size(limit, edition, counts, a.ik_states + b.ik_states)
    }

    // Lights, self-shadows and properties. The result is the place after them.
    fn write_back(&self, out: &mut [u8], to: usize) -> usize
        requires { Room out.old to (back_bytes self.now.first.file.now (scan_is self.now.first.sections) self.now.second.file.now (scan_is self.now.second.sections)) }
        ensures { Wrote out.old to (back_bytes self.now.first.file.now (scan_is self.now.first.sections) self.now.second.file.now (scan_is self.now.second.sections)) out.new result }
    {
        let first = self.first.file;
        let second = self.second.file;
        let a = self.first.sections;
        let b = self.second.sections;
        let p = vmd_output::write_section(
            out,
            to,
            VmdKind::Light,
            first,
            a.lights,
            second,
            b.lights,
        );
        let q = vmd_output::write_section(
            out,
            p,
            VmdKind::SelfShadow,
            first,
            a.self_shadows,
            second,
            b.self_shadows,
        );
        vmd_output::write_property_section(out, q, first, a.properties, second, b.properties)
    }

    // All six sections.
    fn write_sections(&self, out: &mut [u8], to: usize) -> usize
        requires { Room out.old to (sections_bytes self.now.first.file.now (scan_is self.now.first.sections) self.now.second.file.now (scan_is self.now.second.sections)) }
        ensures { Wrote out.old to (sections_bytes self.now.first.file.now (scan_is self.now.first.sections) self.now.second.file.now (scan_is self.now.second.sections)) out.new result }
    {
        let first = self.first.file;
        let second = self.second.file;
        let a = self.first.sections;
        let b = self.second.sections;
        let p = vmd_output::write_section(out, to, VmdKind::Bone, first, a.bones, second, b.bones);
        let q = vmd_output::write_section(
            out,
            p,
            VmdKind::Morph,
            first,
            a.morphs,
            second,
            b.morphs,
        );
        let r = vmd_output::write_section(
            out,
            q,
            VmdKind::Camera,
            first,
            a.cameras,
            second,
            b.cameras,
        );
        self.write_back(out, r)
    }

    // The records of both under a model name, where the output can hold them.
    fn write_take(
        &self,
        out: &mut [u8],
        edition: VmdEdition,
        model: &[u8],
    ) -> Result<u64, VmdRefusal>
        ensures result_value { answer_of result ≡ map_answer length (fitted (length out.old) (given (write_edition (edition_is edition) (take_of_both model.now self.now.first.file.now (scan_is self.now.first.sections) self.now.second.file.now (scan_is self.now.second.sections))))) }
        ensures out_after { out.new ≡ left out.old (fitted (length out.old) (given (write_edition (edition_is edition) (take_of_both model.now self.now.first.file.now (scan_is self.now.first.sections) self.now.second.file.now (scan_is self.now.second.sections))))) }
    {
        let _size = self.size(out.len(), edition)?;
        let to = vmd_output::write_header(out, edition, model);
        let end = self.write_sections(out, to);
        Ok(end as u64)
    }
}

// ---- scanning

// Two files whose counts added up fit 32 bits.
fn scan_both<'a>(
    manner: VmdManner,
    first: &'a [u8],
    second: &'a [u8],
) -> Result<VmdBoth<'a>, VmdRefusal>
    ensures found { answer (λ b. (scan_is b.first.sections, scan_is b.second.sections)) result ≡ scan_both (manner_of manner) first.now second.now }
    ensures same { IfOk result (λ b. (b.first.file.now ≡ first.now) × (b.second.file.now ≡ second.now)) }
{
    let a = vmd_scan::scan_file(first, manner)?;
    let b = vmd_scan::scan_file(second, manner)?;
    if sums_fit(a.sections, b.sections) {
        return Ok(VmdBoth {
            first: a,
            second: b,
        });
    }
    Err(VmdRefusal::CountTooLarge)
}

// A file whose model name has room in an edition. In the newer one every name that is read has.
fn scan_fitting<'a>(
    manner: VmdManner,
    edition: VmdEdition,
    file: &'a [u8],
) -> Result<VmdScanned<'a>, VmdRefusal>
    ensures found { answer (λ x. scan_is x.sections) result ≡ scan_fitting (edition_is edition) (manner_of manner) file.now }
    ensures same { IfOk result (λ x. x.file.now ≡ file.now) }
{
    let take = vmd_scan::scan_file(file, manner)?;
    if edition.model_width() < vmd_header::model_name(file).len() {
        return Err(VmdRefusal::ModelNameTooLong);
    }
    Ok(take)
}

// A take and nothing.
fn alone<'a>(take: VmdScanned<'a>) -> VmdBoth<'a>
    ensures { (scan_is result.first.sections ≡ scan_is take.entry.sections) × (result.first.file.now ≡ take.entry.file.now) × (scan_is result.second.sections ≡ no_scan) × (result.second.file.now ≡ take.entry.file.now) }
{
    let file = take.file;
    let sections = no_sections();
    VmdBoth {
        first: take,
        second: VmdScanned { file, sections },
    }
}

// ---- how long an output has to be

fn export_size(manner: VmdManner, edition: VmdEdition, file: &[u8]) -> Result<u64, VmdRefusal>
    ensures { answer_of result ≡ map_answer length (fitted 18446744073709551615 (edition_file (edition_is edition) (manner_of manner) file.now)) }
{
    let take = scan_fitting(manner, edition, file)?;
    alone(take).size(vmd_output::LARGEST, edition)
}

fn join_size(manner: VmdManner, first: &[u8], second: &[u8]) -> Result<u64, VmdRefusal>
    ensures { answer_of result ≡ join_size (manner_of manner) first.now second.now }
{
    let both = scan_both(manner, first, second)?;
    both.size(vmd_output::LARGEST, VmdEdition::Newer)
}

// ---- export and joining

// A take and nothing under a model name, where the output can hold them. They are put together here, where they are lent on: as
// the result of `alone` they would be copied by a call of memcpy, which the library wants nowhere else.
fn write_alone(
    take: VmdScanned,
    out: &mut [u8],
    edition: VmdEdition,
    model: &[u8],
) -> Result<u64, VmdRefusal>
    ensures result_value { answer_of result ≡ map_answer length (fitted (length out.old) (given (write_edition (edition_is edition) (take_of_both model.now take.entry.file.now (scan_is take.entry.sections) take.entry.file.now no_scan)))) }
    ensures out_after { out.new ≡ left out.old (fitted (length out.old) (given (write_edition (edition_is edition) (take_of_both model.now take.entry.file.now (scan_is take.entry.sections) take.entry.file.now no_scan)))) }
{
    let file = take.file;
    let sections = no_sections();
    let both = VmdBoth {
        first: take,
        second: VmdScanned { file, sections },
    };
    both.write_take(out, edition, model)
}

fn export(
    manner: VmdManner,
    edition: VmdEdition,
    out: &mut [u8],
    file: &[u8],
) -> Result<u64, VmdRefusal>
    ensures result_value { answer_of result ≡ map_answer length (fitted (length out.old) (edition_file (edition_is edition) (manner_of manner) file.now)) }
    ensures out_after { out.new ≡ left out.old (fitted (length out.old) (edition_file (edition_is edition) (manner_of manner) file.now)) }
{
    let take = scan_fitting(manner, edition, file)?;
    write_alone(take, out, edition, vmd_header::model_name(file))
}

// The first file's model name where that is not empty, else the second's.
pub fn joined_model<'a>(first: &'a [u8], second: &'a [u8]) -> &'a [u8]
    ensures { result.now ≡ joined_model (model_of first.now) (model_of second.now) }
{
    let name = vmd_header::model_name(first);
    if name.len() == 0 {
        return vmd_header::model_name(second);
    }
    name
}

fn join<'a>(
    manner: VmdManner,
    out: &mut [u8],
    first: &'a [u8],
    second: &'a [u8],
) -> Result<u64, VmdRefusal>
    ensures result_value { answer_of result ≡ joined_answer (manner_of manner) first.now second.now out.old }
    ensures out_after { out.new ≡ joined_output (manner_of manner) first.now second.now out.old }
{
    let both = scan_both(manner, first, second)?;
    both.write_take(out, VmdEdition::Newer, joined_model(first, second))
}

// ---- the calls, with the manner of reading named

// Writes the canonical file of a take at the front of out; a refusal leaves out as it was.
pub fn export_file(file: &[u8], manner: VmdManner, out: &mut [u8]) -> Result<u64, VmdRefusal>
    ensures result_value { answer_of result ≡ exported_answer (manner_of manner) file.now out.old }
    ensures out_after { out.new ≡ exported_output (manner_of manner) file.now out.old }
{
    export(manner, VmdEdition::Newer, out, file)
}

// How long its output has to be.
pub fn export_file_size(file: &[u8], manner: VmdManner) -> Result<u64, VmdRefusal>
    ensures { answer_of result ≡ export_size (manner_of manner) file.now }
{
    export_size(manner, VmdEdition::Newer, file)
}

// Writes the take in the older edition at the front of out; a refusal leaves out as it was.
pub fn export_older_file(file: &[u8], manner: VmdManner, out: &mut [u8]) -> Result<u64, VmdRefusal>
    ensures result_value { answer_of result ≡ older_answer (manner_of manner) file.now out.old }
    ensures out_after { out.new ≡ older_output (manner_of manner) file.now out.old }
{
    export(manner, VmdEdition::Older, out, file)
}

// How long its output has to be.
pub fn export_older_file_size(file: &[u8], manner: VmdManner) -> Result<u64, VmdRefusal>
    ensures { answer_of result ≡ older_size (manner_of manner) file.now }
{
    export_size(manner, VmdEdition::Older, file)
}

// Writes the join of two takes at the front of out; a refusal leaves out as it was.
pub fn join_files<'a>(
    first: &'a [u8],
    second: &'a [u8],
    manner: VmdManner,
    out: &mut [u8],
) -> Result<u64, VmdRefusal>
    ensures result_value { answer_of result ≡ joined_answer (manner_of manner) first.now second.now out.old }
    ensures out_after { out.new ≡ joined_output (manner_of manner) first.now second.now out.old }
{
    join(manner, out, first, second)
}

// How long its output has to be.
pub fn join_files_size(first: &[u8], second: &[u8], manner: VmdManner) -> Result<u64, VmdRefusal>
    ensures { answer_of result ≡ join_size (manner_of manner) first.now second.now }
{
    join_size(manner, first, second)
}

// ---- the same in the strict manner, which is meant where none is named

pub fn export_vmd_animation(file: &[u8], out: &mut [u8]) -> Result<u64, VmdRefusal>
    ensures result_value { answer_of result ≡ exported_answer strict file.now out.old }
    ensures out_after { out.new ≡ exported_output strict file.now out.old }
{
    export_file(file, VmdManner::Strict, out)
}

pub fn export_vmd_size(file: &[u8]) -> Result<u64, VmdRefusal>
    ensures { answer_of result ≡ export_size strict file.now }
{
    export_file_size(file, VmdManner::Strict)
}

pub fn export_older_vmd_animation(file: &[u8], out: &mut [u8]) -> Result<u64, VmdRefusal>
    ensures result_value { answer_of result ≡ older_answer strict file.now out.old }
    ensures out_after { out.new ≡ older_output strict file.now out.old }
{
    export_older_file(file, VmdManner::Strict, out)
}

pub fn export_older_vmd_size(file: &[u8]) -> Result<u64, VmdRefusal>
    ensures { answer_of result ≡ older_size strict file.now }
{
    export_older_file_size(file, VmdManner::Strict)
}

pub fn join_vmd_animations<'a>(
    first: &'a [u8],
    second: &'a [u8],
    out: &mut [u8],
) -> Result<u64, VmdRefusal>
    ensures result_value { answer_of result ≡ joined_answer strict first.now second.now out.old }
    ensures out_after { out.new ≡ joined_output strict first.now second.now out.old }
{
    join_files(first, second, VmdManner::Strict, out)
}

pub fn join_vmd_size(first: &[u8], second: &[u8]) -> Result<u64, VmdRefusal>
    ensures { answer_of result ≡ join_size strict first.now second.now }
{
    join_files_size(first, second, VmdManner::Strict)
}
