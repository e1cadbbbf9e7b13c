// Whether saving would leave a file as it is, and what it would touch first. Public: the pub calls ask nothing of their caller
// and write nothing, and each states its answer by an equation with a definition.
#![tactic(auto)]

ghost use Rattle.std.specs.Prelude.{◌≡◌, ◌≤◌, length};
ghost use Rattle.vmd_format.specs.Bytes.{u32_bytes};
ghost use Rattle.vmd_format.specs.Fetch.{model_of};
ghost use Rattle.vmd_format.specs.Read.{strict};
ghost use Rattle.vmd_format.specs.Take.{newer, write_header, write_take};
ghost use Rattle.vmd_laws.specs.ExportLaws.{take_in};
ghost use Rattle.vmd_laws.specs.Places.{Reaches};
ghost use Rattle.vmd_base.specs.Meaning.{answer, answer_of, manner_of, extent_is};
ghost use Rattle.vmd_records.specs.Kinds.{layout, size_of};
ghost use Rattle.vmd_scan.specs.Meaning.{scan_is};
ghost use Rattle.vmd_form.specs.Canonical.{canonical, first_change};
ghost use Rattle.vmd_form.specs.Compare.{compare_at, change_at};
ghost use Rattle.vmd_form.specs.Laying.{Laid, HeaderRead, ScannedFrom, section_bytes, frames_bytes};
ghost use Rattle.vmd_compare.specs.Meaning.{compared_is};
ghost use Rattle.vmd_canonical.specs.Meaning.{change_is};

use vmd_base::{VmdManner, VmdRefusal, VmdSection};
use vmd_compare::VmdDifference;
use vmd_records::VmdKind;
use vmd_scan::scanned::VmdScanned;

// ---- the parts of a file, one after another

// The magic and the model name.
fn compare_header(file: &[u8]) -> Result<usize, VmdDifference>
    requires { HeaderRead file.now }
    ensures { compared_is result ≡ compare_at file.now 0 (write_header newer (model_of file.now)) }
{
    let name = vmd_compare::compare_bytes(file, 0, &vmd_base::VMD_MAGIC)?;
    vmd_compare::compare_name(file, name, vmd_base::MODEL_WIDTH)
}

fn compare_count(file: &[u8], at: usize, n: u32) -> Result<usize, VmdDifference>
    requires { at ≤ length file.now }
    ensures { compared_is result ≡ compare_at file.now at (u32_bytes n) }
{
    vmd_compare::compare_bytes(file, at, &n.to_le_bytes())
}

// A section: its count, and then its records.
fn compare_section(
    file: &[u8],
    at: usize,
    kind: VmdKind,
    x: VmdSection,
) -> Result<usize, VmdDifference>
    requires { (at ≤ length file.now) × Laid (size_of kind) file.now at (extent_is x) }
    ensures { compared_is result ≡ compare_at file.now at (section_bytes (layout kind) file.now (extent_is x)) }
{
    let records = compare_count(file, at, x.count)?;
    vmd_compare::compare_records(file, records, kind, x.count as usize)
}

fn compare_property_section(file: &[u8], at: usize, x: VmdSection) -> Result<usize, VmdDifference>
    requires { (at ≤ length file.now) × Laid 9 file.now at (extent_is x) × Reaches file.now x.count x.place }
    ensures { compared_is result ≡ compare_at file.now at (frames_bytes file.now (extent_is x)) }
{
    let frames = compare_count(file, at, x.count)?;
    vmd_compare::compare_properties(file, frames, x.count as usize)
}

// A file that was scanned, each section where the one before ended.
fn compare_file(take: &VmdScanned) -> Result<usize, VmdDifference>
    requires { ScannedFrom take.now.file.now (scan_is take.now.sections) }
    ensures { compared_is result ≡ compare_at take.now.file.now 0 (write_take (take_in take.now.file.now (scan_is take.now.sections))) }
{
    let file = take.file;
    let x = take.sections;
    let bones = compare_header(file)?;
    let morphs = compare_section(file, bones, VmdKind::Bone, x.bones)?;
    let cameras = compare_section(file, morphs, VmdKind::Morph, x.morphs)?;
    let lights = compare_section(file, cameras, VmdKind::Camera, x.cameras)?;
    let shadows = compare_section(file, lights, VmdKind::Light, x.lights)?;
    let properties = compare_section(file, shadows, VmdKind::SelfShadow, x.self_shadows)?;
    compare_property_section(file, properties, x.properties)
}

// The first change where a file that has so many bytes was compared.
fn change_found(file: &[u8], compared: Result<usize, VmdDifference>) -> Option<u64>
    ensures { change_is result ≡ change_at (length file.now) (compared_is compared) }
{
    match compared {
        Err(difference) => Some(difference.at as u64),
        Ok(end) if end < file.len() => Some(end as u64),
        Ok(_) => None,
    }
}

// ---- the calls, with the manner of reading named

// What saving would touch first: the first place at which the file and its export differ or just one of them has ended. The
// whole file is read before it is compared: a refusal comes before any change.
pub fn first_file_change(file: &[u8], manner: VmdManner) -> Result<Option<u64>, VmdRefusal>
    ensures { answer change_is result ≡ first_change (manner_of manner) file.now }
{
    let take = vmd_scan::scan_file(file, manner)?;
    Ok(change_found(file, compare_file(&take)))
}

// Whether saving would leave the file as it is.
pub fn is_canonical_file(file: &[u8], manner: VmdManner) -> Result<bool, VmdRefusal>
    ensures { answer_of result ≡ canonical (manner_of manner) file.now }
{
    let change = first_file_change(file, manner)?;
    Ok(change.is_none())
}

// ---- the same in the strict manner, which is meant where none is named

pub fn first_vmd_change(file: &[u8]) -> Result<Option<u64>, VmdRefusal>
    ensures { answer change_is result ≡ first_change strict file.now }
{
    first_file_change(file, VmdManner::Strict)
}

pub fn is_canonical_vmd_animation(file: &[u8]) -> Result<bool, VmdRefusal>
    ensures { answer_of result ≡ canonical strict file.now }
{
    is_canonical_file(file, VmdManner::Strict)
}
