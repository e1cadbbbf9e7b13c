// An excerpt of a take: the records whose frame lies between a first and a last, both included, with the first subtracted from
// each frame. Public: the pub calls ask nothing of their caller, and each states its answer, and every byte lent, by an
// equation with a definition.
#![tactic(auto)]

ghost use Rattle.std.specs.Prelude.{◌≡◌, length};
ghost use Rattle.vmd_format.specs.Answer.{given, map_answer, fitted, within, left};
ghost use Rattle.vmd_format.specs.Read.{strict};
ghost use Rattle.vmd_base.specs.Meaning.{answer, answer_of, manner_of};
ghost use Rattle.vmd_scan.specs.Meaning.{scan_is};
ghost use Rattle.vmd_bytes.specs.Written.{Room, Wrote};
ghost use Rattle.vmd_excerpt.specs.Excerpted.{excerpt_file, excerpted_answer, excerpted_output, excerpt_size};
ghost use Rattle.vmd_excerpt.specs.Meaning.{bytes_of};
ghost use Rattle.vmd_excerpt.specs.Stages.{front_bytes, back_bytes};

use vmd_base::{VmdCounts, VmdEdition, VmdManner, VmdRefusal};
use vmd_excerpt_sections::VmdSpan;
use vmd_records::VmdKind;
use vmd_scan::scanned::VmdScanned;

// A take that was scanned, and the frames of an excerpt of it.
#[derive(Clone, Copy, Debug)]
struct VmdExcerpt<'a> {
    take: VmdScanned<'a>,
    span: VmdSpan,
}

impl<'a> VmdExcerpt<'a> {
    // How long it is, its records counted, where that is within a limit.
    fn size(&self, limit: usize) -> Result<u64, VmdRefusal>
        ensures { answer_of result ≡ within limit (length (bytes_of self.now)) }
    {
        let take = self.take;
        let span = self.span;
        let bones = vmd_excerpt_sections::count_records(take.records(VmdKind::Bone), span);
        let morphs = vmd_excerpt_sections::count_records(take.records(VmdKind::Morph), span);
        let cameras = vmd_excerpt_sections::count_records(take.records(VmdKind::Camera), span);
        let lights = vmd_excerpt_sections::count_records(take.records(VmdKind::Light), span);
        let shadows = take.records(VmdKind::SelfShadow);
        let self_shadows = vmd_excerpt_sections::count_records(shadows, span);
        let frames = vmd_excerpt_sections::count_properties(take.property_frames(), span);
        let counts = VmdCounts {
            bones,
            morphs,
            cameras,
            lights,
            self_shadows,
            properties: frames.frames,
        };
        vmd_output::file_size(limit, VmdEdition::Newer, counts, frames.ik_states)
    }

    // Whether it is within a limit. It is not longer than the export: only where that is too long are its records counted.
    fn fit(&self, limit: usize) -> Result<(), VmdRefusal>
        ensures { answer (λ done. length (bytes_of self.now)) result ≡ within limit (length (bytes_of self.now)) }
    {
        let x = self.take.sections;
        match vmd_output::file_size(limit, VmdEdition::Newer, x.counts(), x.ik_states) {
            Ok(_) => Ok(()),
            Err(_) => {
                self.size(limit)?;
                Ok(())
            }
        }
    }

    // Bones, morphs and cameras. The result is the place after them. Not inlined, and the next one neither: their loops then keep
    // the ends of the span in registers.
    #[inline(never)]
    fn write_front(&self, out: &mut [u8], to: usize) -> usize
        requires { Room out.old to (front_bytes self.now.span.first self.now.span.last self.now.take.file.now (scan_is self.now.take.sections)) }
        ensures { Wrote out.old to (front_bytes self.now.span.first self.now.span.last self.now.take.file.now (scan_is self.now.take.sections)) out.new result }
    {
        let take = self.take;
        let span = self.span;
        let bones = take.records(VmdKind::Bone);
        let morphs = take.records(VmdKind::Morph);
        let cameras = take.records(VmdKind::Camera);
        let p = vmd_excerpt_sections::write_section(out, to, bones, span);
        let q = vmd_excerpt_sections::write_section(out, p, morphs, span);
        vmd_excerpt_sections::write_section(out, q, cameras, span)
    }

    // Lights, self-shadows and properties.
    #[inline(never)]
    fn write_back(&self, out: &mut [u8], to: usize) -> usize
        requires { Room out.old to (back_bytes self.now.span.first self.now.span.last self.now.take.file.now (scan_is self.now.take.sections)) }
        ensures { Wrote out.old to (back_bytes self.now.span.first self.now.span.last self.now.take.file.now (scan_is self.now.take.sections)) out.new result }
    {
        let take = self.take;
        let span = self.span;
        let lights = take.records(VmdKind::Light);
        let self_shadows = take.records(VmdKind::SelfShadow);
        let properties = take.property_frames();
        let p = vmd_excerpt_sections::write_section(out, to, lights, span);
        let q = vmd_excerpt_sections::write_section(out, p, self_shadows, span);
        vmd_excerpt_sections::write_property_section(out, q, properties, span)
    }

    // Writes it at the front of out, where it has room; a refusal leaves out as it was.
    fn write(&self, out: &mut [u8]) -> Result<u64, VmdRefusal>
        ensures result_value { answer_of result ≡ map_answer length (fitted (length out.old) (given (bytes_of self.now))) }
        ensures out_after { out.new ≡ left out.old (fitted (length out.old) (given (bytes_of self.now))) }
    {
        self.fit(out.len())?;
        let model = vmd_header::model_name(self.take.file);
        let to = vmd_output::write_header(out, VmdEdition::Newer, model);
        let p = self.write_front(out, to);
        let end = self.write_back(out, p);
        Ok(end as u64)
    }
}

// The excerpt of a file. The frames are compared before the file is read.
fn excerpt_of<'a>(
    file: &'a [u8],
    manner: VmdManner,
    first: u32,
    last: u32,
) -> Result<VmdExcerpt<'a>, VmdRefusal>
    ensures { answer bytes_of result ≡ excerpt_file (manner_of manner) first last file.now }
{
    if last < first {
        return Err(VmdRefusal::FirstAboveLast);
    }
    let take = vmd_scan::scan_file(file, manner)?;
    let span = VmdSpan { first, last };
    Ok(VmdExcerpt { take, span })
}

// ---- the calls, with the manner of reading named

// Writes the excerpt of a take at the front of out; a refusal leaves out as it was.
pub fn excerpt_file(
    file: &[u8],
    manner: VmdManner,
    first: u32,
    last: u32,
    out: &mut [u8],
) -> Result<u64, VmdRefusal>
    ensures result_value { answer_of result ≡ excerpted_answer (manner_of manner) first last file.now out.old }
    ensures out_after { out.new ≡ excerpted_output (manner_of manner) first last file.now out.old }
{
    let piece = excerpt_of(file, manner, first, last)?;
    piece.write(out)
}

// How long its output has to be.
pub fn excerpt_file_size(
    file: &[u8],
    manner: VmdManner,
    first: u32,
    last: u32,
) -> Result<u64, VmdRefusal>
    ensures { answer_of result ≡ excerpt_size (manner_of manner) first last file.now }
{
    let piece = excerpt_of(file, manner, first, last)?;
    piece.size(vmd_output::LARGEST)
}

// ---- the same in the strict manner, which is meant where none is named

pub fn excerpt_vmd_animation(
    file: &[u8],
    first: u32,
    last: u32,
    out: &mut [u8],
) -> Result<u64, VmdRefusal>
    ensures result_value { answer_of result ≡ excerpted_answer strict first last file.now out.old }
    ensures out_after { out.new ≡ excerpted_output strict first last file.now out.old }
{
    excerpt_file(file, VmdManner::Strict, first, last, out)
}

pub fn excerpt_vmd_size(file: &[u8], first: u32, last: u32) -> Result<u64, VmdRefusal>
    ensures { answer_of result ≡ excerpt_size strict first last file.now }
{
    excerpt_file_size(file, VmdManner::Strict, first, last)
}
