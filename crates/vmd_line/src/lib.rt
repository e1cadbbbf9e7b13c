// The line that vmd-list prints for a file, on slices.
#![tactic(auto)]

ghost use Rattle.std.specs.Prelude.{◌≡◌, ◌≤◌, length};
ghost use Rattle.vmd_format.specs.Read.{lenient};
ghost use Rattle.vmd_base.specs.Meaning.{manner_of};
ghost use Rattle.vmd_bytes.specs.Slices.{splice};
ghost use Rattle.vmd_bytes.specs.Written.{Wrote};
ghost use Rattle.vmd_scan.specs.Meaning.{scan_is};
ghost use Rattle.vmd_reader.specs.Meaning.{opening_is};
ghost use Rattle.vmd_line.specs.Line.{row, refused_line, export_size, numbers, line, line_scratch};

use vmd_base::{VmdEdition, VmdManner};
use vmd_reader::VmdOpening;
use vmd_scan::VmdSections;

// The longest file that is listed.
const MOST_BYTES: usize = 65536;

const LINE_SIZE: usize = 256;

// How many numbers a line has.
const NUMBERS: usize = 10;

// Writes ten numbers with single spaces between them and a line feed, and returns their length.
fn write_row(out: &mut [u8; LINE_SIZE], numbers: &[u64; NUMBERS]) -> usize
    ensures { Wrote out.old 0 (row numbers.now) out.new result }
{
    let mut at = vmd_text::write_decimal(out, 0, numbers[0]);
    for i in 1..NUMBERS {
        out[at] = b' ';
        at = vmd_text::write_decimal(out, at + 1, numbers[i]);
    }
    out[at] = b'\n';
    at + 1
}

// Writes the line of a refusal, and returns its length.
fn write_refused(out: &mut [u8; LINE_SIZE], number: u32) -> usize
    ensures { Wrote out.old 0 (refused_line number) out.new result }
{
    let at = vmd_text::write_text(out, 0, b"refused ");
    let end = vmd_text::write_decimal(out, at, number as u64);
    vmd_text::write_text(out, end, b"\n")
}

// How long the export is. Few IK states, so that there is such a length.
fn export_size(sections: VmdSections) -> u64
    requires { sections.ik_states ≤ 65536 }
    ensures { result ≡ export_size (scan_is sections) }
{
    vmd_output::file_size(
        vmd_output::LARGEST,
        VmdEdition::Newer,
        sections.counts(),
        sections.ik_states,
    )
    .unwrap_or(0)
}

// The ten numbers of an opening.
fn numbers_of(opening: VmdOpening) -> [u64; NUMBERS]
    requires { opening.sections.ik_states ≤ 65536 }
    ensures { result ≡ numbers (opening_is opening) }
{
    let sections = opening.sections;
    let size = export_size(sections);
    [
        sections.bones.count as u64,
        sections.morphs.count as u64,
        sections.cameras.count as u64,
        sections.lights.count as u64,
        sections.self_shadows.count as u64,
        sections.properties.count as u64,
        sections.ik_states,
        opening.min_frame as u64,
        opening.max_frame as u64,
        size,
    ]
}

// Writes the line of a file, read in a manner, at the front of out, and returns its length. scratch is left as opening leaves
// it.
fn write_line(
    file: &[u8],
    manner: VmdManner,
    scratch: &mut [u64],
    out: &mut [u8; LINE_SIZE],
) -> usize
    ensures wrote { Wrote out.old 0 (line (manner_of manner) file.now (length scratch.old)) out.new result }
    ensures scratch_left { scratch.new ≡ line_scratch (manner_of manner) file.now scratch.old }
{
    if MOST_BYTES < file.len() {
        return vmd_text::write_text(out, 0, b"too long\n");
    }
    match vmd_reader::open_file(file, manner, scratch) {
        Err(k) => write_refused(out, k.number()),
        Ok(opening) => {
            let numbers = numbers_of(opening);
            write_row(out, &numbers)
        }
    }
}

// The line that vmd-list prints: that of the lenient manner (02 i).
pub fn list_line(file: &[u8], scratch: &mut [u64], out: &mut [u8; LINE_SIZE]) -> usize
    ensures out_after { out.new ≡ splice out.old 0 (line lenient file.now (length scratch.old)) }
    ensures value { result ≡ length (line lenient file.now (length scratch.old)) }
    ensures scratch_left { scratch.new ≡ line_scratch lenient file.now scratch.old }
{
    write_line(file, VmdManner::Lenient, scratch, out)
}
