// Where records, names and interpolation bytes stand in a file. Internal: callers see to the lengths where a contract asks it.
#![tactic(auto)]

ghost use Rattle.std.specs.Prelude.{◌≡◌, ◌+◌, ◌≤◌, leb, length, take, drop};
ghost use Rattle.vmd_format.specs.Fetch.{record_place, next_place, walk_frames, frame_place, property_place};
ghost use Rattle.vmd_laws.specs.PlacesLaws.{Holds};
ghost use Rattle.vmd_base.specs.Meaning.{answer_of, extent_is};
ghost use Rattle.vmd_places.specs.Meaning.{ik_place};
ghost use Rattle.vmd_places.specs.Parts.{file_part, part_in, name_in, there};

use vmd_base::{FRAMES_PER_PLACE, VmdPart, VmdRefusal, VmdSection};
use vmd_records::{VmdParsedIkState, VmdParsedPropertyFrame, VmdRecord};

// ---- places

// Where record i of a section stands, all of it in the file.
pub fn place_of(
    file: &[u8],
    section: VmdSection,
    record_size: usize,
    i: usize,
) -> Result<usize, VmdRefusal>
    requires { record_size ≤ 111 }
    ensures { answer_of result ≡ record_place record_size (extent_is section) i file.now }
{
    let place = section.place;
    if (section.count as usize) <= i {
        return Err(VmdRefusal::Outside);
    }
    if file.len() < place {
        return Err(VmdRefusal::Outside);
    }
    let offset = i * record_size;
    if file.len() - place < offset + record_size {
        return Err(VmdRefusal::Outside);
    }
    Ok(place + offset)
}

// Whether the nine bytes of a property frame at a place lie in the file. No sum wraps.
fn holds_frame(file: &[u8], at: usize) -> bool
    ensures { result ≡ leb (at + 9) (length file.now) }
{
    if file.len() < at {
        return false;
    }
    VmdParsedPropertyFrame::SIZE <= file.len() - at
}

// Where the property frame at a place ends, with its IK states, and the next one stands; refused where not all of it lies in
// the file.
pub fn next_place(file: &[u8], at: usize) -> Result<usize, VmdRefusal>
    ensures { answer_of result ≡ next_place file.now at }
{
    if !holds_frame(file, at) {
        return Err(VmdRefusal::Outside);
    }
    let states = vmd_bytes::read_u32_le(file, at + VmdParsedPropertyFrame::IK_COUNT_OFFSET);
    let bytes = (states as usize) * VmdParsedIkState::SIZE;
    if file.len() - at - VmdParsedPropertyFrame::SIZE < bytes {
        return Err(VmdRefusal::Outside);
    }
    Ok(at + VmdParsedPropertyFrame::SIZE + bytes)
}

// The place after n property frames from a place on; refused where one of them does not lie in the file.
fn walk_frames(file: &[u8], place: usize, n: usize) -> Result<usize, VmdRefusal>
    ensures { answer_of result ≡ walk_frames file.now n place }
{
    let mut at = place;
    for _ in 0..n {
        at = next_place(file, at)?;
    }
    Ok(at)
}

// A property frame at a place: its nine bytes lie in the file.
fn frame_place(file: &[u8], at: usize) -> Result<usize, VmdRefusal>
    ensures { answer_of result ≡ frame_place file.now at }
{
    if holds_frame(file, at) {
        return Ok(at);
    }
    Err(VmdRefusal::Outside)
}

// Where property frame i stands: a walk leads to it from the place that the scratch names. Every call for property frames, IK
// states and IK names goes through here.
pub fn place_of_property(
    file: &[u8],
    section: VmdSection,
    scratch: &[u64],
    i: usize,
) -> Result<usize, VmdRefusal>
    ensures { answer_of result ≡ property_place (extent_is section) scratch.now i file.now }
{
    if i >= (section.count as usize) {
        return Err(VmdRefusal::Outside);
    }
    let j = i / FRAMES_PER_PLACE;
    if scratch.len() <= j {
        return Err(VmdRefusal::Outside);
    }
    let at = walk_frames(file, scratch[j] as usize, i % FRAMES_PER_PLACE)?;
    frame_place(file, at)
}

// Where IK state j of property frame i stands.
pub fn place_of_ik_state(
    file: &[u8],
    section: VmdSection,
    scratch: &[u64],
    i: usize,
    j: usize,
) -> Result<usize, VmdRefusal>
    ensures { answer_of result ≡ ik_place (extent_is section) scratch.now i j file.now }
{
    let at = place_of_property(file, section, scratch, i)?;
    let count = vmd_bytes::read_u32_le(file, at + VmdParsedPropertyFrame::IK_COUNT_OFFSET);
    let place = at + VmdParsedPropertyFrame::SIZE;
    place_of(file, VmdSection { count, place }, VmdParsedIkState::SIZE, j)
}

// The bytes from a place on; none where it is past the end.
pub fn bytes_from<'a>(file: &'a [u8], at: usize) -> &'a [u8]
    ensures { result.now ≡ drop at file.now }
{
    if file.len() < at {
        return &file[..0];
    }
    &file[at..]
}

// ---- parts

// n bytes from a place on.
fn file_part(at: usize, n: usize) -> VmdPart
    ensures { result ≡ file_part at n }
{
    if n == 0 {
        return VmdPart { at: 0, len: 0 };
    }
    VmdPart { at, len: n }
}

// The name in a field of so many bytes.
pub fn name_at(file: &[u8], at: usize, width: usize) -> VmdPart
    requires { at + width ≤ length file.now }
    ensures { result ≡ file_part at (length (name_in width (drop at file.now))) }
{
    let n = vmd_bytes::trim_fixed_bytes(&file[at..at + width]).len();
    file_part(at, n)
}

// The name at the front of a record.
pub fn name_of(file: &[u8], place: Result<usize, VmdRefusal>, width: usize) -> VmdPart
    requires { Holds (λ at. at + width ≤ length file.now) (answer_of place) }
    ensures { result ≡ part_in (answer_of place) 0 (there (name_in width) 0 (answer_of place) file.now) }
{
    match place {
        Err(_) => VmdPart { at: 0, len: 0 },
        Ok(at) => name_at(file, at, width),
    }
}

// n bytes, so far into a record.
pub fn bytes_of(file: &[u8], place: Result<usize, VmdRefusal>, offset: usize, n: usize) -> VmdPart
    requires { Holds (λ at. at + offset + n ≤ length file.now) (answer_of place) }
    ensures { result ≡ part_in (answer_of place) offset (there (take n) offset (answer_of place) file.now) }
{
    match place {
        Err(_) => VmdPart { at: 0, len: 0 },
        Ok(at) => file_part(at + offset, n),
    }
}

// The bytes of a part.
pub fn cut<'a>(file: &'a [u8], part: VmdPart) -> &'a [u8]
    requires { part.at + part.len ≤ length file.now }
    ensures { result.now ≡ take part.len (drop part.at file.now) }
{
    let at = part.at;
    let end = at + part.len;
    &file[at..end]
}
