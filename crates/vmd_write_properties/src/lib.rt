// Property frames and their IK states, read from a file and written in canonical form. Internal: callers see to the room.
#![tactic(auto)]

ghost use Rattle.std.specs.Prelude.{◌≡◌, ◌+◌, ◌-◌, ◌≤◌, length};
ghost use Rattle.vmd_format.specs.Read.{write_all};
ghost use Rattle.vmd_format.specs.Fetch.{next_frame};
ghost use Rattle.vmd_laws.specs.Places.{Reaches};
ghost use Rattle.vmd_laws.specs.PlacesLaws.{property_in, frames_in};
ghost use Rattle.vmd_format.specs.Take.{property};
ghost use Rattle.vmd_bytes.specs.Written.{Room, Wrote};

use vmd_records::{VmdParsedIkState, VmdParsedPropertyFrame, VmdRecord};

// Where a byte or a count stands in its record.
const VISIBLE: usize = VmdParsedPropertyFrame::VISIBLE_OFFSET;

const IK_COUNT: usize = VmdParsedPropertyFrame::IK_COUNT_OFFSET;

// How many bytes the property frame at a place has, its IK states included.
#[tactic(auto, unfolding(vmd_format::specs::Fetch::next_frame))]
fn property_length(src: &[u8], at: usize) -> usize
    requires { at + 9 ≤ length src.now }
    ensures { at + result ≡ next_frame src.now at }
{
    let states = vmd_bytes::read_u32_le(src, at + IK_COUNT);
    VmdParsedPropertyFrame::SIZE + states as usize * VmdParsedIkState::SIZE
}

// One property frame with its IK states. The result is the place after it.
#[tactic(auto, unfolding(vmd_format::specs::Fetch::next_frame))]
fn write_property(out: &mut [u8], to: usize, src: &[u8], at: usize) -> usize
    requires { (next_frame src.now at ≤ length src.now) × (to + (next_frame src.now at - at) ≤ length out.old) }
    ensures { Wrote out.old to (property.write (property_in src.now at)) out.new result }
{
    let frame = vmd_bytes::read_u32_le(src, at);
    vmd_bytes::write_u32_le(out, to, frame);
    let read = src[at + VISIBLE];
    let flag = vmd_bytes::canonical_flag(read);
    out[to + VISIBLE] = flag;
    let count = vmd_bytes::read_u32_le(src, at + IK_COUNT);
    vmd_bytes::write_u32_le(out, to + IK_COUNT, count);
    vmd_writers::write_each::<VmdParsedIkState>(
        out,
        to + VmdParsedPropertyFrame::SIZE,
        src,
        at + VmdParsedPropertyFrame::SIZE,
        count as usize,
    )
}

// n property frames one after another.
pub fn write_properties(out: &mut [u8], to: usize, src: &[u8], at: usize, n: usize) -> usize
    requires { Reaches src.now n at × Room out.old to (write_all property.write (frames_in src.now n at)) }
    ensures { Wrote out.old to (write_all property.write (frames_in src.now n at)) out.new result }
{
    let mut p = at;
    let mut q = to;
    for _ in 0..n {
        let size = property_length(src, p);
        q = write_property(out, q, src, p);
        p += size;
    }
    q
}
