// Checks of record bytes: cameras, lights, self-shadows and property frames, each read as the layouts do. Internal. Bytes and a
// place stand side by side, as in vmd_bytes.
#![tactic(auto)]

ghost use Rattle.std.specs.Prelude.{◌≡◌, true, ◌+◌, ◌*◌, ◌≤◌, ◌<◌, length, drop};
ghost use Rattle.vmd_format.specs.Records.{camera, light, self_shadow, ik_state};
ghost use Rattle.vmd_format.specs.Read.{table};
ghost use Rattle.vmd_format.specs.Parts.{each, records_of, camera_check, light_check, self_shadow_check, ik_check, property_check, is_got, frames, properties_of};
ghost use Rattle.vmd_names.specs.Meaning.{check_of};
ghost use Rattle.vmd_check_records.specs.Meaning.{frames_of};
ghost use Rattle.vmd_check_records.specs.Stages.{finite_words, counted};

use vmd_base::VmdRefusal;
use vmd_names::{check_each, need};
use vmd_presence::VmdPresence;
use vmd_records::{
    VmdParsedCameraFrame, VmdParsedIkState, VmdParsedLightFrame, VmdParsedPropertyFrame,
    VmdParsedSelfShadowFrame, VmdRecord,
};

// ---- record bytes

// Where a record that begins with its frame has what follows.
const AFTER_FRAME: usize = 4;

// The floats of a camera and of a light, one after another.
const CAMERA_FLOATS: usize = 7;

const LIGHT_FLOATS: usize = 6;

// Where a self-shadow has its distance, after its mode.
const DISTANCE: usize = 5;

// Whether n floats one after another are finite, by their bits.
fn finite_words(bytes: &[u8], at: usize, n: usize) -> bool
    requires { at + n * 4 ≤ length bytes.now }
    ensures { result ≡ finite_words true n (drop at bytes.now) }
{
    let mut finite = true;
    // All n are tested, side by side: fewer branches than one for each.
    for i in 0..n {
        let bits = vmd_bytes::read_u32_le(bytes, at + i * 4);
        finite = finite & vmd_bytes::is_finite_bits(bits);
    }
    finite
}

fn camera_check(bytes: &[u8], at: usize) -> Result<(), VmdRefusal>
    requires { at + 61 ≤ length bytes.now }
    ensures { check_of result ≡ camera_check (camera.decode (drop at bytes.now)) }
{
    need(
        finite_words(bytes, at + AFTER_FRAME, CAMERA_FLOATS),
        VmdRefusal::NotFinite,
    )
}

fn light_check(bytes: &[u8], at: usize) -> Result<(), VmdRefusal>
    requires { at + 28 ≤ length bytes.now }
    ensures { check_of result ≡ light_check (light.decode (drop at bytes.now)) }
{
    need(
        finite_words(bytes, at + AFTER_FRAME, LIGHT_FLOATS),
        VmdRefusal::NotFinite,
    )
}

fn self_shadow_check(bytes: &[u8], at: usize) -> Result<(), VmdRefusal>
    requires { at + 9 ≤ length bytes.now }
    ensures { check_of result ≡ self_shadow_check (self_shadow.decode (drop at bytes.now)) }
{
    need(
        finite_words(bytes, at + DISTANCE, 1) && bytes[at + AFTER_FRAME] <= 2,
        VmdRefusal::SelfShadowUnfit,
    )
}

// The name of an IK state ends before its first zero byte.
fn ik_check(presence: &VmdPresence, bytes: &[u8], at: usize) -> Result<(), VmdRefusal>
    requires { at + 21 ≤ length bytes.now }
    ensures { check_of result ≡ ik_check (ik_state.decode (drop at bytes.now)) }
{
    let field = &bytes[at..at + VmdParsedIkState::NAME_WIDTH];
    need(
        vmd_names::good_field(presence, field),
        VmdRefusal::NameNotGood,
    )
}

// Not inlined: amid other checks, how fast the loop is would hang on where it happens to lie (up to a quarter).
#[inline(never)]
pub fn cameras_check(bytes: &[u8]) -> Result<(), VmdRefusal>
    ensures { check_of result ≡ each camera_check (records_of camera bytes.now) }
{
    let n = bytes.len() / VmdParsedCameraFrame::SIZE;
    check_each(n, |i| camera_check(bytes, i * VmdParsedCameraFrame::SIZE))
}

pub fn lights_check(bytes: &[u8]) -> Result<(), VmdRefusal>
    ensures { check_of result ≡ each light_check (records_of light bytes.now) }
{
    let n = bytes.len() / VmdParsedLightFrame::SIZE;
    check_each(n, |i| light_check(bytes, i * VmdParsedLightFrame::SIZE))
}

pub fn self_shadows_check(bytes: &[u8]) -> Result<(), VmdRefusal>
    ensures { check_of result ≡ each self_shadow_check (records_of self_shadow bytes.now) }
{
    let n = bytes.len() / VmdParsedSelfShadowFrame::SIZE;
    check_each(n, |i| {
        self_shadow_check(bytes, i * VmdParsedSelfShadowFrame::SIZE)
    })
}

// The names of n IK states one after another. Not inlined: the walk over frames keeps its place in a register.
#[inline(never)]
fn ik_states_check(
    presence: &VmdPresence,
    bytes: &[u8],
    place: usize,
    n: usize,
) -> Result<(), VmdRefusal>
    requires { place + n * 21 ≤ length bytes.now }
    ensures { check_of result ≡ each ik_check (table ik_state n (drop place bytes.now)) }
{
    check_each(n, |i| {
        ik_check(presence, bytes, place + i * VmdParsedIkState::SIZE)
    })
}

// ---- property frames

// Over property frames until the bytes are at their end: how many, where the frames end with the bytes.
fn count_frames(bytes: &[u8]) -> Option<usize>
    ensures { frames_of result ≡ counted (frames bytes.now) }
{
    let mut at = 0;
    let mut n = 0;
    // A step is as long as the frame says: no range or chunks have such steps.
    while at < bytes.len() {
        if bytes.len() - at < VmdParsedPropertyFrame::SIZE {
            return None;
        }
        let count = vmd_bytes::read_u32_le(bytes, at + VmdParsedPropertyFrame::IK_COUNT_OFFSET);
        let states = (count as usize) * VmdParsedIkState::SIZE;
        if bytes.len() - at - VmdParsedPropertyFrame::SIZE < states {
            return None;
        }
        at = at + VmdParsedPropertyFrame::SIZE + states;
        n += 1;
    }
    Some(n)
}

pub fn frames_whole(bytes: &[u8]) -> bool
    ensures { result ≡ is_got (frames bytes.now) }
{
    count_frames(bytes).is_some()
}

// How many property frames there are; none where they do not end with the bytes. 0 and no Option: the definition
// `properties_of` has none there.
pub fn property_count(bytes: &[u8]) -> usize
    ensures { result ≡ length (properties_of bytes.now) }
{
    count_frames(bytes).unwrap_or(0)
}

// The IK names of the property frames in turn.
pub fn properties_check(presence: &VmdPresence, bytes: &[u8]) -> Result<(), VmdRefusal>
    requires { is_got (frames bytes.now) ≡ true }
    ensures { check_of result ≡ each property_check (properties_of bytes.now) }
{
    let n = property_count(bytes);
    let mut at = 0;
    for _ in 0..n {
        let states = vmd_bytes::read_u32_le(bytes, at + VmdParsedPropertyFrame::IK_COUNT_OFFSET);
        let first = at + VmdParsedPropertyFrame::SIZE;
        ik_states_check(presence, bytes, first, states as usize)?;
        at = vmd_scan::next_property_frame(bytes, at);
    }
    Ok(())
}
