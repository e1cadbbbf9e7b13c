// The test of a name's bytes. Internal, but for first_fault, which asks nothing of its caller.
#![tactic(auto)]

ghost use Rattle.std.specs.Prelude.{◌≡◌, ℕ, cond, ◌&&◌, ◌||◌, ◌-◌, ◌≤◌, ◌<◌, length, drop, ltb, Some, None};
ghost use Rattle.vmd_format.specs.Bytes.{before_zero};
ghost use Rattle.vmd_format.specs.Characters.{between, pointer};
ghost use Rattle.vmd_format.specs.Names.{single, lead, trail, pair, unit, fault, good};
ghost use Rattle.vmd_format.specs.Parts.{Check, need, each, upto, name_check};
ghost use Rattle.vmd_base.specs.Meaning.{refusal_of};
ghost use Rattle.vmd_names.specs.Meaning.{check_of, unit_if_any};

use vmd_base::VmdRefusal;
use vmd_presence::VmdPresence;

// How many trails a lead has.
const TRAILS: usize = 188;

// ---- names

// A byte that stands for itself.
fn is_single(b: u8) -> bool
    ensures { result ≡ single b }
{
    b <= 0x80 || vmd_bytes::between(0xA1, 0xDF, b)
}

// The number of a byte among those from low to end and from gap to last, which are counted from low and, from gap on, from high.
fn number_among(b: u8, low: u8, end: u8, gap: u8, last: u8, high: u8) -> Option<usize>
    requires { (end < gap) × (high ≤ gap) }
    ensures { result ≡ cond (between low end b || between gap last b) (Some (b - cond (ltb b gap) low high)) None }
{
    if vmd_bytes::between(low, end, b) {
        Some((b - low) as usize)
    } else if vmd_bytes::between(gap, last, b) {
        Some((b - high) as usize)
    } else {
        None
    }
}

// The pointer of a lead and a trail, where the Shift_JIS decoder looks for their character.
fn pointer_of(a: u8, b: u8) -> Option<usize>
    ensures { result ≡ cond (lead a && trail b) (Some (pointer a b)) None }
{
    let lead = number_among(a, 0x81, 0x9F, 0xE0, 0xFC, 0xC1)?;
    let trail = number_among(b, 0x40, 0x7E, 0x80, 0xFC, 0x41)?;
    Some(lead * TRAILS + trail)
}

// A lead and a trail that have a character.
fn is_pair(presence: &VmdPresence, a: u8, b: u8) -> bool
    ensures { result ≡ pair a b }
{
    match pointer_of(a, b) {
        Some(pointer) => presence.has_character(pointer),
        None => false,
    }
}

// How many bytes the good single byte or the good pair at a place has.
fn unit_at(presence: &VmdPresence, bytes: &[u8], at: usize) -> Option<usize>
    requires { at < length bytes.now }
    ensures { result ≡ unit_if_any (unit (drop at bytes.now)) }
{
    if is_single(bytes[at]) {
        return Some(1);
    }
    if bytes.len() - at < 2 {
        return None;
    }
    if is_pair(presence, bytes[at], bytes[at + 1]) {
        Some(2)
    } else {
        None
    }
}

// The place of the first byte that starts neither. The length where all is good, and no Option: the definition `fault` has it so,
// and C is given a length.
fn fault_by(presence: &VmdPresence, bytes: &[u8]) -> usize
    ensures { result ≡ fault bytes.now }
{
    let mut i = 0;
    // A step is one byte or two, by what was read: no range or chunks have such steps.
    while i < bytes.len() {
        let Some(n) = unit_at(presence, bytes, i) else {
            return i;
        };
        i += n;
    }
    i
}

pub fn first_fault(bytes: &[u8]) -> usize
    ensures { result ≡ fault bytes.now }
{
    fault_by(&vmd_presence::presence(), bytes)
}

// Whether the name in a field, which ends before its first zero byte, is good: in one pass, since a zero byte is no trail.
pub fn good_field(presence: &VmdPresence, field: &[u8]) -> bool
    ensures { result ≡ good (before_zero field.now) }
{
    let mut i = 0;
    // Steps of one byte or two, as above.
    while i < field.len() {
        if field[i] == 0 {
            return true;
        }
        let Some(passed) = unit_at(presence, field, i) else {
            return false;
        };
        i += passed;
    }
    true
}

// A name that fits its field: not too long, no zero byte, and good.
pub fn name_check(presence: &VmdPresence, bytes: &[u8], width: usize) -> Result<(), VmdRefusal>
    ensures { check_of result ≡ name_check width bytes.now }
{
    if width < bytes.len() || vmd_bytes::trim_fixed_bytes(bytes).len() != bytes.len() {
        return Err(VmdRefusal::NameUnfit);
    }
    need(
        fault_by(presence, bytes) == bytes.len(),
        VmdRefusal::NameNotGood,
    )
}

// ---- checks one after another

// One test, and the refusal where it is not met.
#[tactic(auto, unfolding(vmd_format::specs::Parts::need))]
pub fn need(met: bool, refusal: VmdRefusal) -> Result<(), VmdRefusal>
    ensures { check_of result ≡ need met (refusal_of refusal) }
{
    if met { Ok(()) } else { Err(refusal) }
}

// The checks of the first n indices in turn: the first that fails is the answer.
pub fn check_each<F: Fn(usize) -> Result<(), VmdRefusal>>(
    n: usize,
    check: F,
) -> Result<(), VmdRefusal>
    requires { (i : ℕ) → i < n → F.pre check i }
    ensures { (f : ℕ → Check) → ((i : ℕ) (r : _) → i < n → F.post check i r → check_of r ≡ f i) → check_of result ≡ each f (upto 0 n) }
{
    for i in 0..n {
        check(i)?;
    }
    Ok(())
}
