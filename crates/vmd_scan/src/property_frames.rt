ghost use Rattle.std.specs.Prelude.{◌≤◌, length};
ghost use Rattle.vmd_laws.specs.BytesLaws.{Bytes};
ghost use Rattle.vmd_laws.specs.Places.{Reaches};
ghost use Rattle.vmd_scan.specs.ScannedProp.{reaches_prop};

use vmd_base::VmdSection;

// The property frames of a section: they lie in the file, each with its IK states.
#[derive(Clone, Copy, Debug)]
pub struct VmdPropertyFrames<'a> {
    pub file: &'a [u8],
    pub section: VmdSection,
    pub ghost begins: { section.place ≤ length file.now },
    pub ghost reached: { Reaches file.now section.count section.place } by { reaches_prop file.now section.count section.place },
    pub ghost bytes: { Bytes file.now },
}
