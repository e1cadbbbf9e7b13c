ghost use Rattle.vmd_laws.specs.BytesLaws.{Bytes};
ghost use Rattle.vmd_laws.specs.ExportLaws.{Scanned};
ghost use Rattle.vmd_scan.specs.Meaning.{scan_is};
ghost use Rattle.vmd_scan.specs.ScannedProp.{scanned_prop};

use crate::VmdSections;

// A file and its sections, as a scan finds them: their records lie in the file, and the IK states are those of its frames.
#[derive(Clone, Copy, Debug)]
pub struct VmdScanned<'a> {
    pub file: &'a [u8],
    pub sections: VmdSections,
    pub ghost scanned: { Scanned file.now (scan_is sections) } by { scanned_prop file.now (scan_is sections) },
    pub ghost bytes: { Bytes file.now },
}
