ghost use Rattle.vmd_laws.specs.BytesLaws.{Bytes};
ghost use Rattle.vmd_laws.specs.ScanLaws.{ExtentWithin};
ghost use Rattle.vmd_base.specs.Meaning.{extent_is};
ghost use Rattle.vmd_records.specs.Kinds.{size_of};
ghost use Rattle.vmd_scan.specs.ScannedProp.{extent_prop};

use vmd_base::VmdSection;
use vmd_records::VmdKind;

// The records of a section, all of one kind: they lie in the file.
#[derive(Clone, Copy, Debug)]
pub struct VmdRecords<'a> {
    pub file: &'a [u8],
    pub kind: VmdKind,
    pub section: VmdSection,
    pub ghost inside: { ExtentWithin (size_of kind) file.now (extent_is section) } by { extent_prop (size_of kind) file.now (extent_is section) },
    pub ghost bytes: { Bytes file.now },
}
