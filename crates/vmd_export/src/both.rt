ghost use Rattle.vmd_scan.specs.Meaning.{scan_is};
ghost use Rattle.vmd_export.specs.Together.{Sums};

use vmd_scan::scanned::VmdScanned;

// Two takes that are written one after the other. The counts added up fit 32 bits, and the IK states 64.
#[derive(Clone, Copy, Debug)]
pub struct VmdBoth<'a> {
    pub first: VmdScanned<'a>,
    pub second: VmdScanned<'a>,
    pub ghost sums: { Sums (scan_is first.sections) (scan_is second.sections) },
}
