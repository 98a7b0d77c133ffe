// The beginning of a watch, and what it is asked.
ghost use Rattle.std.specs.Prelude.{◌≡◌, ◌≤◌};
ghost use Rattle.watch.specs.Feeding.{progress_of, begun, take_length};
ghost use Rattle.sheet.specs.Sheets.{sheet_of};

use crate::record::Watch;
use sheet::record::Sheet;

impl Watch {
    // A watch of this sheet that has accepted no frame.
    pub fn start(sheet: &Sheet) -> Watch
        ensures begun { progress_of result ≡ begun (sheet_of sheet.now) }
        ensures copy { result.sheet ≡ sheet.now }
    {
        Watch {
            sheet: *sheet,
            accepted: 0,
        }
    }

    // How many frames a take has.
    pub(super) fn frames(&self) -> usize
        ensures { result ≡ take_length (progress_of self.now).sheet }
    {
        self.sheet.length() as usize + 1
    }

    // How many frames it has accepted.
    pub fn accepted(&self) -> u16
        ensures count { result ≡ (progress_of self.now).count }
        ensures few { result ≤ 256 }
    {
        self.accepted
    }
}
