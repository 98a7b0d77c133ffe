// The one call of the patch editor, which is written in C.
ghost use Rattle.std.specs.Prelude.{◌≡◌};
ghost use Rattle.sheet.specs.Loading.{load_result};
ghost use Rattle.sheet.specs.Sheets.{check_number};

use crate::record::Sheet;

// 0 where the bytes are a sheet, else 256 times the refusal's number, plus the row.
#[unsafe(no_mangle)]
pub extern "C" fn check(bytes: &[u8]) -> u32
    ensures { result ≡ check_number (load_result bytes.now) }
{
    let mut sheet = Sheet::new();
    match sheet.load(bytes) {
        Ok(()) => 0,
        Err(fault) => 256 * u32::from(fault.refusal.number()) + u32::from(fault.row),
    }
}
