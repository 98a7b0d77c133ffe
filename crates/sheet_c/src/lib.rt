// The check of a sheet as C calls it: the static library over the crate `sheet`.
#![tactic(auto)]

ghost use Rattle.std.specs.Prelude.{◌≡◌};
ghost use Rattle.sheet.specs.Loading.{load_result};
ghost use Rattle.sheet.specs.Sheets.{check_number};

// 0 where the bytes are a sheet, else 256 times the refusal's number, plus the row.
#[unsafe(no_mangle)]
pub extern "C" fn check(bytes: &[u8]) -> u32
    ensures { result ≡ check_number (load_result bytes.now) }
{
    sheet::check::check(bytes)
}
