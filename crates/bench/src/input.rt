// Reading a part of the input that has a known size.
ghost use Rattle.std.specs.Prelude.{◌≤◌, length, IfOk};
ghost use Rattle.bench.specs.Reading.{ReadsUpTo, ReadsSheet};

use std::io;
use std::io::Read;

// Fills the buffer as far as the input goes, and answers the part that is filled.
pub fn fill<'a, R: Read>(input: &mut R, buffer: &'a mut [u8]) -> io::Result<&'a [u8]>
    ensures { IfOk result (λ bytes. ReadsUpTo (length buffer.old) (R.remaining input.old) (R.remaining input.new) bytes.now) }
{
    let size = buffer.len();
    let mut got = 0;
    // each turn that is not the last reads a byte at least
    for _turn in 0..size {
        let more = input.read(&mut buffer[got..])?;
        if more == 0 {
            break;
        }
        got += more;
    }
    Ok(&buffer[..got])
}

// The sheet's bytes: as many as the first byte says, or as many as come.
pub fn sheet_bytes<'a, R: Read>(input: &mut R, buffer: &'a mut [u8; 255]) -> io::Result<&'a [u8]>
    ensures { IfOk result (λ bytes. ReadsSheet (R.remaining input.old) (R.remaining input.new) bytes.now) }
{
    let mut first = [0];
    let size = fill(input, &mut first)?.first().copied().unwrap_or(0);
    fill(input, &mut buffer[..usize::from(size)])
}
