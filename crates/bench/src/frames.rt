// Frames of voices, as the engine sends them: a word for each fact, its low byte first.
ghost use Rattle.std.specs.Prelude.{◌≡◌, ◌*◌, ◌≤◌, length, IfOk, MatchOption};
ghost use Rattle.bench.specs.Words.{Decoded, decoded};
ghost use Rattle.bench.specs.Reading.{ReadsFrame, FallsShort};

use crate::input::fill;
use grade::Voices;
use std::io;
use std::io::Read;

// The words of a frame, from its bytes.
pub fn decode(bytes: &[u8], frame: &mut [Voices])
    requires { 2 * length frame.old ≤ length bytes.now }
    ensures words { Decoded bytes.now frame.new (length frame.old) }
    ensures whole { frame.new ≡ decoded bytes.now frame.old (length frame.old) }
{
    for (f, word) in frame.iter_mut().enumerate() {
        *word = Voices::new(u16::from_le_bytes([bytes[2 * f], bytes[2 * f + 1]]));
    }
}

// The next frame, as long as the place that is lent, unless the input ends before it is whole.
pub(crate) fn next_frame<'a, R: Read>(
    input: &mut R,
    place: &'a mut [Voices],
) -> io::Result<Option<&'a [Voices]>>
    requires { length place.old ≤ 16 }
    ensures { IfOk result (λ next. MatchOption next
        (FallsShort (2 * length place.old) (R.remaining input.old) (R.remaining input.new))
        (λ frame. ReadsFrame (length place.old) (R.remaining input.old) (R.remaining input.new) frame.now)) }
{
    let mut buffer = [0; 32];
    let bytes = fill(input, &mut buffer[..2 * place.len()])?;
    if bytes.len() < 2 * place.len() {
        return Ok(None);
    }
    decode(bytes, place);
    Ok(Some(place))
}
