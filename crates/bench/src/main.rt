// Judges a patch by its sheet as the frames come in, from standard input or from the file that is named.
#![tactic(auto)]

ghost use Rattle.std.specs.Prelude.{◌≡◌, Some, IfSome, OnOk};
ghost use Rattle.std.specs.Io.KnownBytes.{Appends};
ghost use Rattle.sheet.specs.Sheets.{sheet_of};
ghost use Rattle.bench.specs.Lines.{take_lines, after_take, printed, left_of};

mod frames;
mod input;
mod step;

use crate::frames::next_frame;
use crate::input::sheet_bytes;
use crate::step::step;
use grade::{Span, Voices};
use listing::notice_of;
use sheet::record::Sheet;
use std::alloc::Global;
use std::io::{Read, Write};
use std::{env, fs, io};
use watch::record::Watch;

// A line after each frame, before the next is read; no more frames than a take has.
fn judge_frames<R: Read, W: Write>(
    heap: Global,
    input: &mut R,
    output: &mut W,
    sheet: &Sheet,
) -> io::Result<()>
    ensures lines { OnOk result (IfSome (R.remaining input.old) (λ frames. Appends (W.contents output.old) (W.contents output.new) (take_lines (sheet_of sheet.now) frames))) }
    ensures left { OnOk result (IfSome (R.remaining input.old) (λ frames. R.remaining input.new ≡ Some (after_take (sheet_of sheet.now) frames))) }
{
    let facts = sheet.facts() as usize;
    let frames = sheet.length() as usize + 1;
    let mut grades = vec![in heap; Voices::new(0); facts * frames]?;
    let mut spans = vec![in heap; Span::<Voices>::unknown(); sheet.rows().len() * frames]?;
    let log = grades.as_mut_slice();
    let chart = spans.as_mut_slice();
    let mut watch = Watch::start(sheet);
    let mut frame = [Voices::new(0); 16];
    for _accepted in 0..frames {
        let Some(frame) = next_frame(input, &mut frame[..facts])? else {
            break;
        };
        let Ok(text) = step(&mut watch, log, chart, frame) else {
            break;
        };
        output.write_all(&text)?;
    }
    Ok(())
}

// The sheet comes first, and its frames follow.
fn run<R: Read, W: Write>(heap: Global, input: &mut R, output: &mut W) -> io::Result<()>
    ensures printed { OnOk result (IfSome (R.remaining input.old) (λ bytes. Appends (W.contents output.old) (W.contents output.new) (printed bytes))) }
    ensures left { OnOk result (IfSome (R.remaining input.old) (λ bytes. R.remaining input.new ≡ Some (left_of bytes))) }
{
    let mut buffer = [0; 255];
    let bytes = sheet_bytes(input, &mut buffer)?;
    let mut sheet = Sheet::new();
    match sheet.load(bytes) {
        Ok(()) => judge_frames(heap, input, output, &sheet),
        Err(fault) => output.write_all(&notice_of(fault)),
    }
}

fn main(rt: HostRuntime) -> io::Result<()> {
    let mut words = env::args(&rt)?;
    let _ = words.next();
    let mut output = io::writer(&rt);
    match words.next() {
        Some(path) => run(rt.alloc(), &mut fs::open(&rt, path.as_str())?, &mut output),
        None => run(rt.alloc(), &mut rt.stdin(), &mut output),
    }
}
