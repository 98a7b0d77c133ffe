// Marks the heaviest sheet over voices, as many times as its argument says, and prints the last span.
#![tactic(auto)]

ghost use Rattle.std.specs.Prelude.{◌≤◌};

use grade::{Span, Voices};
use sheet::record::Sheet;
use std::alloc::{AllocError, Global};
use std::{env, iter};
use watch::record::Watch;

// Sixteen facts; a hold of 127 for each; fifteen boths that join them in a tree; that within 0 to 255.
fn heaviest(heap: Global) -> Result<Vec<u8>, AllocError> {
    let mut bytes = vec![in heap; 16, 32]?;
    bytes.extend(iter::repeat_n(1, 16))?;
    bytes.extend(iter::repeat_n(3, 15))?;
    bytes.push(7)?;
    bytes.extend((0..16).flat_map(|fact| [127, fact, 0]))?;
    bytes.extend((0..15u8).flat_map(|pair| [2 * pair, 2 * pair + 1, 0]))?;
    bytes.extend_from_slice(&[0, 255, 30])?;
    Ok(bytes)
}

// 256 frames of words that look random, with the low eight voices always there.
fn frames(heap: Global) -> Result<Vec<Voices>, AllocError> {
    let mut x = 1u32;
    iter::repeat_with(|| {
        x = x.wrapping_mul(1_664_525).wrapping_add(1_013_904_223);
        Voices::new((x >> 16) as u16 | 0xff)
    })
    .take(4096)
    .collect(heap)
}

// The frames that are to be accepted before mark m of so many: from 1 to 256, evenly spread.
fn due(m: u32, marks: u32) -> usize
    ensures { result ≤ 256 }
{
    let steps = marks.saturating_sub(1).max(1);
    (1 + u64::from(m) * 255 / u64::from(steps)).min(256) as usize
}

fn cost(heap: Global, marks: u32) -> Result<Span<Voices>, AllocError> {
    let strip = frames(heap)?;
    let mut sheet = Sheet::new();
    let _ = sheet.load(heaviest(heap)?.as_slice());
    let mut watch = Watch::start(&sheet);
    let mut log = vec![in heap; Voices::new(0); 4096]?;
    let mut chart = vec![in heap; Span::<Voices>::unknown(); 8192]?;
    let mut last = Span::unknown();
    for m in 0..marks {
        let from = watch.accepted() as usize * 16;
        let to = due(m, marks) * 16;
        if let Some(part) = strip.get(from..to) {
            let _ = watch.feed(&mut log, part);
        }
        if let Ok(mark) = watch.mark(&log, &mut chart) {
            last = mark.span;
        }
    }
    Ok(last)
}

fn main(rt: HostRuntime) -> anyhow::Result<()> {
    let mut words = env::args(&rt)?;
    let _ = words.next();
    let marks = match words.next() {
        Some(text) => text.as_str().parse::<u32>()?,
        None => 1,
    };
    let span = cost(rt.alloc(), marks)?;
    let low = span.low.bits();
    let high = span.high.bits();
    println!(rt; "{low:04x} {high:04x}")?;
    Ok(())
}
