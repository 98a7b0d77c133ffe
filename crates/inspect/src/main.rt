// Reads a sheet from standard input to its end, and prints what it says, or the notice of why it is none.
#![tactic(auto)]

use listing::told;
use std::io;
use std::io::{Read, Write};

fn main(rt: HostRuntime) -> io::Result<()> {
    let mut bytes = Vec::new(rt.alloc());
    rt.stdin().read_to_end(&mut bytes)?;
    let text = told(rt.alloc(), bytes.as_slice())?;
    rt.stdout().write_all(text.as_slice())
}
