//! Checks a plan file: reads it from standard input and prints what was found, a key and a value a line. docs/FORMATS.md has the keys.
#![tactic(auto)]

use report::report;
use std::io::{Read, Write};

/// How many bytes of standard input are read at most.
const MOST: usize = 65536;

fn main(rt: HostRuntime) -> anyhow::Result<()> {
    // room for one byte more than is read, so that reading to the end asks for no other memory
    let mut text = Vec::with_capacity(rt.alloc(), MOST + 1)?;
    rt.stdin().take(MOST as u64).read_to_end(&mut text)?;
    let found = report(rt.alloc(), &text)?;
    // Kept: one write of the whole report, where `print!` would write it in pieces: a reader that takes only its first lines does not make the program fail.
    rt.stdout().write_all(found.as_bytes())?;
    Ok(())
}
