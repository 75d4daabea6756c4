// The texts of an upload of one scan: log-in, command and what answers them, each written by the end that says it and read back as the
// other end does.
#![tactic(auto)]

mod shown;
mod text_failure;
mod texts;

use anyhow::Context;
use std::fs;

const NAME: &str = "reel7.pgm";

fn run(rt: &HostRuntime) -> anyhow::Result<()> {
    let scan = fs::read(rt, NAME)?;
    let size = u32::try_from(scan.len())
        .ok()
        .context("the file is too long for one upload")?;
    let mut text = [0u8; 4096];
    texts::log_in(rt, &mut text)?;
    texts::upload(rt, NAME.as_bytes(), &scan, size, &mut text)?;
    texts::uploaded(rt, &scan, size, &mut text)?;
    Ok(())
}

fn main(rt: HostRuntime) -> anyhow::Result<()> {
    run(&rt)
}
