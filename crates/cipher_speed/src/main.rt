// Encrypts much: `cipher_speed STREAM MESSAGES` prints the last tag of STREAM MiB in pieces of 64 KiB, and then that of
// MESSAGES MiB in messages of 1,024 bytes with 32 bytes of additional data.
#![tactic(auto)]

use anyhow::Context;
use cases::Hex;
use gcm::Gcm;
use std::env;

// Each byte of the key, of the additional data, and of the text that is encrypted first.
const FILL: u8 = 0xa5;

// Encrypts the text over and over, each time under the tag of the time before it, so that none can be left out.
fn chain(gcm: &Gcm, additional: &[u8], text: &mut [u8], mebibytes: u32, each: u32) -> [u8; 12] {
    let mut tag = [0; 12];
    for _ in 0..mebibytes {
        for _ in 0..each {
            tag = gcm.encrypt(&tag, additional, text);
        }
    }
    tag
}

// Not shared with speed, whose usage is another: a crate for one line is no plainer.
fn amount(word: Option<String>) -> anyhow::Result<u32> {
    let word = word.context("usage: cipher_speed STREAM MESSAGES, both in MiB")?;
    Ok(word.parse::<u32>()?)
}

fn run(rt: &HostRuntime) -> anyhow::Result<()> {
    let mut words = env::args(rt)?.skip(1);
    let streamed = amount(words.next())?;
    let messages = amount(words.next())?;
    let gcm = Gcm::new(&[FILL; 32]);
    let mut piece = vec![in rt.alloc(); FILL; 65536]?;
    println!(rt; "{}", Hex(&chain(&gcm, &[], &mut piece, streamed, 16)))?;
    println!(rt;
        "{}",
        Hex(&chain(&gcm, &[FILL; 32], &mut [FILL; 1024], messages, 1024))
    )?;
    Ok(())
}

fn main(rt: HostRuntime) -> anyhow::Result<()> {
    run(&rt)
}
