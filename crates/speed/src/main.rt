// Hashes much: `speed STREAM MESSAGES` prints the digest of STREAM MiB fed in pieces of 64 KiB, and then what a chain of
// MESSAGES MiB in messages of 1,024 bytes comes to.
#![tactic(auto)]

use anyhow::Context;
use octets::hexadecimal;
use std::env;

// Each byte of the stream, and each that a message of the chain begins with.
const FILL: u8 = 0xa5;

fn stream(piece: &[u8], mebibytes: u32) -> [u8; 32] {
    let mut hasher = digest::Hasher::new();
    for _ in 0..mebibytes {
        for _ in 0..16 {
            hasher.update(piece);
        }
    }
    hasher.finish()
}

// The digest of the message, which then begins with it.
fn link(message: &mut [u8; 1024]) -> [u8; 32] {
    let digest = digest::sha256(message);
    message[0..32].copy_from_slice(&digest);
    digest
}

// Each message carries the digest of the one before it, so that none can be left out.
fn chain(mebibytes: u32) -> [u8; 32] {
    let mut message = [FILL; 1024];
    let mut last = [0; 32];
    for _ in 0..mebibytes {
        for _ in 0..1024 {
            last = link(&mut message);
        }
    }
    last
}

fn show(rt: &impl Print, digest: [u8; 32]) -> anyhow::Result<()> {
    println!(rt; "{}", str::from_utf8(&hexadecimal(&digest))?)?;
    Ok(())
}

// Not shared with cipher_speed, whose usage is another: a crate for one line is no plainer.
fn amount(word: Option<String>) -> anyhow::Result<u32> {
    let word = word.context("usage: speed STREAM MESSAGES, both in MiB")?;
    Ok(word.parse::<u32>()?)
}

fn run(rt: &HostRuntime) -> anyhow::Result<()> {
    let mut words = env::args(rt)?.skip(1);
    let streamed = amount(words.next())?;
    let chained = amount(words.next())?;
    let piece = vec![in rt.alloc(); FILL; 65536]?;
    show(rt, stream(&piece, streamed))?;
    show(rt, chain(chained))
}

fn main(rt: HostRuntime) -> anyhow::Result<()> {
    run(&rt)
}
