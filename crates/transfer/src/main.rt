// Carries one scan from its file to a receiver, as an upload does: announced, cut into fragments, each sealed and opened again, and put
// together again; once under each seal.
#![tactic(auto)]

ghost use Rattle.std.specs.Prelude.{◌≡◌, OnOk};
ghost use Rattle.transfer.specs.Carried.{Holds};

mod announcement;
mod carry;
mod failure;
mod line;
mod receiver;

use announcement::{Announcement, announce};
use anyhow::{Context, anyhow};
use line::Line;
use message::Seal;
use octets::equal;
use receiver::{Receiver, Taken};
use seals::{ClosedSeal, OpenSeal};
use std::fs;

const NAME: &str = "reel7.pgm";

// What the host takes from its key exchange; here fixed.
const KEY: [u8; 32] = [7; 32];

const SESSION: [u8; 16] = [9; 16];

// Every fragment from the first to the last, each with a line. Where the last one came, a receiver that held the front of the scan
// holds the scan.
fn carry_all<S: Seal>(
    rt: &HostRuntime,
    line: &mut Line<S>,
    scan: &[u8],
    receiver: &mut Receiver,
) -> anyhow::Result<()>
    ensures { Holds receiver.old scan.now → OnOk result (receiver.new.bytes.items ≡ scan.now) }
{
    for number in 1..65535u16 {
        match receiver.take_next(line, number, scan) {
            Ok(Taken { fragment, size }) => {
                let length = fragment.length;
                let last = if fragment.last { ", the last" } else { "" };
                println!(rt;
                    "fragment {number}: {length} bytes in a message of {size}, opened again{last}"
                )?;
                if fragment.last {
                    return Ok(());
                }
            }
            Err(failure) => {
                println!(rt; "fragment {number}: {failure}")?;
                break;
            }
        }
    }
    Err(anyhow!("the file did not come over whole"))
}

fn report(rt: &HostRuntime, announcement: &Announcement, received: &[u8]) -> anyhow::Result<()> {
    let size = received.len();
    let same_size = size == announcement.size as usize;
    let same_digest = equal(&digest::sha256(received), &announcement.digest);
    if same_size && same_digest {
        println!(rt; "received {size} bytes: size and digest are the announced ones")?;
        Ok(())
    } else {
        Err(anyhow!("what was received is not what was announced"))
    }
}

fn carry_under<S: Seal>(
    rt: &HostRuntime,
    seal: &S,
    scan: &[u8],
    announcement: &Announcement,
) -> anyhow::Result<()> {
    let mut receiver = Receiver::new(rt.alloc(), announcement.size, announcement.digest);
    let mut line = Line {
        seal,
        message: [0; 4124],
        text: [0; 4096],
    };
    carry_all(rt, &mut line, scan, &mut receiver)?;
    report(rt, announcement, &receiver.bytes)
}

fn run(rt: &HostRuntime) -> anyhow::Result<()> {
    let scan = fs::read(rt, NAME)?;
    let announcement = announce(NAME, &scan).context("the file is too long for one upload")?;
    println!(rt; "{announcement}")?;
    println!(rt; "closed seal")?;
    carry_under(rt, &ClosedSeal::new(&KEY, &SESSION), &scan, &announcement)?;
    println!(rt; "open seal")?;
    carry_under(rt, &OpenSeal::new(&KEY, &SESSION), &scan, &announcement)
}

fn main(rt: HostRuntime) -> anyhow::Result<()> {
    run(&rt)
}
