// Runs a day: reads accounts.txt, holds.txt, roll.txt and the standard input, and prints the answers.
#![tactic(auto)]

use day::{COUNTED, run};
use std::io::Read;
use std::rt::Files;
use std::{fs, io};

fn read_text<R: Read + Drop>(from: R, heap: std::alloc::Global) -> io::Result<Vec<u8>> {
    let mut text = Vec::new(heap);
    from.take(COUNTED as u64).read_to_end(&mut text)?;
    Ok(text)
}

fn main(rt: HostRuntime) -> anyhow::Result<()> {
    let heap = rt.alloc();
    let accounts = read_text(fs::open(&rt, "accounts.txt")?, heap)?;
    let holds = read_text(fs::open(&rt, "holds.txt")?, heap)?;
    let roll = read_text(fs::open(&rt, "roll.txt")?, heap)?;
    let input = read_text(rt.stdin(), heap)?;
    let files = day::Files {
        accounts: &accounts,
        holds: &holds,
        roll: &roll,
        input: &input,
    };
    let answers = run(heap, &files)?;
    rt.write_all(&answers)?;
    Ok(())
}
