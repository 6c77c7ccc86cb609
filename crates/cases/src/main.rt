//! Runs the cases that standard input holds, and tells what comes of each: a second implementation tells the same.

#![tactic(auto)]

use anyhow::bail;
use std::io;

mod answers;
mod call;
mod floors;
mod frames;
mod hand;
mod maps;
mod words;

// Tells what comes of one block of lines, by the kind that its first line names.
fn tell_block(rt: &(impl Print + AllocGlobal), block: &str) -> anyhow::Result<()> {
    let (head, rest) = block.split_once('\n').unwrap_or((block, ""));
    match head.split_once(' ') {
        Some(("floor", floor)) => floors::tell(rt, floor, rest),
        None if head == "map" => maps::tell(rt, rest),
        None if head == "lines" => frames::tell(rt, rest),
        _ => bail!("no such case"),
    }
}

// Tells what comes of every block that standard input holds.
fn main(rt: HostRuntime) -> anyhow::Result<()> {
    let text = io::read_to_string(rt.alloc(), rt.stdin())?;
    for block in text.as_str().split("\n\n") {
        tell_block(&rt, block)?;
    }
    Ok(())
}
