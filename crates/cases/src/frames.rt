//! Lines that are read as frames.
use crate::answers::tell_refusal;
use frame::{Frame, FrameFault, LineFault, read_line};
use std::io;

// Tells a frame's kind and its fields.
fn tell_frame(rt: &impl Print, frame: Frame) -> io::Result<()> {
    match frame {
        Frame::Map {
            reach,
            planariser,
            host,
        } => println!(rt; "map {reach} {planariser} {host}"),
        Frame::Node { x, y } => println!(rt; "node {x} {y}"),
        Frame::Packet { source, target } => println!(rt; "packet {source} {target}"),
        Frame::Withdraw { node } => println!(rt; "withdraw {node}"),
        Frame::Return { node } => println!(rt; "return {node}"),
        Frame::Hop { sender, receiver } => println!(rt; "hop {sender} {receiver}"),
        Frame::End {
            source,
            target,
            end,
            total,
        } => println!(rt; "end {source} {target} {end} {total}"),
    }
}

/// Tells what each line says, or the number of its refusal.
pub fn tell(rt: &impl Print, lines: &str) -> anyhow::Result<()> {
    println!(rt; "lines")?;
    for line in lines.lines() {
        match read_line(line.as_bytes()) {
            Ok(frame) => tell_frame(rt, frame)?,
            Err(fault @ FrameFault::Line(LineFault::NotDigit { at })) => println!(rt;
                "refused {} at {at}",
                u8::from(fault)
            )?,
            Err(fault) => tell_refusal(rt, fault)?,
        }
    }
    Ok(())
}
