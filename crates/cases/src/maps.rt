//! Points that are placed one after the other.
use crate::answers::tell_refusal;
use crate::words::point;
use anyhow::Context;
use floor::map::Map;

/// Tells the number of each new node, or of the refusal.
pub fn tell(rt: &(impl Print + AllocGlobal), points: &str) -> anyhow::Result<()> {
    println!(rt; "map")?;
    let mut map = Map::new(rt.alloc())?;
    for line in points.lines() {
        match map.place(point(line, ' ').context("no such point")?) {
            Ok(number) => println!(rt; "{number}")?,
            Err(refusal) => tell_refusal(rt, refusal)?,
        }
    }
    Ok(())
}
