//! Hosts of the worked floors.
use host::making::Making;
use std::alloc::Global;
use std::io;
use worked::{Floor, NoHost};

/// A host of a floor.
pub fn host_of<H: Making>(heap: Global, floor: Floor) -> io::Result<H> {
    Ok(
        floor.host::<H>(heap).map_err(|why| match why {
            NoHost::OutOfMemory => io::ErrorKind::OutOfMemory,
            NoHost::NotPlaced | NoHost::Refused(_) => io::ErrorKind::InvalidInput,
        })?,
    )
}
