//! What tests of several kinds ask.
use floor::planariser::Planariser;
use host::making::Making;
use network::network::Network;
use std::alloc::Global;
use worked::{Floor, NoHost};

/// A network of a floor.
pub fn network_of<H: Making, P: Planariser + Drop>(
    heap: Global,
    floor: Floor,
    planariser: P,
) -> Result<Network<H, P>, NoHost> {
    Ok(Network::new(floor.host(heap)?, planariser))
}

/// The number with which a call was refused, if it was.
pub fn refusal<T: Drop, E: Drop>(answer: Result<T, E>) -> Option<u8>
where
    u8: From<E>,
{
    answer.err().map(u8::from)
}
