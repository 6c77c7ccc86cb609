//! The sends of a packet, one after the other.
use face::packet::{Packet, Unsent};
use face::record::Record;
use floor::planariser::Planariser;
use host::sides::Reading;
use kept::links::KeptGraph;
use std::iter::Take;

/// A packet's records after each send.
#[derive(Clone, Copy)]
pub struct Sends<'a, R: Reading, P: Planariser> {
    graph: KeptGraph<'a, R, P>,
    record: Record,
}

/// Each record after one send more; none where the packet has ended or cannot be forwarded.
impl<R: Reading, P: Planariser> Iterator for Sends<'_, R, P> {
    type Item = Record;

    fn next(&mut self) -> Option<Record> {
        self.record = sent(self.graph, self.record)?;
        Some(self.record)
    }
}

// The record of a packet after one send more; none where it has ended or cannot be forwarded.
fn sent<R: Reading, P: Planariser>(graph: KeptGraph<'_, R, P>, record: Record) -> Option<Record> {
    match Packet::take_up(record) {
        Packet::Held(held) => match held.hop(graph) {
            Ok(packet) => Some(packet.put_by()),
            Err(Unsent { why: _, held }) => {
                held.set_aside();
                None
            }
        },
        Packet::Ended(ended) => {
            ended.file();
            None
        }
    }
}

/// The records of a packet from a given one on, after each send until its end.
pub fn sends_of<R: Reading, P: Planariser>(
    graph: KeptGraph<'_, R, P>,
    record: Record,
) -> Take<Sends<'_, R, P>> {
    Sends { graph, record }.take(usize::from(u16::MAX))
}
