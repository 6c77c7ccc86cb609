ghost use Rattle.std.specs.Prelude.{◌≡◌, ◌-◌, min, length};
ghost use Rattle.delivery.specs.Law.{after_sends};
ghost use Rattle.network.specs.Calls.{newly_opened, carry_answer};
ghost use Rattle.network.specs.Lent.{Extended};
ghost use Rattle.network.specs.Network.{trail};

use crate::list::LentList;
use crate::types::{Carried, HopRecord, Refusal, Stopper};
use face::packet::Packet;
use face::record::Record;
use floor::planariser::Planariser;
use host::sides::Reading;
use kept::links::KeptGraph;

/// The record of a new packet; refused where source or target is no node or out of service.
pub fn open_record<R: Reading, P: Planariser>(
    graph: KeptGraph<'_, R, P>,
    source: u8,
    target: u8,
) -> Result<Record, Refusal>
    ensures { result ≡ newly_opened (P.Planariser.blocking graph.entry.planariser.now) (R.Reading.meaning graph.entry.host.now) source target }
{
    let packet = Packet::open(graph, source, target)?;
    Ok(packet.put_by())
}

/// Sends a packet on until it ends, the budget is used up or the list is full, and lists its hops.
pub fn carry_on<R: Reading, P: Planariser>(
    packet: &mut Record,
    budget: u16,
    list: &mut LentList<'_, HopRecord>,
    graph: KeptGraph<'_, R, P>,
) -> Carried
    ensures packet { packet.new ≡ after_sends (P.Planariser.blocking graph.entry.planariser.now) (R.Reading.meaning graph.entry.host.now) (min budget (length list.old.memory.now - list.old.len)) packet.old }
    ensures answer { result ≡ carry_answer (P.Planariser.blocking graph.entry.planariser.now) (R.Reading.meaning graph.entry.host.now) budget (length list.old.memory.now - list.old.len) packet.old }
    ensures list { Extended list.old.memory.now list.old.len (trail (P.Planariser.blocking graph.entry.planariser.now) (R.Reading.meaning graph.entry.host.now) (min budget (length list.old.memory.now - list.old.len)) packet.old) list.new.memory.now list.new.len }
    ensures lent { list.new.memory.ghost_name ≡ list.old.memory.ghost_name }
{
    for hops in 0..budget {
        let Some(link) = packet.hand else {
            return Carried {
                hops,
                stopper: Stopper::Ended,
            };
        };
        let hop = HopRecord {
            sender: link.from,
            receiver: link.to,
            phase: packet.course.phase,
        };
        if list.append(hop).is_err() {
            return Carried {
                hops,
                stopper: Stopper::Full,
            };
        }
        packet.send(graph);
    }
    let stopper = if packet.hand.is_none() {
        Stopper::Ended
    } else {
        Stopper::Budget
    };
    Carried {
        hops: budget,
        stopper,
    }
}
