ghost use Rattle.std.specs.Prelude.{◌≡◌};
ghost use Rattle.network.specs.Calls.{told, CarryDoes, may_switch};
ghost use Rattle.network.specs.Law.{Journey, Delivers, EveryPacketIsDelivered};
ghost use Rattle.network.specs.Network.{made, On, Withdraw, Return, Open, Hop, Collect, Opened, Hopped, Collected, Switched};

use crate::lines::Lines;
use crate::list::LentList;
use crate::sending::{carry_on, open_record};
use crate::types::{Carried, HopRecord, Refusal};
use face::record::End;
use floor::planariser::Planariser;
use host::sides::{Reading, Switching};
use kept::links::KeptGraph;

/// A network: sixteen lines over a host, its links thinned by a planariser.
#[derive(Drop)]
pub struct Network<H, P> {
    host: H,
    planariser: P,
    lines: Lines,
}

impl<H: Switching, P: Planariser> Network<H, P> {
    ghost use Rattle.network.specs.Doing.{net_of, OverTheSame, DoesOnLine, DoesToNode, switching};

    /// A network with all lines empty. Whatever is asked of it from then on, each packet of its past is delivered as the law says: `delivers`
    /// of this host and this planariser, `always` of every other.
    pub fn new(host: H, planariser: P) -> Network<H, P>
        ensures empty { net_of H.Reading.meaning result ≡ made (H.Reading.meaning host) }
        ensures host { result.host ≡ host }
        ensures planariser { result.planariser ≡ planariser }
        ensures delivers { (p : Journey (P.Planariser.blocking planariser) (H.Reading.meaning host)) → Delivers (P.Planariser.blocking planariser) (H.Reading.meaning host) p }
        ensures always { EveryPacketIsDelivered }
    {
        Network {
            host,
            planariser,
            lines: Lines::new(),
        }
    }

    // The kept graph of its host under its planariser.
    fn graph(&self) -> KeptGraph<'_, H, P>
        ensures host { result.host.now ≡ self.now.host }
        ensures planariser { result.planariser.now ≡ self.now.planariser }
    {
        KeptGraph::new(&self.host, &self.planariser)
    }

    /// Opens a packet from `source` to `target` on an empty line.
    pub fn open(&mut self, line: u8, source: u8, target: u8) -> Result<(), Refusal>
        ensures { DoesOnLine H.Reading.meaning P.Planariser.blocking self.old line (Open source target) self.new (told (λ _. Opened) result) }
    {
        self.lines.vacant(line)?;
        let record = open_record(self.graph(), source, target)?;
        self.lines.put(line, Some(record));
        Ok(())
    }

    /// Sends the packet on a line once, and answers the pair of sender and receiver.
    pub fn hop(&mut self, line: u8) -> Result<(u8, u8), Refusal>
        ensures { DoesOnLine H.Reading.meaning P.Planariser.blocking self.old line Hop self.new (told Hopped result) }
    {
        let mut packet = self.lines.packet(line)?;
        let Some(link) = packet.hand else {
            return Err(Refusal::PacketEnded);
        };
        packet.send(self.graph());
        self.lines.put(line, Some(packet));
        Ok((link.from, link.to))
    }

    /// Hops the packet on a line on until it ends, the budget is used up or the list is full, and lists its hops.
    pub fn carry(
        &mut self,
        line: u8,
        budget: u16,
        list: &mut LentList<'_, HopRecord>,
    ) -> Result<Carried, Refusal>
        ensures call { CarryDoes (P.Planariser.blocking self.old.planariser) (net_of H.Reading.meaning self.old) line budget list.old.memory.now list.old.len (net_of H.Reading.meaning self.new) result list.new.memory.now list.new.len }
        ensures floor { OverTheSame self.old self.new }
        ensures lent { list.new.memory.ghost_name ≡ list.old.memory.ghost_name }
    {
        let mut packet = self.lines.packet(line)?;
        if packet.hand.is_none() {
            return Err(Refusal::PacketEnded);
        }
        let carried = carry_on(&mut packet, budget, list, self.graph());
        self.lines.put(line, Some(packet));
        Ok(carried)
    }

    /// Takes an ended packet off its line, and answers its end and its total.
    pub fn collect(&mut self, line: u8) -> Result<(End, u16), Refusal>
        ensures { DoesOnLine H.Reading.meaning P.Planariser.blocking self.old line Collect self.new (told (λ x. Collected x.0 x.1) result) }
    {
        let record = self.lines.packet(line)?;
        if record.hand.is_some() {
            return Err(Refusal::PacketUnderWay);
        }
        self.lines.put(line, None);
        Ok((record.end, record.total))
    }

    // Refused where `node` is no node, or while a line has a packet under way.
    fn switchable(&self, node: u8) -> Result<(), Refusal>
        ensures { result ≡ may_switch (H.Reading.meaning self.now.host) self.now.lines.records node }
    {
        if self.host.radio(node).is_none() {
            return Err(Refusal::NoNode);
        }
        if self.lines.busy() {
            return Err(Refusal::NetworkBusy);
        }
        Ok(())
    }

    // Takes a node out of service, or puts it back.
    fn switch(&mut self, node: u8, serving: bool) -> Result<(), Refusal>
        ensures { DoesToNode H.Reading.meaning P.Planariser.blocking self.old (switching serving node) self.new (told (λ _. Switched) result) }
    {
        self.switchable(node)?;
        self.host.switch(node, serving);
        Ok(())
    }

    /// Takes a node out of service.
    pub fn withdraw(&mut self, node: u8) -> Result<(), Refusal>
        ensures { DoesToNode H.Reading.meaning P.Planariser.blocking self.old (Withdraw node) self.new (told (λ _. Switched) result) }
    {
        self.switch(node, false)
    }

    /// Puts a node into service again.
    pub fn restore(&mut self, node: u8) -> Result<(), Refusal>
        ensures { DoesToNode H.Reading.meaning P.Planariser.blocking self.old (Return node) self.new (told (λ _. Switched) result) }
    {
        self.switch(node, true)
    }
}
