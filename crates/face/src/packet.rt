//! Packets in the hand: held, in the air or ended. Each is one value that moves, and may be let go only when spent.
ghost use Rattle.std.specs.Prelude.{◌≡◌, true, ◌≢◌};
ghost use Rattle.face.specs.Packet.{send, opened_ended};
ghost use Rattle.face.specs.declared.record.End.TheVariants.{Unreachable};
ghost use Rattle.face.specs.Hand.{live, in_hand, carried_by, opened_from, open_answer, open_told, may_go, forward_answer, hop_answer, told, SendsAreLocal};

use crate::record::{Course, End, Link, Record};
use floor::node::Node;
use floor::planariser::Planariser;
use host::sides::Reading;
use kept::around::Surroundings;
use kept::links::KeptGraph;
use order::{Place, Sense, Start};

// A packet's one record, and whether it is spent. The flag stays: a packet may be let go only when it is spent, and the check asks that.
struct Token {
    carried: Record,
    spent: bool,
}

impl Drop for Token {
    fn drop(self)
        requires { self.spent ≡ true }
    {
        let Token {
            carried: _,
            spent: _,
        } = self;
    }
}

impl Token {
    // A live packet's.
    fn new(carried: Record) -> Token
        ensures { result ≡ live carried }
    {
        Token {
            carried,
            spent: false,
        }
    }

    // Spends it for its record.
    fn spend(mut self) -> Record
        ensures { result ≡ self.carried }
    {
        self.spent = true;
        self.carried
    }
}

/// A packet at a node, with a link in hand.
#[derive(Drop)]
pub struct Held {
    token: Token,
}

/// A packet on its way along the link in hand.
#[derive(Drop)]
pub struct InAir {
    token: Token,
}

/// A packet at its end.
#[derive(Drop)]
pub struct Ended {
    token: Token,
}

/// A packet where it came to: held, or at its end.
pub enum Packet {
    Held(Held),
    Ended(Ended),
}

/// Why a packet is not opened, or not forwarded.
#[derive(Clone, Copy, PartialEq, Eq, Debug)]
pub enum Refusal {
    /// Source or target is no node.
    NoNode,
    /// Source or target is out of service.
    OutOfService,
    /// The link in hand is no kept link of the holder, or no further send can be counted.
    NoWay,
}

/// The number of the refusal.
impl From<Refusal> for u8 {
    ghost use Rattle.face.specs.Hand.{denial};

    ghost from_gives = { λ refusal number. number ≡ denial refusal };

    fn from(refusal: Refusal) -> u8 {
        match refusal {
            Refusal::NoNode => 43,
            Refusal::OutOfService => 44,
            Refusal::NoWay => 61,
        }
    }
}

/// A packet that was not forwarded, still held.
pub struct Unsent {
    pub why: Refusal,
    pub held: Held,
}

// The record of a new packet, from its source's surroundings. Another node at the source's own point lies in no direction.
fn opened<V: Surroundings>(around: &V, target: Node) -> Record
    ensures nowhere { (V.here around.now).number ≢ target.number → target.point ≡ (V.here around.now).point → result ≡ opened_ended (V.here around.now) target Unreachable }
    ensures value { ((V.here around.now).number ≢ target.number → target.point ≢ (V.here around.now).point) → result ≡ opened_from (V.here around.now) target (V.near around.now) }
{
    let source = around.node();
    let (hand, end) = if source.number == target.number {
        (None, End::Delivered)
    } else {
        match around.first(Sense::Clockwise, Start::NoTurn, target.point) {
            Some(next) => (
                Some(Link {
                    from: source.number,
                    to: next.number,
                }),
                End::UnderWay,
            ),
            None => (None, End::Unreachable),
        }
    };
    let course = Course::new_round(Place { above: 0, below: 1 }, hand);
    Record {
        source,
        target,
        holder: source.number,
        hand,
        course,
        total: 0,
        end,
    }
}

impl Record {
    // Whether the link in hand is a kept link of the holder, and a send can still be counted.
    fn may_go<V: Surroundings>(&self, around: &V) -> bool
        ensures { result ≡ may_go (V.near around.now) self.now }
    {
        self.hand.is_some_and(|link| {
            link.from == self.holder && self.total < u16::MAX && around.known(link.to).is_some()
        })
    }

    // The send along the link in hand, over a host: the step of the node there, if there is one.
    pub fn send<R: Reading, P: Planariser>(&mut self, graph: KeptGraph<'_, R, P>)
        ensures { self.new ≡ send (P.Planariser.blocking graph.entry.planariser.now) (R.Reading.meaning graph.entry.host.now) self.old }
    {
        let Some(link) = self.hand else {
            return;
        };
        match graph.host.radio(link.to) {
            Some(_) => self.arrive(link.from, &graph.view(link.to)),
            None => self.finish(link.to, End::Unreachable),
        }
    }
}

impl Packet {
    /// A new packet between two nodes of a host, each named at the call: a pair would be made only to be taken apart.
    pub fn open<R: Reading, P: Planariser>(
        graph: KeptGraph<'_, R, P>,
        source: u8,
        target: u8,
    ) -> Result<Packet, Refusal>
        ensures { open_told result ≡ open_answer (P.Planariser.blocking graph.entry.planariser.now) (R.Reading.meaning graph.entry.host.now) source target }
    {
        let (Some(from), Some(to)) = (graph.host.radio(source), graph.host.radio(target)) else {
            return Err(Refusal::NoNode);
        };
        if !from.serving || !to.serving {
            return Err(Refusal::OutOfService);
        }
        let view = graph.view(source);
        Ok(Packet::take_up(opened(&view, to.node(target))))
    }

    /// The packet that carries a record: held where a link is in hand, ended where none is.
    pub fn take_up(carried: Record) -> Packet
        ensures { result ≡ in_hand carried }
    {
        let token = Token::new(carried);
        match carried.hand {
            Some(_) => Packet::Held(Held { token }),
            None => Packet::Ended(Ended { token }),
        }
    }

    /// Spends the packet, held or ended, for its record.
    pub fn put_by(self) -> Record
        ensures { result ≡ carried_by self }
    {
        match self {
            Packet::Held(held) => held.set_aside(),
            Packet::Ended(ended) => ended.file(),
        }
    }
}

impl Held {
    /// Into the air, along the link in hand.
    pub fn forward<R: Reading, P: Planariser>(
        self,
        graph: KeptGraph<'_, R, P>,
    ) -> Result<InAir, Unsent>
        ensures { told result ≡ forward_answer (P.Planariser.blocking graph.entry.planariser.now) (R.Reading.meaning graph.entry.host.now) self }
    {
        let view = graph.view(self.token.carried.holder);
        if !self.token.carried.may_go(&view) {
            return Err(Unsent {
                why: Refusal::NoWay,
                held: self,
            });
        }
        Ok(InAir {
            token: Token::new(self.set_aside()),
        })
    }

    /// One send: forwarded, and received.
    pub fn hop<R: Reading, P: Planariser>(
        self,
        graph: KeptGraph<'_, R, P>,
    ) -> Result<Packet, Unsent>
        ensures { told result ≡ hop_answer (P.Planariser.blocking graph.entry.planariser.now) (R.Reading.meaning graph.entry.host.now) self }
    {
        let flight = self.forward(graph)?;
        Ok(flight.receive(graph))
    }

    /// Spends the packet; its record can be taken up again.
    pub fn set_aside(self) -> Record
        ensures { result ≡ self.token.carried }
    {
        let Held { token } = self;
        token.spend()
    }
}

impl InAir {
    /// The receiver makes its step: the packet is held there, or at its end.
    pub fn receive<R: Reading, P: Planariser>(self, graph: KeptGraph<'_, R, P>) -> Packet
        ensures step { result ≡ in_hand (send (P.Planariser.blocking graph.entry.planariser.now) (R.Reading.meaning graph.entry.host.now) self.token.carried) }
        ensures local { SendsAreLocal }
    {
        let InAir { token } = self;
        let mut carried = token.spend();
        carried.send(graph);
        Packet::take_up(carried)
    }
}

impl Ended {
    /// Spends the packet; its record says how it ended.
    pub fn file(self) -> Record
        ensures { result ≡ self.token.carried }
    {
        let Ended { token } = self;
        token.spend()
    }
}
