ghost use Rattle.std.specs.Prelude.{◌≡◌};
ghost use Rattle.floor.specs.declared.node.Node.{Node};
ghost use Rattle.face.specs.Packet.{Verdict, GoesOn, Ends, under, verdict, turning, walked, closed, reopened, opens, on_with};
ghost use Rattle.face.specs.Arrival.{led, lengthened, is_done, upon};

use crate::course::one_more;
use crate::crossing::crossing;
use crate::record::{Best, Course, End, Link, Phase, Record};
use floor::node::Node;
use kept::around::Surroundings;
use order::{Sense, Start};

/// What a receiver finds when a packet comes in.
#[derive(Clone, Copy, PartialEq, Eq, Debug)]
pub enum Arrival {
    /// It is the target.
    AtTarget,
    /// The sender is no kept neighbour.
    Astray,
    /// The next link goes to `next`.
    Next { came: Node, next: u8 },
    /// The next link would close the round, or none is left to walk.
    Done { came: Node, next: u8 },
}

// A kept neighbour, and the one first after it, itself coming last.
fn turn_from<V: Surroundings>(around: &V, sense: Sense, from: u8) -> Option<(Node, Node)>
    ensures { (go : Node → Node → Verdict) → turning (V.here around.now) (V.near around.now) sense from go ≡ led go result }
{
    let came = around.known(from)?;
    let next = around.first(sense, Start::FullTurn, came.point)?;
    Some((came, next))
}

// The best crossing of a course, and the node that a new round's first link there goes to, none being left to walk.
fn reopening<V: Surroundings>(course: Course, around: &V) -> Option<(Best, Node)>
    ensures { on_with (reopened (V.here around.now) (V.near around.now) course.phase) course.best ≡ on_with (λ found. opens (V.here around.now) (V.near around.now) found.0 found.1) result }
{
    let best = course.best?;
    let next = match course.phase {
        Phase::Round => return None,
        Phase::Ahead => turn_from(around, Sense::Clockwise, best.link.to)?.1,
        Phase::Back => around.known(best.link.from)?,
    };
    Some((best, next))
}

impl Record {
    // The send to node `at` is made, and the packet goes on to `next`.
    fn go_on(&mut self, at: u8, next: u8)
        ensures { self.new ≡ under self.old at (GoesOn next self.old.course) }
    {
        self.holder = at;
        self.hand = Some(Link { from: at, to: next });
        self.total = one_more(self.total);
        self.end = End::UnderWay;
    }

    // The send to node `at` is made, and the packet ends there.
    pub(crate) fn finish(&mut self, at: u8, end: End)
        ensures { self.new ≡ under self.old at (Ends end self.old.course) }
    {
        self.holder = at;
        self.hand = None;
        self.total = one_more(self.total);
        self.end = end;
    }

    // A new round opens at the best crossing, or the packet has gone astray.
    fn reopen<V: Surroundings>(&mut self, course: Course, around: &V)
        ensures { self.new ≡ under self.old (V.here around.now).number (on_with (reopened (V.here around.now) (V.near around.now) course.phase) course.best) }
    {
        let at = around.node().number;
        let Some((best, next)) = reopening(course, around) else {
            return self.finish(at, End::Unreachable);
        };
        self.go_on(at, next.number);
        self.course = Course::new_round(best.place, self.hand);
    }

    // On to `next` under a course with sends to walk; into a new round under one with none.
    fn walk<V: Surroundings>(&mut self, course: Course, next: u8, around: &V)
        ensures { self.new ≡ under self.old (V.here around.now).number (walked (V.here around.now) (V.near around.now) course next) }
    {
        if course.walk == 0 {
            return self.reopen(course, around);
        }
        self.course = course;
        self.go_on(around.node().number, next);
    }

    // A round is closed, its first link going to `next`: no way on, or the shorter way to the best crossing.
    fn close<V: Surroundings>(&mut self, course: Course, next: u8, around: &V)
        ensures { self.new ≡ under self.old (V.here around.now).number (closed (V.here around.now) (V.near around.now) course next course.best) }
    {
        let at = around.node().number;
        let Some(best) = course.best.filter(|best| !best.marked) else {
            self.course = course;
            return self.finish(at, End::Unreachable);
        };
        let rest = course.sends.saturating_sub(1).saturating_sub(best.index);
        if best.index <= rest {
            return self.walk(course.walking(Phase::Ahead, best.index), next, around);
        }
        match turn_from(around, Sense::Counter, next) {
            Some((_, back)) => self.walk(course.walking(Phase::Back, rest), back.number, around),
            None => self.finish(at, End::Unreachable),
        }
    }

    // Whether the packet is done with its round, or its walk, when its next link goes from `at` to `next`.
    fn is_done(&self, at: u8, next: u8) -> bool
        ensures { result ≡ is_done self.now at next self.now.course.phase }
    {
        let link = Link { from: at, to: next };
        match self.course.phase {
            Phase::Round => self.course.first == Some(link),
            Phase::Ahead | Phase::Back => self.course.walk <= 1,
        }
    }

    // What the receiver finds, the packet having come from node `from`.
    fn arrival<V: Surroundings>(&self, from: u8, around: &V) -> Arrival
        ensures { verdict (V.here around.now) (V.near around.now) self.now from ≡ upon (V.here around.now) (V.near around.now) self.now from result }
    {
        let at = around.node().number;
        if at == self.target.number {
            return Arrival::AtTarget;
        }
        let sense = match self.course.phase {
            Phase::Round | Phase::Ahead => Sense::Clockwise,
            Phase::Back => Sense::Counter,
        };
        let Some((came, next)) = turn_from(around, sense, from) else {
            return Arrival::Astray;
        };
        let next = next.number;
        if self.is_done(at, next) {
            Arrival::Done { came, next }
        } else {
            Arrival::Next { came, next }
        }
    }

    // The course of a round after the link from node `from`, which is `came`, to node `at`.
    fn lengthened(&self, from: u8, came: Node, at: Node) -> Course
        ensures { result ≡ lengthened self.now from came at }
    {
        let link = Link {
            from,
            to: at.number,
        };
        self.course
            .counted(link, crossing(self.source, self.target, came, at))
    }

    /// The one local step: the packet has come from node `from` to a node with these surroundings.
    pub fn arrive<V: Surroundings>(&mut self, from: u8, around: &V)
        ensures { self.new ≡ under self.old (V.here around.now).number (verdict (V.here around.now) (V.near around.now) self.old from) }
    {
        let at = around.node();
        match (self.course.phase, self.arrival(from, around)) {
            (_, Arrival::AtTarget) => self.finish(at.number, End::Delivered),
            (_, Arrival::Astray) => self.finish(at.number, End::Unreachable),
            (Phase::Round, Arrival::Next { came, next }) => {
                self.course = self.lengthened(from, came, at);
                self.go_on(at.number, next);
            }
            (Phase::Round, Arrival::Done { came, next }) => {
                self.close(self.lengthened(from, came, at), next, around);
            }
            (Phase::Ahead | Phase::Back, Arrival::Next { next, .. }) => {
                self.course.walk = self.course.walk.saturating_sub(1);
                self.go_on(at.number, next);
            }
            (Phase::Ahead | Phase::Back, Arrival::Done { .. }) => {
                self.reopen(self.course, around);
            }
        }
    }
}
