ghost use Rattle.std.specs.Prelude.{◌≡◌, ◌≢◌, Some};
ghost use Rattle.floor.specs.Meaning.{neighbours};
ghost use Rattle.kept.specs.Kept.{kept, node_at};
ghost use Rattle.kept.specs.Bearings.{bearing};

use crate::around::Surroundings;
use crate::bearing::Bearing;
use crate::links::KeptGraph;
use floor::node::Node;
use floor::planariser::Planariser;
use host::neighbours::Neighbours;
use host::sides::Reading;
use order::direction::Sweep;
use order::keeper::Keeper;
use order::{Sense, Start};
use plane::Point;

/// A node of a kept graph as it sees itself: its kept neighbours.
#[derive_where(Clone, Copy)]
pub struct View<'a, R: Reading, P: Planariser> {
    pub(crate) graph: KeptGraph<'a, R, P>,
    pub(crate) number: u8,
}

// The bearing of a neighbour in a sweep round the node, where it lies in a direction.
fn bearing_of(sweep: Sweep, w: Node) -> Option<Bearing>
    ensures { sweep.from ≢ sweep.at → w.point ≢ sweep.at → result ≡ Some (bearing sweep.sense sweep.start sweep.at sweep.from w) }
{
    let direction = sweep.direction(w.point)?;
    Some(Bearing { node: w, direction })
}

impl<R: Reading, P: Planariser> Surroundings for View<'_, R, P> {
    ghost here = { λ v. node_at (R.Reading.meaning v.graph.host.now) v.number };

    ghost near = { λ v. kept (P.Planariser.blocking v.graph.planariser.now) (node_at (R.Reading.meaning v.graph.host.now) v.number).point (neighbours (R.Reading.meaning v.graph.host.now) v.number) };

    fn node(&self) -> Node {
        match self.graph.host.radio(self.number) {
            Some(radio) => radio.node(self.number),
            None => Node {
                number: self.number,
                point: Point { x: 0, y: 0 },
            },
        }
    }

    fn known(&self, number: u8) -> Option<Node> {
        let node = self.graph.host.next_neighbour(self.number, number)?;
        self.graph
            .is_kept_as(self.node(), node, number)
            .then_some(node)
    }

    fn first(&self, sense: Sense, start: Start, towards: Point) -> Option<Node> {
        let here = self.node();
        if towards == here.point {
            return None;
        }
        let sweep = Sweep {
            at: here.point,
            from: towards,
            sense,
            start,
        };
        let mut keeper = Keeper::new();
        for w in Neighbours::of(self.graph.host, self.number) {
            if let Some(bearing) = bearing_of(sweep, w) {
                // Whether the link is kept is asked last: it is a walk over all neighbours.
                if keeper.would_take(&bearing) && !self.graph.is_blocked(here, w) {
                    let _ = keeper.replace(bearing);
                }
            }
        }
        keeper.into_held().map(|bearing| bearing.node)
    }
}
