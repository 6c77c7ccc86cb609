//! The kept graph of a host under a planariser.
ghost use Rattle.std.specs.Prelude.{◌≡◌, length, nat_lt, not, ◌&&◌, ◌==◌};
ghost use Rattle.std.specs.List.{filter};
ghost use Rattle.floor.specs.Meaning.{node, neighbours, is_among};
ghost use Rattle.kept.specs.Kept.{blocked, kept_neighbours, kept_links};

use crate::view::View;
use floor::node::Node;
use floor::planariser::Planariser;
use host::neighbours::Neighbours;
use host::sides::Reading;

/// A host whose links a planariser thins: what is kept of them is the graph.
#[derive_where(Clone, Copy)]
pub struct KeptGraph<'a, R: Reading, P: Planariser> {
    pub host: &'a R,
    pub planariser: &'a P,
}

impl<'a, R: Reading, P: Planariser> KeptGraph<'a, R, P> {
    /// What that planariser keeps of that host's links.
    pub fn new(host: &'a R, planariser: &'a P) -> KeptGraph<'a, R, P>
        ensures host { result.host.now ≡ host.now }
        ensures planariser { result.planariser.now ≡ planariser.now }
    {
        KeptGraph { host, planariser }
    }

    /// The view of node `number`.
    pub fn view(self, number: u8) -> View<'a, R, P>
        ensures host { result.graph.host.now ≡ self.entry.host.now }
        ensures planariser { result.graph.planariser.now ≡ self.entry.planariser.now }
        ensures number { result.number ≡ number }
    {
        View {
            graph: self,
            number,
        }
    }

    // Node `i` of the host.
    fn node(self, i: u8) -> Option<Node>
        ensures { result ≡ node (R.Reading.meaning self.entry.host.now) i }
    {
        self.host.radio(i).map(|radio| radio.node(i))
    }

    // Whether a neighbour of `u` other than `v` blocks the link between them.
    pub(crate) fn is_blocked(self, u: Node, v: Node) -> bool
        ensures { result ≡ blocked (P.Planariser.blocking self.entry.planariser.now) u.point v (neighbours (R.Reading.meaning self.entry.host.now) u.number) }
    {
        Neighbours::of(self.host, u.number).any(|w| w.number != v.number
            && self.planariser.blocks(u.point, v.point, w.point))
    }

    // Whether neighbour `v` of `u` has that number and the link to it is kept.
    pub(crate) fn is_kept_as(self, u: Node, v: Node, number: u8) -> bool
        ensures { result ≡ (v.number == number) && not (blocked (P.Planariser.blocking self.entry.planariser.now) u.point v (neighbours (R.Reading.meaning self.entry.host.now) u.number)) }
    {
        v.number == number && !self.is_blocked(u, v)
    }

    /// Whether the link from node `i` to node `j` is kept; where one of them is no node, it is not.
    pub fn is_kept(self, i: u8, j: u8) -> bool
        ensures { result ≡ is_among (kept_neighbours (P.Planariser.blocking self.entry.planariser.now) (R.Reading.meaning self.entry.host.now) i) j }
    {
        let Some(u) = self.node(i) else { return false };
        let Some(v) = self.host.next_neighbour(i, j) else {
            return false
        };
        self.is_kept_as(u, v, j)
    }

    // The number of kept neighbours of node `i` that are numbered above it.
    fn kept_above(self, i: u8) -> u16
        ensures { result ≡ length (filter (λ v. nat_lt i v.number) (kept_neighbours (P.Planariser.blocking self.entry.planariser.now) (R.Reading.meaning self.entry.host.now) i)) }
    {
        let Some(u) = self.node(i) else { return 0 };
        Neighbours::numbered_from(self.host, i, i + 1)
            .filter(|v| !self.is_blocked(u, *v))
            .count() as u16
    }

    /// The number of kept links, added up node by node as its definition does.
    pub fn kept_links(self) -> u16
        ensures { result ≡ kept_links (P.Planariser.blocking self.entry.planariser.now) (R.Reading.meaning self.entry.host.now) }
    {
        let mut total = 0;
        for i in 0..self.host.count() {
            total += self.kept_above(i);
        }
        total
    }
}
