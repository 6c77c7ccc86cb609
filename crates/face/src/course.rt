ghost use Rattle.std.specs.Prelude.{◌≡◌, ◌<◌};
ghost use Rattle.order.specs.Places.{nearer};
ghost use Rattle.face.specs.Packet.{more, new_round, better, best_after, counted, walking};
ghost use Rattle.order.specs.Nearest;

use crate::record::{Best, Course, Link, Phase};
use order::Place;
use order::keeper::{Keeper, Order};

/// One more, up to the largest number.
pub fn one_more(n: u16) -> u16
    ensures { result ≡ more n }
{
    n.saturating_add(1)
}

/// The crossing nearest the target comes first.
impl Order for Best {
    ghost before = { λ a b. nearer a.place b.place };

    ghost proper = { λ b. 0 < b.place.below };

    ghost irreflexive = { λ b. Nearest.never b.place };

    ghost transitive = { λ a b c. Nearest.transitive a.place b.place c.place };

    ghost alike = { λ a b c. Nearest.alike a.place b.place c.place };

    fn comes_before(&self, other: &Best) -> bool {
        self.place.comes_before(&other.place)
    }
}

// The best crossing, when a link crosses at a place nearer than the entry: one at the best's own place marks it.
fn better(link: Link, index: u16, place: Place, best: Option<Best>) -> Option<Best>
    ensures { result ≡ better link index place best }
{
    let mut keeper = Keeper::new();
    if let Some(best) = best {
        keeper.offer(best);
    }
    let other = keeper.offer(Best {
        link,
        index,
        place,
        marked: false,
    });
    match (keeper.into_held(), other) {
        (Some(best), Some(other)) if !best.comes_before(&other) => Some(Best {
            marked: true,
            ..best
        }),
        (held, _) => held,
    }
}

impl Course {
    /// A round that begins at a place along a first link.
    pub fn new_round(place: Place, first: Option<Link>) -> Course
        ensures { result ≡ new_round place first }
    {
        Course {
            phase: Phase::Round,
            first,
            sends: 0,
            entry: place,
            best: None,
            walk: 0,
        }
    }

    // The best crossing after a link, and where that crosses.
    fn best_after(self, link: Link, crossed: Option<Place>) -> Option<Best>
        ensures { result ≡ best_after self link crossed }
    {
        match crossed {
            Some(place) if place.comes_before(&self.entry) => better(
                link, self.sends, place, self.best,
            ),
            _ => self.best,
        }
    }

    /// The course of a round after one link more.
    pub fn counted(self, link: Link, crossed: Option<Place>) -> Course
        ensures { result ≡ counted self link crossed }
    {
        Course {
            sends: one_more(self.sends),
            best: self.best_after(link, crossed),
            ..self
        }
    }

    /// The course with so many sends to walk.
    pub fn walking(self, phase: Phase, walk: u16) -> Course
        ensures { result ≡ walking phase walk self }
    {
        Course {
            phase,
            walk,
            ..self
        }
    }
}
