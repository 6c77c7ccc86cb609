ghost use Rattle.std.specs.Prelude.{◌≡◌, true, false, length};
ghost use Rattle.floor.specs.Meaning.{Meaning, Mapped, radio};
ghost use Rattle.host.specs.Laws.{SwitchedBack};
ghost use Rattle.host.specs.Questions.{next_neighbour, with_mark};

use floor::node::{Node, Radio};

/// The reading side of a host: three questions, which alter nothing and are answered from its meaning.
pub trait Reading {
    ghost meaning: { Self → Meaning };

    /// The number of nodes.
    fn count(&self) -> u8
        ensures { result ≡ length (meaning self.now).nodes };

    /// The point and the mark of node i.
    fn radio(&self, i: u8) -> Option<Radio>
        ensures { result ≡ radio (meaning self.now) i };

    /// The lowest-numbered neighbour of node i whose number is at least j.
    fn next_neighbour(&self, i: u8, j: u8) -> Option<Node>
        ensures { result ≡ next_neighbour (meaning self.now) i j };

    // its nodes form a map
    ghost mapped: { (h : Self) → Mapped (meaning h) };
}

/// The switching side: one node is withdrawn or returned.
pub trait Switching: Reading {
    /// Takes node i out of service or puts it into service; a number that is no node alters nothing.
    fn switch(&mut self, i: u8, serving: bool)
        ensures { Self.Reading.meaning self.new ≡ with_mark (Self.Reading.meaning self.old) i serving };

    /// Takes node i out of service; a number that is no node alters nothing.
    fn withdraw(&mut self, i: u8)
        ensures { Self.Reading.meaning self.new ≡ with_mark (Self.Reading.meaning self.old) i false }
    {
        self.switch(i, false);
    }

    /// Puts node i into service; a number that is no node alters nothing.
    fn restore(&mut self, i: u8)
        ensures { Self.Reading.meaning self.new ≡ with_mark (Self.Reading.meaning self.old) i true }
    {
        self.switch(i, true);
    }
}

/// What holds of every switching: a node that is switched back is as it was, and so is everything else.
pub fn switching_laws()
    ensures { SwitchedBack }
{}
