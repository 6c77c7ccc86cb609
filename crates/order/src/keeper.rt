//! An order, and a keeper of the foremost of what it is offered.
ghost use Rattle.std.specs.Prelude.{◌≡◌, Bool, true, false, [], Some, None, MatchOption};
ghost use Rattle.order.specs.Foremost.{taken, offered, returned, foremost, In, First};

/// What comes before what; two items may tie.
// Not std's `Ord`: that asks its laws of every value and calls those that tie equal; these hold of proper items, and two that tie differ.
pub trait Order {
    ghost before: { Self → Self → Bool };

    // which values are items of this kind: the laws are of these
    ghost proper: { Self → Type 0 };

    /// Whether this comes before the other.
    fn comes_before(&self, other: &Self) -> bool
        ensures { result ≡ before self.now other.now };

    ghost irreflexive: { (x : Self) → before x x ≡ false };

    ghost transitive: { (x y z : Self) → proper x → proper y → proper z → before x y ≡ true → before y z ≡ true → before x z ≡ true };

    // two that tie compare alike with every third
    ghost alike: { (x y z : Self) → proper x → proper y → proper z → before x y ≡ false → before y x ≡ false → (before x z ≡ before y z) × (before z x ≡ before z y) };
}

/// Holds the foremost of what it was offered, and of equals the first.
pub struct Keeper<T: Order> {
    held: Option<T>,
}

impl<T: Order> Keeper<T> {
    /// Holds nothing.
    pub fn new() -> Keeper<T>
        ensures { result.held ≡ None }
    {
        Keeper { held: None }
    }

    /// Whether it would take `x`: nothing is held, or `x` comes before what is.
    pub fn would_take(&self, x: &T) -> bool
        ensures { result ≡ taken T.Order.before self.now.held x.now }
    {
        match &self.held {
            None => true,
            Some(held) => x.comes_before(held),
        }
    }

    /// Takes `x` where nothing is held or `x` comes before what is, and hands back what is not kept.
    pub fn offer(&mut self, x: T) -> Option<T>
        ensures after { self.new.held ≡ offered T.Order.before self.old.held x }
        ensures back { result ≡ returned T.Order.before self.old.held x }
    {
        if self.would_take(&x) {
            self.replace(x)
        } else {
            Some(x)
        }
    }

    /// Holds `x` in place of what is held, and hands that back: for what `would_take` was asked of before.
    pub fn replace(&mut self, x: T) -> Option<T>
        ensures after { self.new.held ≡ Some x }
        ensures back { result ≡ self.old.held }
    {
        self.held.replace(x)
    }

    /// What is held at the end.
    pub fn into_held(self) -> Option<T>
        ensures { result ≡ self.held }
    {
        let Keeper { held } = self;
        held
    }
}

/// The foremost of a row: the first of its items that none of them comes before. An empty row has none.
pub fn foremost_of<T: Order + Copy>(row: &[T]) -> Option<T>
    ensures value { result ≡ foremost T.Order.before row.now }
    ensures first { ((y : T) → In y row.now → T.Order.proper y) → MatchOption result (row.now ≡ []) (λ w. First T.Order.before row.now w) }
{
    let mut keeper = Keeper::new();
    for x in row {
        let _back = keeper.offer(*x);
    }
    keeper.into_held()
}
