//! Faces as orbits: a permutation of finitely many darts, walked until it comes back.

#![tactic(auto)]

ghost use Rattle.orbit.specs.Walks.{ComesBack};

/// Every face closes, and meets no dart twice before.
pub fn faces_close()
    ensures { ComesBack }
{}
