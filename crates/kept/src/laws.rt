ghost use Rattle.kept.specs.Laws.{KeptLaws};

/// The laws of the kept links, asked for by a contract.
pub fn kept_laws()
    ensures { KeptLaws }
{}
