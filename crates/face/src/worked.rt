ghost use Rattle.face.specs.Worked.{WorkedFloors};

/// The rules do on the floors worked through by hand what was worked out.
pub fn worked_floors()
    ensures { WorkedFloors }
{}
