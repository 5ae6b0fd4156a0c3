// Corners of the definitions, worked on one small plant: a theorem, and the contract of a function that does nothing else.
#![tactic(auto)]

ghost use Rattle.corners.specs.Corners.{Corners};

// The eight worked corners.
pub fn worked_corners()
    ensures { Corners }
{}
