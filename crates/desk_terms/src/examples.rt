// Which terms of composites are in range, worked out by hand.
ghost use Rattle.desk_terms.specs.Examples.{ArePartsWorked};

// The limits of a composite's parts.
fn parts_are_worked_through()
    ensures { ArePartsWorked }
{}
