// Rows on what sessions count, checked against the definitions.
ghost use Rattle.session_model.specs.RoomRows.{AreBegun, AreComputed, AreForwarded, AreFull};

/// A discount factor computes what is not current, once.
pub fn discount_factors_are_computed()
    ensures { AreComputed }
{}

/// Forwarding is turned on and off, and writes nothing.
pub fn forwarding_is_worked_through()
    ensures { AreForwarded }
{}

/// A session is full by its live objects, until one is dropped, and by the numbers that were given.
pub fn room_is_worked_through()
    ensures { AreFull }
{}

/// A session begins with the names and the actions that it was given.
pub fn beginnings_are_worked_through()
    ensures { AreBegun }
{}
