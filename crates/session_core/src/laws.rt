// Laws of the definitions, for every bench and every session.
ghost use Rattle.session_core.specs.Laws.{AsksLeaveStored};

/// A law: out of memory in a turn without a line, or in an ask, exactly the values of the computations that ended are stored.
pub fn asks_leave_stored()
    ensures { AsksLeaveStored }
{}
