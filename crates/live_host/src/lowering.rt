//! Laws on networks that are declared with less than they were: the lines of a shorter journal declare them so.

ghost use Rattle.live_host.specs.Lowering.{BegunWithLess, DeclarationsAreServed, DeclarationsLeaveOne, LessBegins, LessIsConfigured, LessIsMovedBack, LoweredDeclarationsDeclareLess, LoweredLinesAreNoLonger, LoweredLinesDeclareLess, NodeLinesStay, RunsDeclare};

/// A law: a line that declares something of a network declares as much less once it is lowered, and is no longer than
/// it was.
pub fn lowered_lines_declare_less()
    ensures less { LoweredLinesDeclareLess }
    ensures nodes { NodeLinesStay }
    ensures no_longer { LoweredLinesAreNoLonger }
{}

/// A law: lines that are taken and declare a network are taken once they are lowered, and declare as much less.
pub fn lowered_declarations_declare_less()
    ensures runs { RunsDeclare }
    ensures served { DeclarationsAreServed }
    ensures less { LoweredDeclarationsDeclareLess }
    ensures one { DeclarationsLeaveOne }
{}

/// A law: what was declared with less is configured with less. With as much more declared and used up it is what it
/// was.
pub fn less_is_configured()
    ensures configured { LessIsConfigured }
    ensures moved_back { LessIsMovedBack }
    ensures begun { BegunWithLess }
    ensures begins { LessBegins }
{}
