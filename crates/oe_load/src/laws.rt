//! What determines a script: laws, which do nothing.
ghost use Rattle.oe_load.specs.Laws.{Scripts_are_one, Turns_are_one};

/// From one state there is one script of each length.
pub fn turns_are_one()
    ensures { Turns_are_one }
{}

/// A plan, and what it begins on, have one whole script.
pub fn scripts_are_one()
    ensures { Scripts_are_one }
{}
