//! What holds of every path.
ghost use Rattle.a68_coerce.specs.Kept.{InterningKeeps, InterningKeepsMembers, KeepBalances, KeepForms, KeepPaths, KeepSides, PathsAreOne};

/// A law: of each sort one path leads from one mode to another.
pub fn paths_are_one()
    ensures { PathsAreOne }
{}

/// A law: interning a mode changes no path between the modes that were there and no balance, where the members of unions
/// have no FLEX; and they have none as before, unless the mode is a union or a mode word.
pub fn interning_keeps_paths()
    ensures paths { InterningKeeps KeepPaths }
    ensures balances { InterningKeeps KeepBalances }
    ensures forms { InterningKeeps KeepForms }
    ensures sides { InterningKeeps KeepSides }
    ensures members { InterningKeepsMembers }
{}
