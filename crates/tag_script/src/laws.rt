//! Laws of the definitions, each the contract of a function that does nothing.
ghost use Rattle.std.specs.Prelude.{◌≡◌};
ghost use Rattle.tag_script.specs.Laws.{LookingChangesNothing, RunsKeepLimits, RunsKeepReferences};
ghost use Rattle.tag_script.specs.Weight.{most_weight};

use crate::weighed::MOST_WEIGHT;

/// A script without assignments and without `var` leaves the environment as it was.
pub fn looking_changes_nothing()
    ensures { LookingChangesNothing }
{}

/// A script changes variables and `out` alone, and keeps them within the limits of values.
pub fn runs_keep()
    ensures limits { RunsKeepLimits }
    ensures references { RunsKeepReferences }
{}

/// The constant is the weight that is stated.
pub fn the_most_weight_is_stated()
    ensures { MOST_WEIGHT ≡ most_weight }
{}
