//! What a builder holds after a query is the only content that snap rounding allows.

ghost use Rattle.i_overlay.specs.Determined.{OneQuery};

/// Two builders after a query that snap rounding answered are equal.
pub fn one_query()
    ensures { OneQuery }
{}
