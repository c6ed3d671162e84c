//! What paths are simplified to is the only answer that the contracts allow.

ghost use Rattle.i_overlay.specs.Determined.{OneSimplified, OneSimplifiedList};

/// Of one arrangement, two lists of shapes to which a source is simplified are equal.
pub fn one_simplified()
    ensures { OneSimplified }
{}

/// So are two lists of contours that are left in a buffer.
pub fn one_simplified_list()
    ensures { OneSimplifiedList }
{}
