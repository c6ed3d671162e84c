//! Laws that each answer of an overlay is the only one that its contract allows.

ghost use Rattle.overlay_extract.specs.Determined.{OneResult, OneListOfContours, OneListOfLinks};

/// Two results for one arrangement, asked for alike, are equal.
pub fn one_result()
    ensures { OneResult }
{}

/// Two lists of contours for one arrangement, asked for alike, are equal.
pub fn one_list_of_contours()
    ensures { OneListOfContours }
{}

/// Two hierarchies for one arrangement, asked for alike, have equal links in one order. Their shapes are results.
pub fn one_list_of_links()
    ensures { OneListOfLinks }
{}
