//! The edges of a settled list over a vertical line.

ghost use Rattle.overlay_plane.specs.Order.{OrderOverAnAbscissa, OrderAlongCommonSpans};
ghost use Rattle.overlay_plane.specs.Order.{EndsOnOneSide, EndsBelowWhereUnder};

/// The edges that cover an x-coordinate are in strict and total order there.
pub fn order_over_an_abscissa()
    ensures { OrderOverAnAbscissa }
{}

/// Two edges are in one order at all x-coordinates that both cover.
pub fn order_along_common_spans()
    ensures { OrderAlongCommonSpans }
{}

/// An edge over the inside of another edge has both ends strictly below that edge, or both strictly above.
pub fn ends_on_one_side()
    ensures { EndsOnOneSide }
{}

/// An end of an edge over the inside of another edge is below that edge exactly where the edge is under it.
pub fn ends_below_where_under()
    ensures { EndsBelowWhereUnder }
{}
