//! The parts of an edge at which points of it lie.

ghost use Rattle.std.specs.Prelude.{◌≡◌, pos, nat_abs, ◌*ℤ◌};
ghost use Rattle.std.specs.Ordering.{int_cmp};
ghost use Rattle.overlay_geom.specs.Numbers.{Within};
ghost use Rattle.overlay_geom.specs.Placed.{IsAcross};
ghost use Rattle.overlay_geom.specs.Plane.{in_plane, IsOn};
ghost use Rattle.overlay_geom.specs.Points.{plain_point, InRange};
ghost use Rattle.overlay_geom.specs.Resolved.{plain_edge, IsLongEdge};
ghost use Rattle.overlay_exact.specs.Parts.{fraction, LiesAt, ShareOneAt, way_to};

use crate::exact_int::ExactInt;
use crate::part::Part;
use overlay_geom::edge::IntEdge;
use overlay_geom::number::{IntNumber, WideIntNumber};
use overlay_geom::point::IntPoint;
use overlay_geom::vector::cross_at;
use std::cmp::Ordering;

/// Compares two parts: `Less` where the first lies nearer to the edge's smaller end.
pub fn compare_parts<I: ExactInt>(s: Part<I::Wide>, t: Part<I::Wide>) -> Ordering
    ensures { result ≡ int_cmp (I.Wide.whole s.n *ℤ I.Wide.whole t.d) (I.Wide.whole t.n *ℤ I.Wide.whole s.d) }
{
    I::compare_fractions(s.n, s.d, t.n, t.d)
}

/// Returns the part of e at which f meets it. Each edge goes across the other's line, so they share one point.
pub fn part_of_crossing<I: IntNumber>(e: IntEdge<I>, f: IntEdge<I>) -> Part<I::Wide>
    requires one { IsLongEdge I.limit (plain_edge I.whole e) }
    requires other { IsLongEdge I.limit (plain_edge I.whole f) }
    requires forth { IsAcross (plain_edge I.whole e) (plain_edge I.whole f) }
    requires back { IsAcross (plain_edge I.whole f) (plain_edge I.whole e) }
    ensures { ShareOneAt (plain_edge I.whole e) (plain_edge I.whole f) (fraction I.Wide.whole result.n result.d) }
{
    Part {
        n: magnitude(cross_at(f.a, f.b, e.a)),
        d: magnitude((f.b - f.a).cross_product(e.b - e.a)),
    }
}

// Returns the absolute value of the number.
fn magnitude<W: WideIntNumber>(number: W) -> W
    requires { Within W.limit (W.whole number) }
    ensures { W.whole result ≡ pos (nat_abs (W.whole number)) }
{
    if number.sign().is_lt() {
        number.negate()
    } else {
        number
    }
}

/// Returns the part of the edge at which a whole point of it lies.
pub fn part_of_point<I: IntNumber>(e: IntEdge<I>, v: IntPoint<I>) -> Part<I::Wide>
    requires edge { IsLongEdge I.limit (plain_edge I.whole e) }
    requires point { IsOn (plain_edge I.whole e) (in_plane (plain_point I.whole v)) }
    ensures { LiesAt (plain_edge I.whole e) (fraction I.Wide.whole result.n result.d)
        (in_plane (plain_point I.whole v)) }
{
    Part {
        n: way_to(e, v),
        d: way_to(e, e.b),
    }
}

// Returns the product of the edge's direction with the way from its smaller end to v.
fn way_to<I: IntNumber>(e: IntEdge<I>, v: IntPoint<I>) -> I::Wide
    requires edge { IsLongEdge I.limit (plain_edge I.whole e) }
    requires point { InRange I.limit (plain_point I.whole v) }
    ensures { I.Wide.whole result ≡ way_to (plain_edge I.whole e) (plain_point I.whole v) }
{
    let along = e.b - e.a;
    let back = e.a - v;
    let way = v - e.a;
    I::cross(along.x, along.y, back.y, way.x)
}
