//! The order in which a turning ray meets points round a node.

ghost use Rattle.std.specs.Prelude.{◌≡◌, ◌↔◌, [], ◌∷◌, ◌++◌, List, true, Some, pos, cond, int_lt};
ghost use Rattle.std.specs.Ordering.{int_cmp};
ghost use Rattle.overlay_geom.specs.Plane.{Point};
ghost use Rattle.overlay_geom.specs.Points.{plain_point, InRange};
ghost use Rattle.overlay_plane.specs.Turn.{turn, dot_at, part_of_turn, is_met_before};
ghost use Rattle.overlay_walk.specs.Nearest.{part_number, none_held, HasSeen, IsNearer};
ghost use Rattle.overlay_walk.specs.Steps.{plain_hand};

use crate::hand::Hand;
use overlay_geom::number::{IntNumber, WideIntNumber};
use overlay_geom::point::IntPoint;
use overlay_geom::vector::cross_at;
use std::cmp::Ordering;
use std::marker::Model;

/// A ray round a node: it begins in the direction of a point, and turns by a hand.
#[derive(Debug, Clone, Copy)]
pub struct Ray<I> {
    /// The node round which it turns.
    pub node: IntPoint<I>,
    /// The point from whose direction it begins to turn.
    pub start: IntPoint<I>,
    /// The hand by which it turns.
    pub hand: Hand,
}

/// The parts of a whole turn, in the order in which a ray comes to them.
#[derive(Clone, Copy, PartialEq, Eq, PartialOrd, Ord)]
pub(crate) enum TurnPart {
    /// Within the first half turn.
    FirstHalf,
    /// Straight ahead, where the half turn is made.
    Ahead,
    /// Within the second half turn.
    SecondHalf,
    /// In the direction of the start again.
    Again,
}

impl<I: IntNumber> Ray<I> {
    /// Returns whether the ray meets p before q. Points in the direction of its start come last. All points are in
    /// range.
    pub fn meets_before(self, p: IntPoint<I>, q: IntPoint<I>) -> bool
        requires node { InRange I.limit (plain_point I.whole self.node) }
        requires start { InRange I.limit (plain_point I.whole self.start) }
        requires p { InRange I.limit (plain_point I.whole p) }
        requires q { InRange I.limit (plain_point I.whole q) }
        ensures { result ≡ is_met_before (plain_hand self.hand) (plain_point I.whole self.node)
            (plain_point I.whole self.start)
            (plain_point I.whole p) (plain_point I.whole q) }
    {
        let part = self.part_of(p);
        match part.cmp(&self.part_of(q)) {
            Ordering::Less => true,
            Ordering::Equal => self.turn(p, q).is_gt(),
            Ordering::Greater => false,
        }
    }

    /// Returns the part of the turn in which the ray meets p.
    fn part_of(self, p: IntPoint<I>) -> TurnPart
        requires node { InRange I.limit (plain_point I.whole self.node) }
        requires start { InRange I.limit (plain_point I.whole self.start) }
        requires p { InRange I.limit (plain_point I.whole p) }
        ensures { part_number result
            ≡ part_of_turn (plain_hand self.hand) (plain_point I.whole self.node) (plain_point I.whole self.start)
            (plain_point I.whole p) }
    {
        match self.turn(self.start, p) {
            Ordering::Greater => TurnPart::FirstHalf,
            Ordering::Less => TurnPart::SecondHalf,
            Ordering::Equal => self.part_on_line(p),
        }
    }

    /// Returns the part of the turn in which the ray meets p, which is collinear with node and start.
    fn part_on_line(self, p: IntPoint<I>) -> TurnPart
        requires node { InRange I.limit (plain_point I.whole self.node) }
        requires start { InRange I.limit (plain_point I.whole self.start) }
        requires p { InRange I.limit (plain_point I.whole p) }
        ensures { let dot = dot_at (plain_point I.whole self.node) (plain_point I.whole self.start)
            (plain_point I.whole p) in
            part_number result ≡ cond (int_lt dot (pos 0)) 1 3 }
    {
        if self.inner_product(self.start, p).sign().is_lt() {
            TurnPart::Ahead
        } else {
            TurnPart::Again
        }
    }

    /// Compares directions: `Greater` where the ray, on its way from p, comes to q within a half turn, `Less` where
    /// later. It is `Equal` where the node, p and q are collinear.
    pub(crate) fn turn(self, p: IntPoint<I>, q: IntPoint<I>) -> Ordering
        requires node { InRange I.limit (plain_point I.whole self.node) }
        requires p { InRange I.limit (plain_point I.whole p) }
        requires q { InRange I.limit (plain_point I.whole q) }
        ensures { let turn = turn (plain_hand self.hand) (plain_point I.whole self.node) (plain_point I.whole p)
            (plain_point I.whole q) in
            result ≡ int_cmp turn (pos 0) }
    {
        match self.hand {
            Hand::Left => cross_at(self.node, q, p).sign(),
            Hand::Right => cross_at(self.node, p, q).sign(),
        }
    }

    /// Returns the inner product of the vectors from the node to p and to q.
    fn inner_product(self, p: IntPoint<I>, q: IntPoint<I>) -> I::Wide
        requires node { InRange I.limit (plain_point I.whole self.node) }
        requires p { InRange I.limit (plain_point I.whole p) }
        requires q { InRange I.limit (plain_point I.whole q) }
        ensures { I.Wide.whole result ≡ dot_at (plain_point I.whole self.node) (plain_point I.whole p)
            (plain_point I.whole q) }
    {
        let to_p = p - self.node;
        let to_q = q - self.node;
        // the cross product with the vector to q turned to the left
        let back_y = self.node.y.minus(q.y);
        I::cross(to_p.x, to_p.y, back_y, to_q.x)
    }
}

/// A ray round a node, and the point that it meets first of those added. Of points met at once, it is the point added
/// first.
#[derive(Drop)]
pub struct NearestVector<I: IntNumber> {
    ray: Ray<I>,
    nearest: Option<IntPoint<I>>,
}

impl<I: IntNumber> Model for NearestVector<I> {
    ghost use Rattle.std.specs.Prelude.{option_map, IfSome};
    ghost use Rattle.overlay_geom.specs.Points.{plain_point, InRange};
    ghost use Rattle.overlay_walk.specs.Nearest.{Nearest};
    ghost use Rattle.overlay_walk.specs.Steps.{plain_hand};

    ghost Value = { Nearest };

    ghost view = { λ n. record {
      hand = plain_hand n.ray.hand;
      node = plain_point I.whole n.ray.node;
      start = plain_point I.whole n.ray.start;
      nearest = option_map (plain_point I.whole) n.nearest;
    } };

    ghost invariant = { λ n. InRange I.limit (plain_point I.whole n.ray.node)
        × InRange I.limit (plain_point I.whole n.ray.start)
        × IfSome n.nearest (λ p. InRange I.limit (plain_point I.whole p)) };
}

impl<I: IntNumber> NearestVector<I> {
    /// Makes the ray without added points. Its points are in range.
    pub fn new(ray: Ray<I>) -> Self
        requires node { InRange I.limit (plain_point I.whole ray.node) }
        requires start { InRange I.limit (plain_point I.whole ray.start) }
        ensures { result ≡ none_held (plain_hand ray.hand) (plain_point I.whole ray.node)
            (plain_point I.whole ray.start) }
    {
        NearestVector { ray, nearest: None }
    }

    /// Returns whether the ray meets the point, which is in range, before each point added so far. Then it holds this
    /// point from now on. This needs different points as the ray's node and start; else the ray has no direction and
    /// meets no point first.
    pub fn add(&mut self, point: IntPoint<I>) -> bool
        requires { InRange I.limit (plain_point I.whole point) }
        ensures nearer { (seen : List Point) → HasSeen self.old seen
            → ((result ≡ true) ↔ IsNearer self.old seen (plain_point I.whole point)) }
        ensures seen { (seen : List Point) → HasSeen self.old seen →
            HasSeen self.new (seen ++ plain_point I.whole point ∷ []) }
        ensures held { self.new ≡ record self.old {
          nearest = cond result (Some (plain_point I.whole point))
              self.old.nearest;
        } }
    {
        let is_nearer = match self.nearest {
            None => true,
            Some(nearest) => self.ray.meets_before(point, nearest),
        };
        if is_nearer {
            self.nearest = Some(point);
        }
        is_nearer
    }
}
