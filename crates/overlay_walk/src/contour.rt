//! Contours and their roles.

ghost use Rattle.std.specs.Prelude.{◌≡◌};
ghost use Rattle.overlay_plane.specs.RoledContours.{stands_in, is_outline};
ghost use Rattle.overlay_walk.specs.GroupedContours.{plain_role};

use crate::step::Step;
use std::alloc::Allocator;

/// The role of a contour. Shapes are numbered from 0, by their outlines.
#[derive(Debug, Clone, Copy, PartialEq, Eq)]
pub enum Role {
    /// The outline of the shape with this number.
    Outline(usize),
    /// A hole of this shape from the start, in the group of its outline.
    OwnHole(usize),
    /// A hole whose shape is still to be found.
    FreeHole,
}

impl Role {
    /// Returns the number of the contour's shape, if it is known from the start.
    pub fn shape(self) -> Option<usize>
        ensures { result ≡ stands_in (plain_role self) }
    {
        match self {
            Role::Outline(number) | Role::OwnHole(number) => Some(number),
            Role::FreeHole => None,
        }
    }

    /// Returns whether the contour is an outline.
    pub fn is_outline(self) -> bool
        ensures { result ≡ is_outline (plain_role self) }
    {
        matches!(self, Role::Outline(_))
    }
}

/// A closed walk, and its role.
#[derive(Drop)]
pub struct Contour<I, A: Allocator> {
    /// The role of the contour.
    pub role: Role,
    /// The steps of the contour.
    pub steps: Vec<Step<I>, A>,
}
