//! How shapes as given meet.

ghost use Rattle.overlay_contacts.specs.GivenContacts.{GivenContacts};

/// Whether shapes as given intersect, touch, meet in single points or are disjoint is told by the plain points and the
/// pieces of their merged edges.
pub fn given_contacts()
    ensures { GivenContacts }
{}
