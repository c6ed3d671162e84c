//! Names of nodes, and the links between nodes.

ghost use Rattle.std.specs.Prelude.{◌≡◌, ◌↔◌, true};
ghost use Rattle.overlay_scan.specs.Sides.{linked, on, opposite};

/// The name of a node.
#[derive(Clone, Copy)]
pub struct NodeIndex {
    /// The node's place in the list.
    pub place: usize,
}

/// A side of a node: the entries below it in a sweep are on its left.
#[derive(Clone, Copy)]
pub enum Side {
    /// The entries before the node in order.
    Left,
    /// The entries after the node in order.
    Right,
}

/// The roots of a node's left and right subtree, and the height of the tree below the node.
#[derive(Clone, Copy)]
pub struct Links {
    /// The root of the entries before the node.
    pub left: Option<NodeIndex>,
    /// The root of the entries after the node.
    pub right: Option<NodeIndex>,
    /// Number of nodes on the longest way down, this node included.
    pub height: usize,
}

/// The links of a node without subtrees.
pub const ALONE: Links = Links {
    left: None,
    right: None,
    height: 1,
};

/// Returns whether the two are equal nodes, or both none.
pub fn is_same(one: Option<NodeIndex>, other: Option<NodeIndex>) -> bool
    ensures { (result ≡ true) ↔ (one ≡ other) }
{
    match (one, other) {
        (Some(i), Some(j)) => i.place == j.place,
        (None, None) => true,
        _ => false,
    }
}

impl Side {
    /// Returns the other side.
    pub fn other(self) -> Side
        ensures { result ≡ opposite self }
    {
        match self {
            Side::Left => Side::Right,
            Side::Right => Side::Left,
        }
    }
}

impl Links {
    /// Makes links with `near` on the given side and `far` on the other side.
    pub fn new(side: Side, near: Option<NodeIndex>, far: Option<NodeIndex>, height: usize) -> Links
        ensures { result ≡ linked side near far height }
    {
        match side {
            Side::Left => Links {
                left: near,
                right: far,
                height,
            },
            Side::Right => Links {
                left: far,
                right: near,
                height,
            },
        }
    }

    /// Returns the node on the given side.
    pub fn on(self, side: Side) -> Option<NodeIndex>
        ensures { result ≡ on side self }
    {
        match side {
            Side::Left => self.left,
            Side::Right => self.right,
        }
    }
}
