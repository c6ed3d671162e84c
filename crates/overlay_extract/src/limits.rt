//! The number of parents from which on contours are bound with live edges in a tree.

/// Least number of parents with which live edges stand in a tree from the first one on. Parents are shapes for holes,
/// and holes for islands.
pub const TREE_FROM_PARENTS: usize = 32;
