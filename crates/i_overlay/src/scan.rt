//! Lists of live edges for a sweep from left to right: in a list, or in a balanced tree.

pub use overlay_scan::list::ScanList;
pub use overlay_scan::scan::Scan;
pub use overlay_scan::tree::ScanTree;
