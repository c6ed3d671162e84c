//! Laws of edges with data.

ghost use Rattle.overlay_vector.specs.JoinedRuns.{JoinedEdgesStandForTheirs};
ghost use Rattle.overlay_vector.specs.OneVectorShapes.{VectorShapesShowOneList, OneListOfVectorShapes};
ghost use Rattle.overlay_vector.specs.OneVectors.{OneListOfVectors};
ghost use Rattle.overlay_vector.specs.SideFills.{TurningTwiceKeepsFills};

use overlay_order::data::OverlayEdgeData;

/// Each joined edge leads as a run of neighbours does, and has the filled sides of each. Its data equals that of each.
/// The runs, one behind another, are the whole contour.
pub fn joined_edges_stand_for_theirs<D: OverlayEdgeData>()
    ensures { JoinedEdgesStandForTheirs D.eq }
{}

/// Filled sides that are reversed twice are their four bits.
pub fn reversed_twice_keeps_four_bits()
    ensures { TurningTwiceKeepsFills }
{}

/// Two answers as shapes of edges with data, asked for alike over one arrangement, show one list of shapes. Each step
/// has its filled sides and data. Where edges stay, and data has one way back, the answers are equal.
pub fn one_list_of_vector_shapes<D: OverlayEdgeData>()
    ensures shown { VectorShapesShowOneList D.reverses D.eq }
    ensures kept { OneListOfVectorShapes D.reverses D.eq }
{}

/// Two answers as edges, which list the selected edges of one arrangement with data, are equal.
pub fn one_list_of_vectors<D: OverlayEdgeData>()
    ensures { OneListOfVectors D }
{}
