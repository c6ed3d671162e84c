//! Shapes of edges as arrays, with the filled sides of each step.

ghost use Rattle.std.specs.Prelude.{◌∷◌, ◌++◌, ◌≡◌, [], IfOk, OnOk};
ghost use Rattle.overlay_vector.specs.DataVectors.{plain_data_vector, plain_data_vectors};
ghost use Rattle.overlay_vector.specs.VectorShapes.{plain_vector_shape, plain_vector_shapes};
ghost use Rattle.polyover_vectors.specs.Flattened.{AreContoursIn, AreStepsAdded, AreVectorsIn, vector_arrays};

use overlay_geom::number::IntNumber;
use overlay_order::vector::DataVectorEdge;
use overlay_vector::path::{VectorPath, VectorShape};
use std::alloc::{AllocError, Global};

/// Shapes as arrays.
#[derive(Drop)]
pub(crate) struct FlatVectors<I> {
    /// The points in which steps begin, x before y.
    pub(crate) coordinates: Vec<I, Global>,
    /// How many points there are up to the end of each contour.
    pub(crate) contour_ends: Vec<usize, Global>,
    /// How many contours there are up to the end of each shape.
    pub(crate) shape_ends: Vec<usize, Global>,
    /// The fill bits of each step.
    pub(crate) fills: Vec<u8, Global>,
}

/// Returns the shapes, one behind the other.
pub(crate) fn flattened<I: IntNumber>(
    alloc: Global,
    shapes: &[VectorShape<I, Global>],
) -> Result<FlatVectors<I>, AllocError>
    ensures { IfOk result (λ f. AreVectorsIn I.whole (plain_vector_shapes I.whole shapes.now)
        (vector_arrays f.coordinates.items f.contour_ends.items f.shape_ends.items f.fills.items)) }
{
    let mut flat = FlatVectors {
        coordinates: Vec::new(alloc),
        contour_ends: Vec::new(alloc),
        shape_ends: Vec::new(alloc),
        fills: Vec::new(alloc),
    };
    for shape in shapes {
        push_shape(&mut flat, shape)?;
    }
    Ok(flat)
}

// Adds the contours of the shape, and its end.
fn push_shape<I: IntNumber>(
    flat: &mut FlatVectors<I>,
    shape: &VectorShape<I, Global>,
) -> Result<(), AllocError>
    ensures { OnOk result ((ss : _) → AreVectorsIn I.whole ss
        (vector_arrays flat.old.coordinates.items flat.old.contour_ends.items flat.old.shape_ends.items
        flat.old.fills.items) → AreVectorsIn I.whole (ss ++ plain_vector_shape I.whole shape.now.items ∷ [])
        (vector_arrays flat.new.coordinates.items flat.new.contour_ends.items flat.new.shape_ends.items
        flat.new.fills.items)) }
{
    push_contours(flat, shape)?;
    flat.shape_ends.push(flat.contour_ends.len())?;
    Ok(())
}

// Adds the contours.
fn push_contours<I: IntNumber>(
    flat: &mut FlatVectors<I>,
    contours: &VectorShape<I, Global>,
) -> Result<(), AllocError>
    ensures added { OnOk result ((cs : _) → AreContoursIn I.whole cs
        (vector_arrays flat.old.coordinates.items flat.old.contour_ends.items flat.old.shape_ends.items
        flat.old.fills.items) → AreContoursIn I.whole (cs ++ plain_vector_shape I.whole contours.now.items)
        (vector_arrays flat.new.coordinates.items flat.new.contour_ends.items flat.new.shape_ends.items
        flat.new.fills.items)) }
    ensures shapes { OnOk result (flat.new.shape_ends ≡ flat.old.shape_ends) }
{
    for contour in contours {
        push_contour(flat, contour)?;
    }
    Ok(())
}

// Adds the steps of the contour, and its end.
fn push_contour<I: IntNumber>(
    flat: &mut FlatVectors<I>,
    contour: &VectorPath<I, Global>,
) -> Result<(), AllocError>
    ensures added { OnOk result ((cs : _) → AreContoursIn I.whole cs
        (vector_arrays flat.old.coordinates.items flat.old.contour_ends.items flat.old.shape_ends.items
        flat.old.fills.items) → AreContoursIn I.whole (cs ++ plain_data_vectors I.whole contour.now.items ∷ [])
        (vector_arrays flat.new.coordinates.items flat.new.contour_ends.items flat.new.shape_ends.items
        flat.new.fills.items)) }
    ensures shapes { OnOk result (flat.new.shape_ends ≡ flat.old.shape_ends) }
{
    push_steps(flat, contour)?;
    flat.contour_ends.push(flat.fills.len())?;
    Ok(())
}

// Adds the steps.
fn push_steps<I: IntNumber>(
    flat: &mut FlatVectors<I>,
    steps: &VectorPath<I, Global>,
) -> Result<(), AllocError>
    ensures added { OnOk result (AreStepsAdded I.whole (plain_data_vectors I.whole steps.now.items)
        flat.old.coordinates.items flat.old.fills.items flat.new.coordinates.items flat.new.fills.items) }
    ensures contours { OnOk result (flat.new.contour_ends ≡ flat.old.contour_ends) }
    ensures shapes { OnOk result (flat.new.shape_ends ≡ flat.old.shape_ends) }
{
    for step in steps {
        push_step(flat, step)?;
    }
    Ok(())
}

// Adds the step: where it begins, and its fill bits.
fn push_step<I: IntNumber>(
    flat: &mut FlatVectors<I>,
    step: &DataVectorEdge<I, ()>,
) -> Result<(), AllocError>
    ensures added { OnOk result (AreStepsAdded I.whole (plain_data_vector I.whole step.now ∷ [])
        flat.old.coordinates.items flat.old.fills.items flat.new.coordinates.items flat.new.fills.items) }
    ensures contours { OnOk result (flat.new.contour_ends ≡ flat.old.contour_ends) }
    ensures shapes { OnOk result (flat.new.shape_ends ≡ flat.old.shape_ends) }
{
    flat.coordinates.push(step.a.x)?;
    flat.coordinates.push(step.a.y)?;
    flat.fills.push(step.fill)?;
    Ok(())
}
