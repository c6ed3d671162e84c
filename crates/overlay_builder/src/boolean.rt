//! The counts of an edge that a contour of the subject or of the clip passes once.

ghost use Rattle.std.specs.Prelude.{◌≡◌};
ghost use Rattle.overlay_order.specs.Content.{count_for};
ghost use Rattle.overlay_builder.specs.Passing.{passing, passing_without_data, without_data};

use crate::path::StepCounts;
use overlay_geom::options::ShapeType;
use overlay_order::count::ShapeCountBoolean;
use overlay_order::data::CountWithData;

/// Returns the counts of an edge that the shape passes `count` times.
fn count_for(shape_type: ShapeType, count: i32) -> ShapeCountBoolean
    ensures { result ≡ count_for shape_type count }
{
    match shape_type {
        ShapeType::Subject => ShapeCountBoolean {
            subj: count,
            clip: 0,
        },
        ShapeType::Clip => ShapeCountBoolean {
            subj: 0,
            clip: count,
        },
    }
}

/// Returns the counts of an edge that a step of the subject or of the clip passes. They are 1 where the step runs from
/// its smaller to its larger end, and -1 where it runs back.
pub fn passing(shape_type: ShapeType) -> StepCounts<ShapeCountBoolean>
    ensures { result ≡ passing shape_type }
{
    StepCounts {
        along: count_for(shape_type, 1),
        back: count_for(shape_type, -1),
    }
}

/// Returns the counts of `passing` without data, for edges that may carry data.
pub fn passing_without_data(shape_type: ShapeType) -> StepCounts<CountWithData<()>>
    ensures { result ≡ passing_without_data shape_type }
{
    let passing = passing(shape_type);
    StepCounts {
        along: without_data(passing.along),
        back: without_data(passing.back),
    }
}

/// Returns the counts without data.
fn without_data(count: ShapeCountBoolean) -> CountWithData<()>
    ensures { result ≡ without_data count }
{
    CountWithData {
        count,
        edge_data: (),
    }
}
