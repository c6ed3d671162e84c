//! Groups of equal points in a sorted list of meeting points.

ghost use Rattle.std.specs.Prelude.{◌<◌, length};
ghost use Rattle.overlay_exact.specs.Along.{plain_mets};
ghost use Rattle.overlay_exact.specs.Groups.{AreInOrderAlongOne, IsGroup};

use crate::exact_int::ExactInt;
use crate::met::MetAlong;
use crate::place::compare_parts;

/// Returns the end of the group that begins at the place `from`: the first later place of a point that lies further
/// along the edge, or the number of points. The points are sorted, as by `sort_along`.
pub fn group_end<I: ExactInt>(met: &[MetAlong<I::Wide>], from: usize) -> usize
    requires within { from < length met.now }
    requires order { AreInOrderAlongOne (plain_mets I.Wide.whole met.now) }
    ensures { IsGroup (plain_mets I.Wide.whole met.now) from result }
{
    let part = met[from].part;
    let mut end = from + 1;
    while end < met.len() && compare_parts::<I>(part, met[end].part).is_eq() {
        end += 1;
    }
    end
}
