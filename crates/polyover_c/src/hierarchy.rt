//! Overlays with the links between their shapes.

ghost use Rattle.std.specs.Prelude.{◌≡◌};
ghost use Rattle.std.specs.Int.{w64, w128};
ghost use Rattle.polyover_calls.specs.Given.{contours_of};
ghost use Rattle.polyover_calls.specs.Hierarchies.{HierarchyEnds};
ghost use Rattle.polyover_calls.specs.Linked.{linked_room};
ghost use Rattle.polyover_calls.specs.Options.{options_32, options_64};
ghost use Rattle.polyover_calls.specs.Statuses.{code_of};
ghost use Rattle.polyover_calls.specs.declared.status.Status.{Status};

use polyover_calls::arrays::{Contours32, Contours64};
use polyover_calls::asked::OverlayNumbers;
use polyover_calls::counts::Counts;
use polyover_calls::hierarchy::hierarchy_arrays;
use polyover_calls::links::Link;
use polyover_calls::options::{Options32, Options64};
use std::alloc::Global;

/// Puts the shapes of the overlay that the rules and options ask for into the arrays, with their counts, and a link for
/// each shape in a hole of another. It answers the code of a status.
#[unsafe(no_mangle)]
pub extern "C" fn polyover_hierarchy_with(
    alloc: Global,
    rule: u32,
    fill: u32,
    options: &Options64,
    subject: &Contours64,
    clip: &Contours64,
    coordinates: &mut [i64],
    contour_ends: &mut [usize],
    shape_ends: &mut [usize],
    links: &mut [Link],
    counts: &mut Counts,
    link_count: &mut usize,
) -> u32
    ensures { (s : Status) × HierarchyEnds (λ z. z) 4611686018427387903 w128 (λ n. n) rule fill
        (options_64 options.now)
        (contours_of subject.now.coordinates.now subject.now.ends.now)
        (contours_of clip.now.coordinates.now clip.now.ends.now)
        (linked_room coordinates.old contour_ends.old shape_ends.old links.old counts.old link_count.old)
        (linked_room coordinates.new contour_ends.new shape_ends.new links.new counts.new link_count.new)
        s × (result ≡ code_of s) }
{
    let asked = OverlayNumbers {
        rule,
        fill,
        options: options.numbers(),
        subject: subject.given(),
        clip: clip.given(),
    };
    hierarchy_arrays(
        alloc,
        &asked,
        coordinates,
        contour_ends,
        shape_ends,
        links,
        counts,
        link_count,
    )
    .code()
}

/// `polyover_hierarchy_with` at 32 bits.
#[unsafe(no_mangle)]
pub extern "C" fn polyover_hierarchy_with_32(
    alloc: Global,
    rule: u32,
    fill: u32,
    options: &Options32,
    subject: &Contours32,
    clip: &Contours32,
    coordinates: &mut [i32],
    contour_ends: &mut [usize],
    shape_ends: &mut [usize],
    links: &mut [Link],
    counts: &mut Counts,
    link_count: &mut usize,
) -> u32
    ensures { (s : Status) × HierarchyEnds (λ z. z) 1073741823 w64 (λ n. n) rule fill
        (options_32 options.now)
        (contours_of subject.now.coordinates.now subject.now.ends.now)
        (contours_of clip.now.coordinates.now clip.now.ends.now)
        (linked_room coordinates.old contour_ends.old shape_ends.old links.old counts.old link_count.old)
        (linked_room coordinates.new contour_ends.new shape_ends.new links.new counts.new link_count.new)
        s × (result ≡ code_of s) }
{
    let asked = OverlayNumbers {
        rule,
        fill,
        options: options.numbers(),
        subject: subject.given(),
        clip: clip.given(),
    };
    hierarchy_arrays(
        alloc,
        &asked,
        coordinates,
        contour_ends,
        shape_ends,
        links,
        counts,
        link_count,
    )
    .code()
}
