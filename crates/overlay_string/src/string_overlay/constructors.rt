//! Builders for strings, empty, with a shape, or with a shape and strings.

ghost use Rattle.std.specs.Prelude.{◌≡◌, ◌++◌, [], All, IfOk, IfErr, IsOkUnless};
ghost use Rattle.overlay_geom.specs.Points.{AllInRange};
ghost use Rattle.overlay_string.specs.StringBuilder.{empty_builder, IsNewBuilder};
ghost use Rattle.overlay_string.specs.StringPaths.{shape_contours, open_strings};
ghost use Rattle.overlay_builder.specs.PathLists.{HoldsPaths, MayRefuseBuilder};

use crate::string_overlay::{IntOverlayOptions, StringOverlay};
use overlay_builder::builder_core::BuilderCore;
use overlay_geom::error::OverlayError;
use overlay_geom::integer::OverlayInt;
use overlay_geom::resource::IntShapeResource;
use std::alloc::Allocator;

impl<I: OverlayInt, A: Allocator + Clone> StringOverlay<I, A> {
    /// An empty builder with room for `capacity` edges and the default options. The only refusal is `Memory`.
    pub fn new(alloc: A, capacity: usize) -> Result<Self, OverlayError>
        ensures empty { IfOk result (λ o. o.edges ≡ []) }
        ensures made { IfOk result (λ o. IsNewBuilder I.WideUInt.natural o) }
        ensures err { IsOkUnless result OverlayError.Memory }
    {
        StringOverlay::with_options(alloc, capacity, IntOverlayOptions::default())
    }

    /// An empty builder with room for `capacity` edges and these options. The only refusal is `Memory`.
    pub fn with_options(
        alloc: A,
        capacity: usize,
        options: IntOverlayOptions<I::WideUInt>,
    ) -> Result<Self, OverlayError>
        ensures ok { IfOk result (λ o. o ≡ empty_builder options) }
        ensures err { IsOkUnless result OverlayError.Memory }
    {
        let core = BuilderCore::with_capacity(alloc, capacity)?;
        Ok(StringOverlay {
            options,
            core,
            viewed: None,
        })
    }

    /// A builder with the paths of `shape` as closed contours of the shape, and the default options. The points are
    /// in the coordinate range. Refusals: `TooManyEdges` where a path, added after those before it, would bring the
    /// weight to 2^31; `Memory`.
    pub fn from_shape<R0: IntShapeResource<I>>(alloc: A, shape: &R0) -> Result<Self, OverlayError>
        requires { All (AllInRange I.limit) (R0.paths shape.now) }
        ensures ok { IfOk result (λ o. HoldsPaths (shape_contours (R0.paths shape.now)) o.edges) }
        ensures made { IfOk result (λ o. IsNewBuilder I.WideUInt.natural o) }
        ensures err { IfErr result (MayRefuseBuilder (shape_contours (R0.paths shape.now))) }
    {
        StringOverlay::from_shape_custom(alloc, shape, IntOverlayOptions::default())
    }

    /// A builder with the paths of `shape` as closed contours of the shape, and these options. The points are in the
    /// coordinate range. Refusals: `TooManyEdges` where a path, added after those before it, would bring the weight
    /// to 2^31; `Memory`.
    pub fn from_shape_custom<R0: IntShapeResource<I>>(
        alloc: A,
        shape: &R0,
        options: IntOverlayOptions<I::WideUInt>,
    ) -> Result<Self, OverlayError>
        requires { All (AllInRange I.limit) (R0.paths shape.now) }
        ensures ok { IfOk result (λ o. HoldsPaths (shape_contours (R0.paths shape.now)) o.edges) }
        ensures made { IfOk result (λ o. o ≡ record (empty_builder options) { edges = o.edges }) }
        ensures err { IfErr result (MayRefuseBuilder (shape_contours (R0.paths shape.now))) }
    {
        let mut overlay = StringOverlay::with_options(alloc, 0, options)?;
        overlay.add_shape_source(shape)?;
        Ok(overlay)
    }

    /// A builder with the paths of `shape` as closed contours of the shape, those of `string` as open strings, and the
    /// default options. The points are in the coordinate range. Refusals: `TooManyEdges` where a path, added after
    /// those before it, would bring the weight to 2^31; `Memory`.
    pub fn from_shape_and_string<R0: IntShapeResource<I>, R1: IntShapeResource<I>>(
        alloc: A,
        shape: &R0,
        string: &R1,
    ) -> Result<Self, OverlayError>
        requires shape_in_range { All (AllInRange I.limit) (R0.paths shape.now) }
        requires string_in_range { All (AllInRange I.limit) (R1.paths string.now) }
        ensures ok { IfOk result (λ o. HoldsPaths
            (shape_contours (R0.paths shape.now) ++ open_strings (R1.paths string.now)) o.edges) }
        ensures made { IfOk result (λ o. IsNewBuilder I.WideUInt.natural o) }
        ensures err { IfErr result (MayRefuseBuilder
            (shape_contours (R0.paths shape.now) ++ open_strings (R1.paths string.now))) }
    {
        let options = IntOverlayOptions::default();
        StringOverlay::from_shape_and_string_custom(alloc, shape, string, options)
    }

    /// A builder with the paths of `shape` as closed contours of the shape, those of `string` as open strings, and
    /// these options. The points are in the coordinate range. Refusals: `TooManyEdges` where a path, added after
    /// those before it, would bring the weight to 2^31; `Memory`.
    pub fn from_shape_and_string_custom<R0: IntShapeResource<I>, R1: IntShapeResource<I>>(
        alloc: A,
        shape: &R0,
        string: &R1,
        options: IntOverlayOptions<I::WideUInt>,
    ) -> Result<Self, OverlayError>
        requires shape_in_range { All (AllInRange I.limit) (R0.paths shape.now) }
        requires string_in_range { All (AllInRange I.limit) (R1.paths string.now) }
        ensures ok { IfOk result (λ o. HoldsPaths
            (shape_contours (R0.paths shape.now) ++ open_strings (R1.paths string.now)) o.edges) }
        ensures made { IfOk result (λ o. o ≡ record (empty_builder options) { edges = o.edges }) }
        ensures err { IfErr result (MayRefuseBuilder
            (shape_contours (R0.paths shape.now) ++ open_strings (R1.paths string.now))) }
    {
        let mut overlay = StringOverlay::from_shape_custom(alloc, shape, options)?;
        overlay.add_string_source(string)?;
        Ok(overlay)
    }
}
