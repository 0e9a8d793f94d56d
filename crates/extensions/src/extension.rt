// The interface of extensions: number systems whose elements are coefficients from the layer below.
ghost use Rattle.std.specs.Prelude.{◌≡◌, suc};
ghost use Rattle.extensions.specs.Conjugates.{embed};
ghost use Rattle.extensions.specs.Layers.{Products, Extends};
ghost use Rattle.extensions.specs.Tuples.{each};

use crate::coefficients::Coefficients;
use numbers::system::System;

// A type whose values are elements of an extension of S; `product` is the product of coefficients as a formula.
pub trait Extension<S: System>: Coefficients<S> + System {
    ghost product: { Products S };

    // An element of the layer below as one of the extension: zeros above power 0.
    fn from_base(x: S) -> Self
        ensures { each (suc Self.Coefficients.d) S.mean (Self.Coefficients.tuple result) ≡ embed Self.Coefficients.d S.sys.ops (S.mean x) };

    ghost extends: { (e : Extends Self.Coefficients.d S.sys (product (suc Self.Coefficients.d) S.sys.Elem S.sys.ops S.mean) Self.System.sys) × ((a : Self) → e.tuple (Self.System.mean a) ≡ each (suc Self.Coefficients.d) S.mean (Self.Coefficients.tuple a)) };
}
