// The interface of products: how the coefficients of two elements are multiplied.
ghost use Rattle.std.specs.Prelude.{◌≡◌, suc, Some, None};
ghost use Rattle.algebra.specs.Units.{Inverts, NoInverse};
ghost use Rattle.numbers.specs.Systems.{Lawful};
ghost use Rattle.extensions.specs.Conjugates.{embed, scaled};
ghost use Rattle.extensions.specs.Extensions.{extend, extension};
ghost use Rattle.extensions.specs.Layers.{Products};
ghost use Rattle.extensions.specs.Tuples.{Tuple, each};

use crate::coefficients::Coefficients;
use numbers::system::System;

// A type that stands for the product modulo a polynomial: `product` is that product as a formula, for tuples of any length.
// Each degree has its own, which names the functions of that degree and nothing else. V stands before S, so that the crate of a struct of coefficients may say how these are multiplied.
pub trait Rule<V: Coefficients<S>, S: System>: Copy {
    ghost product: { Products S };

    fn mul(a: &V, b: &V) -> V
        ensures { each (suc V.d) S.mean (V.tuple result) ≡ product (suc V.d) S.sys.Elem S.sys.ops S.mean (each (suc V.d) S.mean (V.tuple a.now)) (each (suc V.d) S.mean (V.tuple b.now)) };

    fn square(a: &V) -> V
        ensures { each (suc V.d) S.mean (V.tuple result) ≡ product (suc V.d) S.sys.Elem S.sys.ops S.mean (each (suc V.d) S.mean (V.tuple a.now)) (each (suc V.d) S.mean (V.tuple a.now)) };

    // The coefficients of the inverse; none exactly where no element is one.
    fn inverse(a: &V) -> Option<V>
        ensures { elim result [ Some b ↦ Inverts (extend V.d S.sys.ops (product (suc V.d) S.sys.Elem S.sys.ops S.mean)) (each (suc V.d) S.mean (V.tuple a.now)) (each (suc V.d) S.mean (V.tuple b)) | None ↦ NoInverse (extend V.d S.sys.ops (product (suc V.d) S.sys.Elem S.sys.ops S.mean)) (each (suc V.d) S.mean (V.tuple a.now)) ] };

    ghost lawful: { Lawful (extension V.d S.sys (product (suc V.d) S.sys.Elem S.sys.ops S.mean)) };

    // A factor from the layer below multiplies each coefficient.
    ghost scaling: { (t : Tuple (suc V.d) S.sys.Elem) (x : S.sys.Elem) → product (suc V.d) S.sys.Elem S.sys.ops S.mean t (embed V.d S.sys.ops x) ≡ scaled (suc V.d) S.sys.ops x t };
}
