// What is worked out coefficient by coefficient, whatever the modulus: of coefficients of every degree, and of elements.
ghost use Rattle.std.specs.Prelude.{◌≡◌, suc, T};
ghost use Rattle.algebra.specs.Ring.{sub};
ghost use Rattle.extensions.specs.Conjugates.{embed};
ghost use Rattle.extensions.specs.Tuples.{each, both, fill};

use crate::coefficients::{Coefficients, Operation};
use numbers::system::System;

#[derive(Clone, Copy)]
struct Sum;

impl<S: System> Operation<S> for Sum {
    ghost op = { λ _ A o m x y. o.add x y };

    fn apply(&self, x: &S, y: &S) -> S {
        x.add(y)
    }
}

#[derive(Clone, Copy)]
struct Difference;

impl<S: System> Operation<S> for Difference {
    ghost op = { λ _ A o m x y. sub o x y };

    fn apply(&self, x: &S, y: &S) -> S {
        x.sub(y)
    }
}

// The negative of the first.
#[derive(Clone, Copy)]
struct Negative;

impl<S: System> Operation<S> for Negative {
    ghost op = { λ _ A o m x y. o.neg x };

    fn apply(&self, x: &S, _y: &S) -> S {
        x.neg()
    }
}

// Zero at every power.
pub fn vector_zero<S: System, V: Coefficients<S>>() -> V
    ensures { each (suc V.d) S.mean (V.tuple result) ≡ fill (suc V.d) S.sys.ops.zero }
{
    V::fill(S::zero())
}

// An element of the layer below at power 0, and zeros above.
pub fn vector_from_base<S: System, V: Coefficients<S>>(x: S) -> V
    ensures { each (suc V.d) S.mean (V.tuple result) ≡ embed V.d S.sys.ops (S.mean x) }
{
    let mut res = V::fill(S::zero());
    res.set_coefficient(0, x);
    res
}

pub fn vector_add<S: System, V: Coefficients<S>>(a: &V, b: &V) -> V
    ensures { each (suc V.d) S.mean (V.tuple result) ≡ both (suc V.d) S.sys.ops.add (each (suc V.d) S.mean (V.tuple a.now)) (each (suc V.d) S.mean (V.tuple b.now)) }
{
    V::combine(&Sum, a, b)
}

pub fn vector_sub<S: System, V: Coefficients<S>>(a: &V, b: &V) -> V
    ensures { each (suc V.d) S.mean (V.tuple result) ≡ both (suc V.d) (sub S.sys.ops) (each (suc V.d) S.mean (V.tuple a.now)) (each (suc V.d) S.mean (V.tuple b.now)) }
{
    V::combine(&Difference, a, b)
}

pub fn vector_neg<S: System, V: Coefficients<S>>(a: &V) -> V
    ensures { each (suc V.d) S.mean (V.tuple result) ≡ each (suc V.d) S.sys.ops.neg (each (suc V.d) S.mean (V.tuple a.now)) }
{
    V::combine(&Negative, a, a)
}

// Whether both mean the same coefficients.
pub fn vector_same<S: System, V: Coefficients<S>>(a: &V, b: &V) -> bool
    ensures equal { T result → each (suc V.d) S.mean (V.tuple a.now) ≡ each (suc V.d) S.mean (V.tuple b.now) }
    ensures different { each (suc V.d) S.mean (V.tuple a.now) ≡ each (suc V.d) S.mean (V.tuple b.now) → T result }
{
    (0..V::degree()).all(|k| a.coefficient(k).same(&b.coefficient(k)))
}
