// Coefficients and elements of the layer below: what goes coefficient by coefficient, written and proved once for all extensions and for bare coefficients.
ghost use Rattle.std.specs.Prelude.{◌≡◌, ℕ, suc, T, Some, None, ◌≢◌};
ghost use Rattle.algebra.specs.Ring.{sub};
ghost use Rattle.extensions.specs.Conjugates.{embed, scaled};
ghost use Rattle.extensions.specs.Tuples.{each, both};

use crate::coefficients::{Coefficients, Operation};
use numbers::system::System;

// The product of the first with a factor.
#[derive(Clone, Copy)]
struct Times<S> {
    factor: S,
}

impl<S: System> Operation<S> for Times<S> {
    ghost op = { λ t A o m x y. o.mul x (m t.factor) };

    fn apply(&self, x: &S, _y: &S) -> S {
        x.mul(&self.factor)
    }
}

// Each coefficient times one element of the layer below.
pub fn scale<S: System, E: Coefficients<S>>(a: &E, x: &S) -> E
    ensures { each (suc E.d) S.mean (E.tuple result) ≡ scaled (suc E.d) S.sys.ops (S.mean x.now) (each (suc E.d) S.mean (E.tuple a.now)) }
{
    E::combine(&Times { factor: *x }, a, a)
}

// Whether every coefficient above power 0 is zero.
pub fn is_in_basefield<S: System, E: Coefficients<S>>(a: &E) -> bool
    ensures within { T result → each (suc E.d) S.mean (E.tuple a.now) ≡ embed E.d S.sys.ops (each (suc E.d) S.mean (E.tuple a.now)).0 }
    ensures beyond { each (suc E.d) S.mean (E.tuple a.now) ≡ embed E.d S.sys.ops (each (suc E.d) S.mean (E.tuple a.now)).0 → T result }
{
    let zero = S::zero();
    (1..E::degree()).all(|k| a.coefficient(k).same(&zero))
}

// The element of the layer below that this one is, if it is one.
pub fn as_base<S: System, E: Coefficients<S>>(a: &E) -> Option<S>
    ensures { elim result [ Some x ↦ each (suc E.d) S.mean (E.tuple a.now) ≡ embed E.d S.sys.ops (S.mean x) | None ↦ ((x : S.sys.Elem) → each (suc E.d) S.mean (E.tuple a.now) ≢ embed E.d S.sys.ops x) ] }
{
    is_in_basefield(a).then(|| a.coefficient(0))
}

// The sum with an element of the layer below.
pub fn add_base<S: System, E: Coefficients<S>>(a: &E, x: &S) -> E
    ensures { each (suc E.d) S.mean (E.tuple result) ≡ both (suc E.d) S.sys.ops.add (each (suc E.d) S.mean (E.tuple a.now)) (embed E.d S.sys.ops (S.mean x.now)) }
{
    let mut res = *a;
    res.set_coefficient(0, a.coefficient(0).add(x));
    res
}

// The difference to an element of the layer below.
pub fn sub_base<S: System, E: Coefficients<S>>(a: &E, x: &S) -> E
    ensures { each (suc E.d) S.mean (E.tuple result) ≡ both (suc E.d) (sub S.sys.ops) (each (suc E.d) S.mean (E.tuple a.now)) (embed E.d S.sys.ops (S.mean x.now)) }
{
    let mut res = *a;
    res.set_coefficient(0, a.coefficient(0).sub(x));
    res
}
