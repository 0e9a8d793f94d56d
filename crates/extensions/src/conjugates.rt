// Conjugates: the Frobenius map of an extension, and the inverse by the product of conjugates.
ghost use Rattle.std.specs.Prelude.{◌≡◌, ℕ, suc, Some, None};
ghost use Rattle.algebra.specs.Ring.{power};
ghost use Rattle.extensions.specs.Conjugates.{Formula, repeated, conjugates, Conjugation, RootLaw, root_frobenius_map, PseudoInverse, NoPseudoInverse};
ghost use Rattle.extensions.specs.Extensions.{extend};
ghost use Rattle.extensions.specs.Schoolbook.{binomial};
ghost use Rattle.extensions.specs.Tuples.{each};

use crate::below::scale;
use crate::coefficients::Coefficients;
use crate::element::Element;
use crate::extension::Extension;
use crate::rule::Rule;
use numbers::powers::exp_u64;
use numbers::system::System;

// An extension with conjugates: `conjugate` is its Frobenius map as a formula. Only an extension whose constants keep their law has it.
pub trait Conjugates<S: System>: Extension<S> {
    ghost conjugate: { Formula S };

    // The Frobenius image. The map keeps sums and products, has the degree as its period, and leaves exactly the elements of the layer below where they are.
    fn frobenius(&self) -> Self
        ensures image { each (suc Self.Coefficients.d) S.mean (Self.Coefficients.tuple result) ≡ conjugate (suc Self.Coefficients.d) S.sys.Elem S.sys.ops S.mean (each (suc Self.Coefficients.d) S.mean (Self.Coefficients.tuple self.now)) }
        ensures conjugation { Conjugation Self.Coefficients.d S.sys.ops (Self.Extension.product (suc Self.Coefficients.d) S.sys.Elem S.sys.ops S.mean) (conjugate (suc Self.Coefficients.d) S.sys.Elem S.sys.ops S.mean) };

    // The Frobenius image taken `count` times.
    fn repeated_frobenius(&self, count: u64) -> Self
        ensures { each (suc Self.Coefficients.d) S.mean (Self.Coefficients.tuple result) ≡ repeated (conjugate (suc Self.Coefficients.d) S.sys.Elem S.sys.ops S.mean) count (each (suc Self.Coefficients.d) S.mean (Self.Coefficients.tuple self.now)) };
}

// A rule with conjugates: the Frobenius map of the elements that are multiplied by it, as a formula and as functions.
pub trait ConjugateRule<V: Coefficients<S>, S: System>: Rule<V, S> {
    ghost conjugate: { Formula S };

    // The Frobenius image, with the promises that `Conjugates` makes.
    fn frobenius(a: &Element<S, V, Self>) -> Element<S, V, Self>
        ensures image { each (suc V.d) S.mean (V.tuple result.value) ≡ conjugate (suc V.d) S.sys.Elem S.sys.ops S.mean (each (suc V.d) S.mean (V.tuple a.now.value)) }
        ensures conjugation { Conjugation V.d S.sys.ops (Self.Rule.product (suc V.d) S.sys.Elem S.sys.ops S.mean) (conjugate (suc V.d) S.sys.Elem S.sys.ops S.mean) };

    // The Frobenius image taken `count` times.
    fn repeated_frobenius(a: &Element<S, V, Self>, count: u64) -> Element<S, V, Self>
        ensures { each (suc V.d) S.mean (V.tuple result.value) ≡ repeated (conjugate (suc V.d) S.sys.Elem S.sys.ops S.mean) count (each (suc V.d) S.mean (V.tuple a.now.value)) };
}

impl<S: System, V: Coefficients<S>, R: ConjugateRule<V, S>> Conjugates<S> for Element<S, V, R> {
    ghost conjugate = { R.ConjugateRule.conjugate };

    fn frobenius(&self) -> Element<S, V, R> {
        R::frobenius(self)
    }

    fn repeated_frobenius(&self, count: u64) -> Element<S, V, R> {
        R::repeated_frobenius(self, count)
    }
}

// z to the power k, made of the power before it; the second is a square, which takes less than a product.
fn next_power<S: System>(z: &S, before: &S, k: usize) -> S
    ensures { S.sys.ops.mul (S.mean z.now) (S.mean before.now) ≡ power S.sys.ops (S.mean z.now) k → S.mean result ≡ power S.sys.ops (S.mean z.now) k }
{
    if k == 2 { z.square() } else { before.mul(z) }
}

// The image by a root z of one: coefficient i times z^i. Where z keeps the root law, these are conjugates, whatever w is.
pub fn root_frobenius<S: System, E: Coefficients<S>>(a: &E, z: &S) -> E
    ensures image { each (suc E.d) S.mean (E.tuple result) ≡ root_frobenius_map (suc E.d) S.sys.ops (S.mean z.now) (each (suc E.d) S.mean (E.tuple a.now)) }
    ensures conjugation { RootLaw S.sys.ops (suc E.d) (S.mean z.now) → (w : S.sys.Elem) → Conjugation E.d S.sys.ops (binomial (suc E.d) S.sys.ops w) (root_frobenius_map (suc E.d) S.sys.ops (S.mean z.now)) }
{
    // by places, since each takes one power more and named fields have no iterator; the coefficient at power 0 stays
    let mut res = *a;
    let mut power = *z;
    res.set_coefficient(1, a.coefficient(1).mul(z));
    for k in 2..E::degree() {
        power = next_power(z, &power, k);
        res.set_coefficient(k, a.coefficient(k).mul(&power));
    }
    res
}

// That image taken `count` times. The root law of z, by which the degree is the period, is a premise: a function that takes any z asks nothing of it.
pub fn root_repeated_frobenius<S: System, E: Coefficients<S>>(a: &E, z: &S, count: u64) -> E
    ensures { RootLaw S.sys.ops (suc E.d) (S.mean z.now) → each (suc E.d) S.mean (E.tuple result) ≡ repeated (root_frobenius_map (suc E.d) S.sys.ops (S.mean z.now)) count (each (suc E.d) S.mean (E.tuple a.now)) }
{
    let z0 = exp_u64(z, count % E::degree() as u64);
    root_frobenius(a, &z0)
}

// The product of all conjugates of a but itself.
fn other_conjugates<S: System, E: Conjugates<S>>(a: &E) -> E
    ensures product { each (suc E.d) S.mean (E.tuple result) ≡ E.conjugate (suc E.d) S.sys.Elem S.sys.ops S.mean (conjugates (extend E.d S.sys.ops (E.product (suc E.d) S.sys.Elem S.sys.ops S.mean)) (E.conjugate (suc E.d) S.sys.Elem S.sys.ops S.mean) E.d (each (suc E.d) S.mean (E.tuple a.now))) }
    ensures conjugation { Conjugation E.d S.sys.ops (E.product (suc E.d) S.sys.Elem S.sys.ops S.mean) (E.conjugate (suc E.d) S.sys.Elem S.sys.ops S.mean) }
{
    let mut prod_conj = a.frobenius();
    for _k in 2..E::degree() {
        prod_conj = prod_conj.mul(a).frobenius();
    }
    prod_conj
}

// The conjugate inverse: zero for zero, else the product of the other conjugates over the norm, which lies in the layer below; none where there is no inverse.
pub fn pseudo_inv<S: System, E: Conjugates<S>>(a: &E) -> Option<E>
    ensures { elim result [ Some b ↦ PseudoInverse E.sys.ops (E.mean a.now) (E.mean b) | None ↦ NoPseudoInverse E.sys.ops (E.mean a.now) ] }
{
    let zero = E::zero();
    if a.same(&zero) {
        return Some(zero);
    }
    let prod_conj = other_conjugates(a);
    let norm = a.mul(&prod_conj).coefficient(0);
    let scalar = norm.inverse()?;
    Some(scale(&prod_conj, &scalar))
}
