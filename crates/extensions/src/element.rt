// Elements of an extension of any number system, which are a number system again, whatever the degree and the modulus.
ghost use Rattle.std.specs.Prelude.{◌≡◌, suc, refl};
ghost use Rattle.extensions.specs.Extensions.{extension};
ghost use Rattle.extensions.specs.Layers.{extension_extends};
ghost use Rattle.extensions.specs.Tuples.{each};

use crate::coefficients::{Coefficients, Operation};
use crate::extension::Extension;
use crate::rule::Rule;
use crate::vectors::{
    vector_add, vector_from_base, vector_neg, vector_same, vector_sub, vector_zero,
};
use numbers::refusal::Refusal;
use numbers::system::System;
use std::marker::PhantomData;

// An element of an extension of S: its coefficients. The layer below and the rule by which elements are multiplied are named by types alone.
#[derive(Clone, Copy)]
pub struct Element<S, V, R> {
    pub value: V,
    below: PhantomData<S>,
    rule: PhantomData<R>,
}

impl<S: System, V: Coefficients<S>, R: Rule<V, S>> Element<S, V, R> {
    // The element with these coefficients.
    pub fn new(value: V) -> Element<S, V, R>
        ensures { result.value ≡ value }
    {
        Element {
            value,
            below: PhantomData,
            rule: PhantomData,
        }
    }
}

impl<S: System, V: Coefficients<S>, R: Rule<V, S>> Coefficients<S> for Element<S, V, R> {
    ghost d = { V.d };

    ghost tuple = { λ a. V.tuple a.value };

    ghost several = { V.several };

    fn degree() -> usize {
        V::degree()
    }

    fn fill(x: S) -> Element<S, V, R> {
        Self::new(V::fill(x))
    }

    fn coefficient(&self, k: usize) -> S {
        self.value.coefficient(k)
    }

    fn set_coefficient(&mut self, k: usize, x: S) {
        self.value.set_coefficient(k, x)
    }

    fn combine<O: Operation<S>>(
        operation: &O,
        a: &Element<S, V, R>,
        b: &Element<S, V, R>,
    ) -> Element<S, V, R> {
        Self::new(V::combine(operation, &a.value, &b.value))
    }
}

impl<S: System, V: Coefficients<S>, R: Rule<V, S>> System for Element<S, V, R> {
    ghost sys = { extension V.d S.sys (R.product (suc V.d) S.sys.Elem S.sys.ops S.mean) };

    ghost mean = { λ a. each (suc V.d) S.mean (V.tuple a.value) };

    ghost lawful = { R.lawful };

    fn zero() -> Element<S, V, R> {
        vector_zero()
    }

    fn one() -> Element<S, V, R> {
        Self::from_base(S::one())
    }

    fn add(&self, other: &Element<S, V, R>) -> Element<S, V, R> {
        vector_add(self, other)
    }

    fn sub(&self, other: &Element<S, V, R>) -> Element<S, V, R> {
        vector_sub(self, other)
    }

    fn neg(&self) -> Element<S, V, R> {
        vector_neg(self)
    }

    fn mul(&self, other: &Element<S, V, R>) -> Element<S, V, R> {
        Self::new(R::mul(&self.value, &other.value))
    }

    fn square(&self) -> Element<S, V, R> {
        Self::new(R::square(&self.value))
    }

    fn dot_product_4(
        a0: &Element<S, V, R>,
        b0: &Element<S, V, R>,
        a1: &Element<S, V, R>,
        b1: &Element<S, V, R>,
        a2: &Element<S, V, R>,
        b2: &Element<S, V, R>,
        a3: &Element<S, V, R>,
        b3: &Element<S, V, R>,
    ) -> Element<S, V, R> {
        a0.mul(b0)
            .add(&a1.mul(b1))
            .add(&a2.mul(b2).add(&a3.mul(b3)))
    }

    fn same(&self, other: &Element<S, V, R>) -> bool {
        vector_same(self, other)
    }

    fn entry(n: u64) -> Result<Element<S, V, R>, Refusal> {
        Ok(Self::from_base(S::entry(n)?))
    }

    fn inverse(&self) -> Option<Element<S, V, R>> {
        let value = R::inverse(&self.value)?;
        Some(Self::new(value))
    }
}

impl<S: System, V: Coefficients<S>, R: Rule<V, S>> Extension<S> for Element<S, V, R> {
    ghost product = { R.product };

    ghost extends = { (extension_extends V.d S.sys (R.product (suc V.d) S.sys.Elem S.sys.ops S.mean) R.lawful.ring R.scaling, λ a. refl) };

    fn from_base(x: S) -> Element<S, V, R> {
        vector_from_base(x)
    }
}
