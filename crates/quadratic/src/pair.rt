// Two coefficients.
ghost use Rattle.std.proofs.Common.{lit≤};
ghost use Rattle.quadratic.specs.Pairs.{pair};

use extensions::coefficients::{Coefficients, Operation};
use numbers::system::System;

// c0 + c1 X
#[derive(Clone, Copy)]
pub struct Pair<S> {
    pub c0: S,
    pub c1: S,
}

impl<S: System> Coefficients<S> for Pair<S> {
    ghost d = { 1 };

    ghost tuple = { pair (λ x. x) };

    ghost several = { lit≤ tt };

    fn degree() -> usize {
        2
    }

    fn fill(x: S) -> Pair<S> {
        Pair { c0: x, c1: x }
    }

    fn coefficient(&self, k: usize) -> S {
        match k {
            0 => self.c0,
            1 => self.c1,
            _ => S::zero(),
        }
    }

    fn set_coefficient(&mut self, k: usize, x: S) {
        match k {
            0 => self.c0 = x,
            1 => self.c1 = x,
            _ => {}
        }
    }

    fn combine<O: Operation<S>>(operation: &O, a: &Pair<S>, b: &Pair<S>) -> Pair<S> {
        Pair {
            c0: operation.apply(&a.c0, &b.c0),
            c1: operation.apply(&a.c1, &b.c1),
        }
    }
}
