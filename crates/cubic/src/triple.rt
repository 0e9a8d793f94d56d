// Three coefficients.
ghost use Rattle.std.proofs.Common.{lit≤};
ghost use Rattle.cubic.specs.Triples.{triple};

use extensions::coefficients::{Coefficients, Operation};
use numbers::system::System;

// c0 + c1 X + c2 X²
#[derive(Clone, Copy)]
pub struct Triple<S> {
    pub c0: S,
    pub c1: S,
    pub c2: S,
}

impl<S: System> Coefficients<S> for Triple<S> {
    ghost d = { 2 };

    ghost tuple = { triple (λ x. x) };

    ghost several = { lit≤ tt };

    fn degree() -> usize {
        3
    }

    fn fill(x: S) -> Triple<S> {
        Triple {
            c0: x,
            c1: x,
            c2: x,
        }
    }

    fn coefficient(&self, k: usize) -> S {
        match k {
            0 => self.c0,
            1 => self.c1,
            2 => self.c2,
            _ => S::zero(),
        }
    }

    fn set_coefficient(&mut self, k: usize, x: S) {
        match k {
            0 => self.c0 = x,
            1 => self.c1 = x,
            2 => self.c2 = x,
            _ => {}
        }
    }

    fn combine<O: Operation<S>>(operation: &O, a: &Triple<S>, b: &Triple<S>) -> Triple<S> {
        Triple {
            c0: operation.apply(&a.c0, &b.c0),
            c1: operation.apply(&a.c1, &b.c1),
            c2: operation.apply(&a.c2, &b.c2),
        }
    }
}
