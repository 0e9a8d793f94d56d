// Five coefficients.
ghost use Rattle.std.proofs.Common.{lit≤};
ghost use Rattle.quintic.specs.Quintuples.{quintuple};

use extensions::coefficients::{Coefficients, Operation};
use numbers::system::System;

// c0 + c1 X + c2 X² + c3 X³ + c4 X⁴
#[derive(Clone, Copy)]
pub struct Quintuple<S> {
    pub c0: S,
    pub c1: S,
    pub c2: S,
    pub c3: S,
    pub c4: S,
}

impl<S: System> Coefficients<S> for Quintuple<S> {
    ghost d = { 4 };

    ghost tuple = { quintuple (λ x. x) };

    ghost several = { lit≤ tt };

    fn degree() -> usize {
        5
    }

    fn fill(x: S) -> Quintuple<S> {
        Quintuple {
            c0: x,
            c1: x,
            c2: x,
            c3: x,
            c4: x,
        }
    }

    fn coefficient(&self, k: usize) -> S {
        match k {
            0 => self.c0,
            1 => self.c1,
            2 => self.c2,
            3 => self.c3,
            4 => self.c4,
            _ => S::zero(),
        }
    }

    fn set_coefficient(&mut self, k: usize, x: S) {
        match k {
            0 => self.c0 = x,
            1 => self.c1 = x,
            2 => self.c2 = x,
            3 => self.c3 = x,
            4 => self.c4 = x,
            _ => {}
        }
    }

    fn combine<O: Operation<S>>(operation: &O, a: &Quintuple<S>, b: &Quintuple<S>) -> Quintuple<S> {
        Quintuple {
            c0: operation.apply(&a.c0, &b.c0),
            c1: operation.apply(&a.c1, &b.c1),
            c2: operation.apply(&a.c2, &b.c2),
            c3: operation.apply(&a.c3, &b.c3),
            c4: operation.apply(&a.c4, &b.c4),
        }
    }
}
