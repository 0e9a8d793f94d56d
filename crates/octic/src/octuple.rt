// Eight coefficients.
ghost use Rattle.std.proofs.Common.{lit≤};
ghost use Rattle.octic.specs.Octuples.{octuple};

use extensions::coefficients::{Coefficients, Operation};
use numbers::system::System;

// c0 + c1 X + c2 X² + c3 X³ + c4 X⁴ + c5 X⁵ + c6 X⁶ + c7 X⁷
#[derive(Clone, Copy)]
pub struct Octuple<S> {
    pub c0: S,
    pub c1: S,
    pub c2: S,
    pub c3: S,
    pub c4: S,
    pub c5: S,
    pub c6: S,
    pub c7: S,
}

impl<S: System> Coefficients<S> for Octuple<S> {
    ghost d = { 7 };

    ghost tuple = { octuple (λ x. x) };

    ghost several = { lit≤ tt };

    fn degree() -> usize {
        8
    }

    fn fill(x: S) -> Octuple<S> {
        Octuple {
            c0: x,
            c1: x,
            c2: x,
            c3: x,
            c4: x,
            c5: x,
            c6: x,
            c7: x,
        }
    }

    fn coefficient(&self, k: usize) -> S {
        match k {
            0 => self.c0,
            1 => self.c1,
            2 => self.c2,
            3 => self.c3,
            4 => self.c4,
            5 => self.c5,
            6 => self.c6,
            7 => self.c7,
            _ => S::zero(),
        }
    }

    fn set_coefficient(&mut self, k: usize, x: S) {
        match k {
            0 => self.c0 = x,
            1 => self.c1 = x,
            2 => self.c2 = x,
            3 => self.c3 = x,
            4 => self.c4 = x,
            5 => self.c5 = x,
            6 => self.c6 = x,
            7 => self.c7 = x,
            _ => {}
        }
    }

    fn combine<O: Operation<S>>(operation: &O, a: &Octuple<S>, b: &Octuple<S>) -> Octuple<S> {
        Octuple {
            c0: operation.apply(&a.c0, &b.c0),
            c1: operation.apply(&a.c1, &b.c1),
            c2: operation.apply(&a.c2, &b.c2),
            c3: operation.apply(&a.c3, &b.c3),
            c4: operation.apply(&a.c4, &b.c4),
            c5: operation.apply(&a.c5, &b.c5),
            c6: operation.apply(&a.c6, &b.c6),
            c7: operation.apply(&a.c7, &b.c7),
        }
    }
}
