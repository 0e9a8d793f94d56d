// The complex layer: the extension of degree 2 with w = −1, where X is the imaginary unit.
ghost use Rattle.std.specs.Prelude.{◌≡◌};
ghost use Rattle.extensions.specs.Conjugates.{embed};
ghost use Rattle.extensions.specs.Schoolbook.{binomial};
ghost use Rattle.quadratic.specs.Pairs.{pair};

use crate::pair::Pair;
use crate::quadratic::Quadratic;
use extensions::binomial::BinomialConstants;
use extensions::element::Element;
use numbers::system::System;

// Constants of degree 2 with w = −1.
pub trait ComplexConstants<S: System>: BinomialConstants<S> {
    ghost negative: { S.mean Self.BinomialConstants.w ≡ S.sys.ops.neg S.sys.ops.one };
}

// Complex numbers, elements real + imag X with X² = w = −1. They are a trait, since the type is another crate's.
pub trait ComplexElement<S: System>: Copy {
    ghost use Rattle.quadratic.specs.declared.pair.Pair.{Pair};

    // real and imag
    ghost parts: { Self → Pair S };

    ghost w: { S };

    // real + imag X
    fn new_complex(real: S, imag: S) -> Self
        ensures { ((parts result).c0 ≡ real) × ((parts result).c1 ≡ imag) };

    // The real part.
    fn real(&self) -> S
        ensures { result ≡ (parts self.now).c0 };

    // The imaginary part.
    fn imag(&self) -> S
        ensures { result ≡ (parts self.now).c1 };

    ghost negative: { S.mean w ≡ S.sys.ops.neg S.sys.ops.one };

    // The real number: its imaginary part is zero.
    final fn new_real(real: S) -> Self
        ensures { pair S.mean (parts result) ≡ embed 1 S.sys.ops (S.mean real) }
    {
        Self::new_complex(real, S::zero())
    }

    // The imaginary number: its real part is zero.
    final fn new_imag(imag: S) -> Self
        ensures { pair S.mean (parts result) ≡ (S.sys.ops.zero, (S.mean imag, tt)) }
    {
        Self::new_complex(S::zero(), imag)
    }

    // The complex conjugate: the imaginary part negated.
    final fn conjugate(&self) -> Self
        ensures { pair S.mean (parts result) ≡ (S.mean (parts self.now).c0, (S.sys.ops.neg (S.mean (parts self.now).c1), tt)) }
    {
        Self::new_complex(self.real(), self.imag().neg())
    }

    // The sum of the squares of both parts, which is the product with the conjugate.
    final fn norm(&self) -> S
        ensures squares { S.mean result ≡ S.sys.ops.add (S.sys.ops.mul (S.mean (parts self.now).c0) (S.mean (parts self.now).c0)) (S.sys.ops.mul (S.mean (parts self.now).c1) (S.mean (parts self.now).c1)) }
        ensures product { binomial 2 S.sys.ops (S.mean w) (pair S.mean (parts self.now)) (S.mean (parts self.now).c0, (S.sys.ops.neg (S.mean (parts self.now).c1), tt)) ≡ embed 1 S.sys.ops (S.mean result) }
    {
        self.real().square().add(&self.imag().square())
    }
}

impl<S: System, C: ComplexConstants<S>> ComplexElement<S> for Quadratic<S, C> {
    ghost parts = { λ a. a.value };

    ghost w = { C.BinomialConstants.w };

    ghost negative = { C.negative };

    fn new_complex(real: S, imag: S) -> Quadratic<S, C> {
        Element::new(Pair { c0: real, c1: imag })
    }

    fn real(&self) -> S {
        self.value.c0
    }

    fn imag(&self) -> S {
        self.value.c1
    }
}
