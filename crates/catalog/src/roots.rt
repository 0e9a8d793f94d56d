// The roots of one by which the extensions by a root of X^n − w have conjugates: z is w^((q − 1)/n), with q the number of elements below. The split extension has none. Each has its
// own implementation, since each law is computed from its own number.
ghost use Rattle.std.proofs.Common.{lit<};

use crate::constants::{Complex, FiveI, MinusOne, Whole};
use bases::modulus::{BabyBear, Eleven, KoalaBear, Mersenne31};
use bases::residue::Residue;
use cubic::triple::Triple;
use extensions::binomial::RootConstants;
use extensions::element::Element;
use octic::octuple::Octuple;
use quadratic::pair::Pair;
use quartic::quadruple::Quadruple;
use quintic::quintuple::Quintuple;

impl RootConstants<Quadruple<Residue<KoalaBear>>, Residue<KoalaBear>> for Whole<3> {
    ghost z = { record { value = 2113994754; modulus = record {}; small = lit< tt } };

    fn z() -> Residue<KoalaBear> {
        Residue::from(2_113_994_754)
    }
}

impl RootConstants<Octuple<Residue<KoalaBear>>, Residue<KoalaBear>> for Whole<3> {
    ghost z = { record { value = 1748172362; modulus = record {}; small = lit< tt } };

    fn z() -> Residue<KoalaBear> {
        Residue::from(1_748_172_362)
    }
}

impl RootConstants<Pair<Residue<Mersenne31>>, Residue<Mersenne31>> for MinusOne {
    ghost z = { record { value = 2147483646; modulus = record {}; small = lit< tt } };

    fn z() -> Residue<Mersenne31> {
        Residue::from(2_147_483_646)
    }
}

impl RootConstants<Triple<Complex>, Complex> for FiveI {
    ghost z = { record { value = record { c0 = record { value = 634005911; modulus = record {}; small = lit< tt }; c1 = record { value = 0; modulus = record {}; small = lit< tt } }; below = record {}; rule = record {} } };

    fn z() -> Complex {
        Element::new(Pair {
            c0: Residue::from(634_005_911),
            c1: Residue::from(0),
        })
    }
}

impl RootConstants<Quintuple<Residue<BabyBear>>, Residue<BabyBear>> for Whole<31> {
    ghost z = { record { value = 645581151; modulus = record {}; small = lit< tt } };

    fn z() -> Residue<BabyBear> {
        Residue::from(645_581_151)
    }
}

impl RootConstants<Quintuple<Residue<Eleven>>, Residue<Eleven>> for Whole<2> {
    ghost z = { record { value = 4; modulus = record {}; small = lit< tt } };

    fn z() -> Residue<Eleven> {
        Residue::from(4)
    }
}
