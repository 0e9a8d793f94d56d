// The systems by their numbers.
use crate::constants::{Complex, FiveI, Whole};
use crate::tables::{BitTable, KoalaBearTable};
use bases::bit::Bit;
use bases::modulus::{BabyBear, Eleven, KoalaBear};
use bases::residue::Residue;
use cubic::cubic::Cubic;
use octic::octic::Octic;
use quadratic::quadratic::Quadratic;
use quartic::quartic::Quartic;
use quintic::quintic::Quintic;
use trinomial::trinomial::TrinomialQuintic;

// Degree 4 over 2130706433, w = 3.
pub type System1 = Quartic<Residue<KoalaBear>, Whole<3>>;

// Degree 8 over 2130706433, w = 3.
pub type System2 = Octic<Residue<KoalaBear>, Whole<3>>;

// The trinomial extension over 2130706433.
pub type System3 = TrinomialQuintic<Residue<KoalaBear>, KoalaBearTable>;

// Degree 2 over 2147483647, w = −1.
pub type System4 = Complex;

// Degree 3 over system 4, w = [0, 5].
pub type System5 = Cubic<Complex, FiveI>;

// Degree 5 over 2013265921, w = 31.
pub type System6 = Quintic<Residue<BabyBear>, Whole<31>>;

// The trinomial extension over the two elements.
pub type System7 = TrinomialQuintic<Bit, BitTable>;

// Degree 5 over 11, w = 2.
pub type System8 = Quintic<Residue<Eleven>, Whole<2>>;

// Degree 2 over 11, w = 1.
pub type System9 = Quadratic<Residue<Eleven>, Whole<1>>;
