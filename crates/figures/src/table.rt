// The table of worked figures.
ghost use Rattle.figures.specs.Table.{Table, Answered};

use crate::answers::Worked;
use crate::arithmetic::{inverse, product, square};
use crate::readings::{after_a_drop, of_one_and_one, of_three};
use catalog::systems::{System1, System2, System3, System5, System7, System8, System9};

// The rows: products, a square and inverses in seven of the systems, an element without inverse in the split one, and readings in system 8. They hold by the
// definitions of the systems and of the plain sheet, and the code answers them.
pub fn worked() -> Worked
    ensures rows { Table }
    ensures answers { Answered result }
{
    Worked {
        product1: product::<System1>(&[1, 1, 0, 0], &[1, 0, 0, 1]),
        inverse1: inverse::<System1>(&[0, 1, 0, 0]),
        inverse2: inverse::<System2>(&[1, 1, 0, 0, 0, 0, 0, 0]),
        square3: square::<System3>(&[0, 0, 0, 0, 1]),
        product5: product::<System5>(&[0, 0, 1, 0, 0, 0], &[0, 0, 0, 0, 1, 0]),
        inverse7: inverse::<System7>(&[0, 1, 0, 0, 0]),
        inverse8: inverse::<System8>(&[1, 1, 0, 0, 0]),
        inverse9: inverse::<System9>(&[2, 1]),
        refused9: inverse::<System9>(&[1, 1]),
        drop8: after_a_drop(),
        ones8: of_one_and_one(),
        three8: of_three(),
    }
}
