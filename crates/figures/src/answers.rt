// What the table of worked figures holds.
use catalog::systems::{System1, System2, System3, System5, System7, System8, System9};
use numbers::refusal::Refusal;
use reading::states::Figure;

// The answers, one for each row, named by what is worked out and by the number of the system. They are of seven types, so that no list can hold them.
#[derive(Drop)]
pub struct Worked {
    pub product1: Option<System1>,
    pub inverse1: Option<System1>,
    pub inverse2: Option<System2>,
    pub square3: Option<System3>,
    pub product5: Option<System5>,
    pub inverse7: Option<System7>,
    pub inverse8: Option<System8>,
    pub inverse9: Option<System9>,
    pub refused9: Option<System9>,
    // the figures of three readings at X: with a drop, and of two sheets that look alike there
    pub drop8: Result<Figure<System8>, Refusal>,
    pub ones8: Result<Figure<System8>, Refusal>,
    pub three8: Result<Figure<System8>, Refusal>,
}
