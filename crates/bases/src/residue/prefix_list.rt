// Residues as elements whose lists are shown as far as 65,535 numbers go.
use super::Residue;
use crate::modulus::Modulus;
use numbers::listed::{Listed, PrefixListed};
use numbers::refusal::Refusal;

impl<M: Modulus> PrefixListed for Residue<M> {
    fn size() -> usize {
        1
    }

    fn from_list(numbers: &[u64]) -> Result<Residue<M>, Refusal> {
        <Residue<M> as Listed>::from_list(numbers)
    }

    fn number_at(&self, place: usize) -> u32 {
        if place == 0 {
            self.value % M::MODULUS
        } else {
            0
        }
    }
}
