// Bits as elements whose lists are shown as far as 65,535 numbers go.
use super::Bit;
use numbers::listed::{Listed, PrefixListed};
use numbers::refusal::Refusal;

impl PrefixListed for Bit {
    fn size() -> usize {
        1
    }

    fn from_list(numbers: &[u64]) -> Result<Bit, Refusal> {
        <Bit as Listed>::from_list(numbers)
    }

    fn number_at(&self, place: usize) -> u32 {
        u32::from(place == 0 && self.on)
    }
}
