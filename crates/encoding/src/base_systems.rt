// The systems that others are built on, whose elements are one number each.
ghost use Rattle.encoding.specs.NarrowLemmas.{residues_narrow, bits_narrow};

use crate::encoded::Encoded;
use crate::single::{read, write};
use bases::bit::Bit;
use bases::modulus::Modulus;
use bases::residue::Residue;
use numbers::listed::PrefixListed;
use numbers::refusal::Refusal;
use numbers::system::System;

impl Encoded for Bit {
    ghost narrow = { bits_narrow };

    fn decode(bytes: &[u8]) -> Result<Bit, Refusal> {
        Self::entry(read(bytes)?)
    }

    fn encode(&self, out: &mut [u8]) -> Result<(), Refusal> {
        write(u32::from(self.is_one()), out)
    }
}

impl<M: Modulus> Encoded for Residue<M> {
    ghost narrow = { residues_narrow M.MODULUS M.bounds };

    fn decode(bytes: &[u8]) -> Result<Residue<M>, Refusal> {
        Self::entry(read(bytes)?)
    }

    fn encode(&self, out: &mut [u8]) -> Result<(), Refusal> {
        write(self.number_at(0), out)
    }
}
