// The moduli of residues.
ghost use Rattle.std.proofs.Common.{lit≤, lit<};
ghost use Rattle.std.specs.Prelude.{◌≡◌, ℕ};
ghost use Rattle.bases.specs.Bounds.{Bounds};

// A type that stands for a modulus from 2 to 2^31 − 1. A const parameter would bring no proof of its range.
pub trait Modulus: Copy + Default {
    const MODULUS: u32;

    ghost MODULUS: { ℕ };

    ghost bounds: { Bounds MODULUS };
}

// The prime 2^31 − 2^24 + 1.
#[derive(Clone, Copy, Default)]
pub struct KoalaBear;

impl Modulus for KoalaBear {
    const MODULUS: u32 = 2_130_706_433;

    ghost MODULUS = { 2130706433 };

    ghost bounds = { record { low = lit≤ tt; high = lit< tt } };
}

// The prime 2^31 − 1.
#[derive(Clone, Copy, Default)]
pub struct Mersenne31;

impl Modulus for Mersenne31 {
    const MODULUS: u32 = 2_147_483_647;

    ghost MODULUS = { 2147483647 };

    ghost bounds = { record { low = lit≤ tt; high = lit< tt } };
}

// The prime 2^31 − 2^27 + 1.
#[derive(Clone, Copy, Default)]
pub struct BabyBear;

impl Modulus for BabyBear {
    const MODULUS: u32 = 2_013_265_921;

    ghost MODULUS = { 2013265921 };

    ghost bounds = { record { low = lit≤ tt; high = lit< tt } };
}

// The prime 11.
#[derive(Clone, Copy, Default)]
pub struct Eleven;

impl Modulus for Eleven {
    const MODULUS: u32 = 11;

    ghost MODULUS = { 11 };

    ghost bounds = { record { low = lit≤ tt; high = lit< tt } };
}
