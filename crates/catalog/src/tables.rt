// The rows of Frobenius of the two trinomial extensions: row k is X^(kq) reduced, q being the number of elements below.
ghost use Rattle.std.proofs.Common.{lit<};
ghost use Rattle.std.specs.Prelude.{true, false, slice_index_or};

use bases::bit::Bit;
use bases::modulus::KoalaBear;
use bases::residue::Residue;
use quintic::quintuple::Quintuple;
use trinomial::rows::Rows;
use trinomial::trinomial::TrinomialConstants;

// The rows over 2130706433.
const KOALA_BEAR_ROWS: [[u32; 5]; 4] = [
    [
        1_576_402_667,
        1_173_144_480,
        1_567_662_457,
        1_206_866_823,
        2_428_146,
    ],
    [
        1_680_345_488,
        1_381_986,
        615_237_464,
        1_380_104_858,
        295_431_824,
    ],
    [
        441_230_756,
        323_126_830,
        704_986_542,
        1_445_620_072,
        503_505_220,
    ],
    [
        1_364_444_097,
        1_144_738_982,
        2_008_416_047,
        143_367_062,
        1_027_410_849,
    ],
];

// The rows over the two elements.
const BIT_ROWS: [[bool; 5]; 4] = [
    [false, false, true, false, false],
    [false, false, false, false, true],
    [false, true, false, true, false],
    [true, false, true, true, false],
];

// The row of the elements that these stand for.
fn row<N: Copy, S: From<N>>(given: &[N; 5]) -> Quintuple<S>
    ensures c0 { (d : N) → S.from_gives (slice_index_or given.now 0 d) result.c0 }
    ensures c1 { (d : N) → S.from_gives (slice_index_or given.now 1 d) result.c1 }
    ensures c2 { (d : N) → S.from_gives (slice_index_or given.now 2 d) result.c2 }
    ensures c3 { (d : N) → S.from_gives (slice_index_or given.now 3 d) result.c3 }
    ensures c4 { (d : N) → S.from_gives (slice_index_or given.now 4 d) result.c4 }
{
    let [c0, c1, c2, c3, c4] = *given;
    Quintuple {
        c0: S::from(c0),
        c1: S::from(c1),
        c2: S::from(c2),
        c3: S::from(c3),
        c4: S::from(c4),
    }
}

// The trinomial's constants over 2130706433.
#[derive(Clone, Copy, Default)]
pub struct KoalaBearTable;

impl TrinomialConstants<Residue<KoalaBear>> for KoalaBearTable {
    ghost table = { record { t1 = record { c0 = record { value = 1576402667; modulus = record {}; small = lit< tt }; c1 = record { value = 1173144480; modulus = record {}; small = lit< tt }; c2 = record { value = 1567662457; modulus = record {}; small = lit< tt }; c3 = record { value = 1206866823; modulus = record {}; small = lit< tt }; c4 = record { value = 2428146; modulus = record {}; small = lit< tt } }; t2 = record { c0 = record { value = 1680345488; modulus = record {}; small = lit< tt }; c1 = record { value = 1381986; modulus = record {}; small = lit< tt }; c2 = record { value = 615237464; modulus = record {}; small = lit< tt }; c3 = record { value = 1380104858; modulus = record {}; small = lit< tt }; c4 = record { value = 295431824; modulus = record {}; small = lit< tt } }; t3 = record { c0 = record { value = 441230756; modulus = record {}; small = lit< tt }; c1 = record { value = 323126830; modulus = record {}; small = lit< tt }; c2 = record { value = 704986542; modulus = record {}; small = lit< tt }; c3 = record { value = 1445620072; modulus = record {}; small = lit< tt }; c4 = record { value = 503505220; modulus = record {}; small = lit< tt } }; t4 = record { c0 = record { value = 1364444097; modulus = record {}; small = lit< tt }; c1 = record { value = 1144738982; modulus = record {}; small = lit< tt }; c2 = record { value = 2008416047; modulus = record {}; small = lit< tt }; c3 = record { value = 143367062; modulus = record {}; small = lit< tt }; c4 = record { value = 1027410849; modulus = record {}; small = lit< tt } } } };

    fn table() -> Rows<Residue<KoalaBear>> {
        let [t1, t2, t3, t4] = &KOALA_BEAR_ROWS;
        Rows {
            t1: row(t1),
            t2: row(t2),
            t3: row(t3),
            t4: row(t4),
        }
    }
}

// The trinomial's constants over the two elements.
#[derive(Clone, Copy, Default)]
pub struct BitTable;

impl TrinomialConstants<Bit> for BitTable {
    ghost table = { record { t1 = record { c0 = record { on = false }; c1 = record { on = false }; c2 = record { on = true }; c3 = record { on = false }; c4 = record { on = false } }; t2 = record { c0 = record { on = false }; c1 = record { on = false }; c2 = record { on = false }; c3 = record { on = false }; c4 = record { on = true } }; t3 = record { c0 = record { on = false }; c1 = record { on = true }; c2 = record { on = false }; c3 = record { on = true }; c4 = record { on = false } }; t4 = record { c0 = record { on = true }; c1 = record { on = false }; c2 = record { on = true }; c3 = record { on = true }; c4 = record { on = false } } } };

    fn table() -> Rows<Bit> {
        let [t1, t2, t3, t4] = &BIT_ROWS;
        Rows {
            t1: row(t1),
            t2: row(t2),
            t3: row(t3),
            t4: row(t4),
        }
    }
}
