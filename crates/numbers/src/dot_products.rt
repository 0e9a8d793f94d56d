// Sums of a fixed number of products, built on the sum of four. The sums of more than four are joined as trees are, so that no addition waits for all
// the others.
// There is a function for each size and not one for all. Arrays of N elements would ask of a caller that N elements take a bounded room, which it cannot
// know; arrays of N references, and lists of pairs in which a caller's own product stands beside an operand, are not covered by the borrow checker;
// and the lengths of two lists of references could differ.
ghost use Rattle.std.specs.Prelude.{◌≡◌, List, [], ◌∷◌};
ghost use Rattle.algebra.specs.Ring.{dot};

use crate::system::System;

// The sum of two products, a0 × b0 + a1 × b1.
#[tactic(auto, using(crate::proofs::Sums::none_more))]
pub fn dot_product_2<S: System>(a0: &S, b0: &S, a1: &S, b1: &S) -> S
    ensures { S.mean result ≡ dot S.sys.ops (S.mean a0.now ∷ S.mean a1.now ∷ []) (S.mean b0.now ∷ S.mean b1.now ∷ []) }
{
    let zero = S::zero();
    S::dot_product_4(a0, b0, a1, b1, &zero, &zero, &zero, &zero)
}

// The sum of three products, a0 × b0 + a1 × b1 + a2 × b2.
#[tactic(auto, using(crate::proofs::Sums::none_more))]
pub fn dot_product_3<S: System>(a0: &S, b0: &S, a1: &S, b1: &S, a2: &S, b2: &S) -> S
    ensures { S.mean result ≡ dot S.sys.ops (S.mean a0.now ∷ S.mean a1.now ∷ S.mean a2.now ∷ []) (S.mean b0.now ∷ S.mean b1.now ∷ S.mean b2.now ∷ []) }
{
    let zero = S::zero();
    S::dot_product_4(a0, b0, a1, b1, a2, b2, &zero, &zero)
}

// The sum of five products, a0 × b0 + a1 × b1 + a2 × b2 + a3 × b3 + a4 × b4.
pub fn dot_product_5<S: System>(
    a0: &S,
    b0: &S,
    a1: &S,
    b1: &S,
    a2: &S,
    b2: &S,
    a3: &S,
    b3: &S,
    a4: &S,
    b4: &S,
) -> S
    ensures { S.mean result ≡ dot S.sys.ops (S.mean a0.now ∷ S.mean a1.now ∷ S.mean a2.now ∷ S.mean a3.now ∷ S.mean a4.now ∷ []) (S.mean b0.now ∷ S.mean b1.now ∷ S.mean b2.now ∷ S.mean b3.now ∷ S.mean b4.now ∷ []) }
{
    let low = S::dot_product_4(a0, b0, a1, b1, a2, b2, a3, b3);
    let high = a4.mul(b4);
    low.add(&high)
}

// The sum of six products, a0 × b0 + a1 × b1 + a2 × b2 + a3 × b3 + a4 × b4 + a5 × b5.
pub fn dot_product_6<S: System>(
    a0: &S,
    b0: &S,
    a1: &S,
    b1: &S,
    a2: &S,
    b2: &S,
    a3: &S,
    b3: &S,
    a4: &S,
    b4: &S,
    a5: &S,
    b5: &S,
) -> S
    ensures { S.mean result ≡ dot S.sys.ops (S.mean a0.now ∷ S.mean a1.now ∷ S.mean a2.now ∷ S.mean a3.now ∷ S.mean a4.now ∷ S.mean a5.now ∷ []) (S.mean b0.now ∷ S.mean b1.now ∷ S.mean b2.now ∷ S.mean b3.now ∷ S.mean b4.now ∷ S.mean b5.now ∷ []) }
{
    let low = S::dot_product_4(a0, b0, a1, b1, a2, b2, a3, b3);
    let high = dot_product_2(a4, b4, a5, b5);
    low.add(&high)
}

// The sum of seven products, a0 × b0 + a1 × b1 + a2 × b2 + a3 × b3 + a4 × b4 + a5 × b5 + a6 × b6.
pub fn dot_product_7<S: System>(
    a0: &S,
    b0: &S,
    a1: &S,
    b1: &S,
    a2: &S,
    b2: &S,
    a3: &S,
    b3: &S,
    a4: &S,
    b4: &S,
    a5: &S,
    b5: &S,
    a6: &S,
    b6: &S,
) -> S
    ensures { S.mean result ≡ dot S.sys.ops (S.mean a0.now ∷ S.mean a1.now ∷ S.mean a2.now ∷ S.mean a3.now ∷ S.mean a4.now ∷ S.mean a5.now ∷ S.mean a6.now ∷ []) (S.mean b0.now ∷ S.mean b1.now ∷ S.mean b2.now ∷ S.mean b3.now ∷ S.mean b4.now ∷ S.mean b5.now ∷ S.mean b6.now ∷ []) }
{
    let low = S::dot_product_4(a0, b0, a1, b1, a2, b2, a3, b3);
    let high = dot_product_3(a4, b4, a5, b5, a6, b6);
    low.add(&high)
}

// The sum of eight products, a0 × b0 + a1 × b1 + a2 × b2 + a3 × b3 + a4 × b4 + a5 × b5 + a6 × b6 + a7 × b7.
pub fn dot_product_8<S: System>(
    a0: &S,
    b0: &S,
    a1: &S,
    b1: &S,
    a2: &S,
    b2: &S,
    a3: &S,
    b3: &S,
    a4: &S,
    b4: &S,
    a5: &S,
    b5: &S,
    a6: &S,
    b6: &S,
    a7: &S,
    b7: &S,
) -> S
    ensures { S.mean result ≡ dot S.sys.ops (S.mean a0.now ∷ S.mean a1.now ∷ S.mean a2.now ∷ S.mean a3.now ∷ S.mean a4.now ∷ S.mean a5.now ∷ S.mean a6.now ∷ S.mean a7.now ∷ []) (S.mean b0.now ∷ S.mean b1.now ∷ S.mean b2.now ∷ S.mean b3.now ∷ S.mean b4.now ∷ S.mean b5.now ∷ S.mean b6.now ∷ S.mean b7.now ∷ []) }
{
    let low = S::dot_product_4(a0, b0, a1, b1, a2, b2, a3, b3);
    let high = S::dot_product_4(a4, b4, a5, b5, a6, b6, a7, b7);
    low.add(&high)
}
