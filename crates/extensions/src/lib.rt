// Extensions of number systems: what they are, what holds of all of them, and the functions that all of them have. The functions of this file do nothing when
// they run; their contracts are theorems over every commutative ring on the type `A`. The code of the single extensions stands in crates above this one.
#![tactic(auto)]

pub mod below;
pub mod binomial;
pub mod coefficients;
pub mod conjugates;
pub mod element;
pub mod extension;
pub mod lists;
pub mod rule;
pub mod vectors;

ghost use Rattle.algebra.specs.Ring.{Ops, Laws};
ghost use Rattle.extensions.specs.Classes.{binomial_modulus, trinomial_modulus, ResidueClass};
ghost use Rattle.extensions.specs.Extensions.{extend};
ghost use Rattle.extensions.specs.Schoolbook.{binomial, trinomial};
ghost use Rattle.extensions.specs.Tuples.{Tuple};

// Each product is the residue class of the polynomial product: the difference of the two is a multiple of the modulus.
pub fn residue_classes<A>()
    ensures quadratic { (o : Ops A) → Laws o → (w : A) (a b : Tuple 2 A) → ResidueClass 2 o (binomial_modulus 1 o w) a b (binomial 2 o w a b) }
    ensures cubic { (o : Ops A) → Laws o → (w : A) (a b : Tuple 3 A) → ResidueClass 3 o (binomial_modulus 2 o w) a b (binomial 3 o w a b) }
    ensures quartic { (o : Ops A) → Laws o → (w : A) (a b : Tuple 4 A) → ResidueClass 4 o (binomial_modulus 3 o w) a b (binomial 4 o w a b) }
    ensures quintic { (o : Ops A) → Laws o → (w : A) (a b : Tuple 5 A) → ResidueClass 5 o (binomial_modulus 4 o w) a b (binomial 5 o w a b) }
    ensures octic { (o : Ops A) → Laws o → (w : A) (a b : Tuple 8 A) → ResidueClass 8 o (binomial_modulus 7 o w) a b (binomial 8 o w a b) }
    ensures trinomial { (o : Ops A) → Laws o → (a b : Tuple 5 A) → ResidueClass 5 o (trinomial_modulus o) a b (trinomial o a b) }
{}

// With the products, the extensions are commutative rings with one.
pub fn ring_laws<A>()
    ensures quadratic { (o : Ops A) → Laws o → (w : A) → Laws (extend 1 o (binomial 2 o w)) }
    ensures cubic { (o : Ops A) → Laws o → (w : A) → Laws (extend 2 o (binomial 3 o w)) }
    ensures quartic { (o : Ops A) → Laws o → (w : A) → Laws (extend 3 o (binomial 4 o w)) }
    ensures quintic { (o : Ops A) → Laws o → (w : A) → Laws (extend 4 o (binomial 5 o w)) }
    ensures octic { (o : Ops A) → Laws o → (w : A) → Laws (extend 7 o (binomial 8 o w)) }
    ensures trinomial { (o : Ops A) → Laws o → Laws (extend 4 o (trinomial o)) }
{}
