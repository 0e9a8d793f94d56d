// The arithmetic of commutative rings: what follows from the laws, a solver for equations that hold in every such ring, units, and polynomials by
// their values. A function here does nothing when it runs; its contract is a theorem over every ring on the type `A`.
#![tactic(auto)]

ghost use Rattle.std.specs.Prelude.{List, ◌≡◌, ℕ, ◌≤◌, T, length};
ghost use Rattle.algebra.specs.Expr.{Expr, var, 𝟏, ◌⊞◌, ⊟, ◌⊠◌, eval, same, Holds, Follows};
ghost use Rattle.algebra.specs.Polynomial.{Apart, Agree};
ghost use Rattle.algebra.specs.Ring.{Ops, Laws, Derived, Counting};
ghost use Rattle.algebra.specs.Units.{UnitLaws};

// Zero absorbs, negatives are unique and pass through sums and products, equal summands cancel.
pub fn derived_laws<A>()
    ensures { (o : Ops A) → Laws o → Derived o }
{}

// Multiples of one, powers and finite sums add up and multiply as numbers do.
pub fn counting_laws<A>()
    ensures { (o : Ops A) → Laws o → Counting o }
{}

// An element has one inverse at most; products of units are units, and so are their factors; a unit cancels.
pub fn unit_laws<A>()
    ensures { (o : Ops A) → Laws o → UnitLaws o }
{}

// Two lists of n coefficients whose polynomials have equal values at n points, any two of which differ by a unit, are equal entry for entry.
pub fn agreement<A>()
    ensures { (o : Ops A) → Laws o → (f g points : List A) → length f ≡ length g → length f ≤ length points → Apart o points → Agree o points f g → f ≡ g }
{}

// The solver is sound: two expressions that pass its test are equal in every commutative ring.
pub fn solver_is_sound<A>()
    ensures { (o : Ops A) → Laws o → (env : ℕ → A) (a b : Expr) → T (same a b) → eval o env a ≡ eval o env b }
{}

// By the solver: (a + b)² = a² + 2ab + b².
pub fn square_of_sum<A>()
    ensures { Holds A ((var 0 ⊞ var 1) ⊠ (var 0 ⊞ var 1)) (var 0 ⊠ var 0 ⊞ (𝟏 ⊞ 𝟏) ⊠ (var 0 ⊠ var 1) ⊞ var 1 ⊠ var 1) }
{}

// By the solver: the norm of complex numbers is multiplicative, (a² + b²)(c² + d²) = (ac − bd)² + (ad + bc)².
pub fn complex_norm<A>()
    ensures { Holds A ((var 0 ⊠ var 0 ⊞ var 1 ⊠ var 1) ⊠ (var 2 ⊠ var 2 ⊞ var 3 ⊠ var 3)) ((var 0 ⊠ var 2 ⊞ ⊟ (var 1 ⊠ var 3)) ⊠ (var 0 ⊠ var 2 ⊞ ⊟ (var 1 ⊠ var 3)) ⊞ (var 0 ⊠ var 3 ⊞ var 1 ⊠ var 2) ⊠ (var 0 ⊠ var 3 ⊞ var 1 ⊠ var 2)) }
{}

// By the solver, in the form that shows what is left where it refuses: Karatsuba's middle coefficient, (a + b)(c + d) − ac − bd = ad + bc.
pub fn karatsuba<A>()
    ensures { Holds A ((var 0 ⊞ var 1) ⊠ (var 2 ⊞ var 3) ⊞ ⊟ (var 0 ⊠ var 2) ⊞ ⊟ (var 1 ⊠ var 3)) (var 0 ⊠ var 3 ⊞ var 1 ⊠ var 2) }
{}

// By the solver from an equation: where n inverts the norm a² − wb², the conjugate a − bX times n inverts a + bX modulo X² − w.
pub fn inverse_by_norm<A>()
    ensures { Follows A (var 3 ⊠ (var 0 ⊠ var 0 ⊞ ⊟ (var 2 ⊠ (var 1 ⊠ var 1)))) 𝟏 (var 0 ⊠ (var 3 ⊠ var 0) ⊞ var 2 ⊠ (var 1 ⊠ ⊟ (var 3 ⊠ var 1))) 𝟏 }
{}
