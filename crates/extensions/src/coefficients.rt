// The interface of coefficients: structs that hold those of one degree by name, lowest power first.
ghost use Rattle.std.specs.Prelude.{◌≡◌, ℕ, suc, ◌≤◌, slice_index_or, slice_set};
ghost use Rattle.algebra.specs.Ring.{Ops};
ghost use Rattle.extensions.specs.Tuples.{Tuple, entries, each, both, fill};

use numbers::system::System;

// What is made of two coefficients at one place: `op` is that as a formula over any operations, in which constants that the operation holds have a meaning.
pub trait Operation<S: System> {
    ghost op: { Self → (A : Type 0) → Ops A → (S → A) → A → A → A };

    fn apply(&self, x: &S, y: &S) -> S
        ensures { S.mean result ≡ op self.now S.sys.Elem S.sys.ops S.mean (S.mean x.now) (S.mean y.now) };
}

// A type whose values hold the coefficients of an element: `d` is the degree less one, and `tuple` has them in their order.
// There is a struct for each degree, since the project's rules want coefficients as single named fields. What the coefficients mean, `each (suc d) S.mean (tuple a)`, is written
// out in clauses, since a ghost member that is data cannot cite one of another bound.
pub trait Coefficients<S: System>: Copy {
    ghost d: { ℕ };

    ghost tuple: { Self → Tuple (suc d) S };

    // The degree.
    fn degree() -> usize
        ensures { result ≡ suc d };

    // x at every power.
    fn fill(x: S) -> Self
        ensures { tuple result ≡ fill (suc d) x };

    // The coefficient at power k, which is zero beyond the last.
    fn coefficient(&self, k: usize) -> S
        ensures { S.mean result ≡ slice_index_or (entries (suc d) (each (suc d) S.mean (tuple self.now))) k S.sys.ops.zero };

    // Puts x at power k; beyond the last power nothing changes.
    fn set_coefficient(&mut self, k: usize, x: S)
        ensures { entries (suc d) (tuple self.new) ≡ slice_set (entries (suc d) (tuple self.old)) k x };

    // What the operation makes of the coefficients of both, power by power. Each struct names its fields here, so that nothing is looked up or copied by its place.
    fn combine<O: Operation<S>>(operation: &O, a: &Self, b: &Self) -> Self
        ensures { each (suc d) S.mean (tuple result) ≡ both (suc d) (O.op operation.now S.sys.Elem S.sys.ops S.mean) (each (suc d) S.mean (tuple a.now)) (each (suc d) S.mean (tuple b.now)) };

    ghost several: { 1 ≤ d };
}
