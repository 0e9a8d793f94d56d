// Inverses modulo m.
ghost use Rattle.std.specs.Prelude.{◌≡◌, ℕ, ◌*◌, ◌%◌, ◌^◌, ◌<◌, ◌≤◌, Some, None, ◌≢◌};

// The number below m that times a leaves 1 modulo m, by the extended Euclidean algorithm; none where no number does.
pub(crate) fn inverse_modulo(m: u64, a: u64) -> Option<u64>
    requires low { 2 ≤ m }
    requires high { m < 2 ^ 31 }
    requires small { a < 2 ^ 31 }
    ensures { elim result [ Some t ↦ (t < m) × ((a * t) % m ≡ 1) | None ↦ ((x : ℕ) → (a * x) % m ≢ 1) ] }
{
    let mut r0 = m;
    let mut r1 = a % m;
    let mut t0 = 0u64;
    let mut t1 = 1u64;
    while r1 != 0 {
        let q = r0 / r1;
        let r2 = r0 % r1;
        let t2 = (t0 + (m - q * t1 % m)) % m;
        r0 = r1;
        r1 = r2;
        t0 = t1;
        t1 = t2;
    }
    // r0 is the greatest common divisor of m and a
    (r0 == 1).then_some(t0)
}
