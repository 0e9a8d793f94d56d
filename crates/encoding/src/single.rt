// One number as four bytes, least byte first.
ghost use Rattle.std.specs.Prelude.{◌≡◌, [], ◌∷◌, length, Ok, Err, ◌≢◌};
ghost use Rattle.encoding.specs.Bytes.{bytes_of, numbers_of};

use numbers::refusal::Refusal;

// The number that four bytes are.
pub(crate) fn read(bytes: &[u8]) -> Result<u64, Refusal>
    ensures { elim result [ Ok n ↦ (bytes_of (n ∷ []) ≡ bytes.now) × (numbers_of bytes.now ≡ n ∷ []) | Err e ↦ (length bytes.now ≢ 4) × (e ≡ Refusal.CutList) ] }
{
    match bytes {
        [a, b, c, d] => Ok(u64::from(u32::from_le_bytes([*a, *b, *c, *d]))),
        _ => Err(Refusal::CutList),
    }
}

// Makes four bytes the number; bytes of another count stay as they were.
pub(crate) fn write(n: u32, out: &mut [u8]) -> Result<(), Refusal>
    ensures { elim result [ Ok _ ↦ out.new ≡ bytes_of (n ∷ []) | Err e ↦ (length out.old ≢ 4) × (e ≡ Refusal.CutList) × (out.new ≡ out.old) ] }
{
    if out.len() != 4 {
        return Err(Refusal::CutList);
    }
    out.copy_from_slice(&n.to_le_bytes());
    Ok(())
}
