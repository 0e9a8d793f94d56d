// Numbers drawn from random bytes, each number as often as any other.
ghost use Rattle.std.specs.Prelude.{◌<◌};
ghost use Rattle.std.specs.Int.{w32, from_le_bytes};
ghost use Rattle.mornings.specs.Draws.{Drawn, Even};

// The number below the limit that four bytes stand for; none where they are to be drawn again, as always with limit 0. As many bytes stand for one number as
// for any other.
pub fn number(bytes: [u8; 4], limit: u32) -> Option<u32>
    ensures drawn { Drawn limit (from_le_bytes w32 bytes) result }
    ensures even { Even limit }
{
    let word = u32::from_le_bytes(bytes);
    let place = word.checked_div(limit)?;
    // the words of a number stand at 2^32 / limit places
    if u64::from(place) < (1 << 32) / u64::from(limit) {
        Some(word % limit)
    } else {
        None
    }
}
