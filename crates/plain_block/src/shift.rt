//! A length moved down or up.
ghost use Rattle.std.specs.Prelude.{◌≡◌, ◌≤◌, ◌+◌, unsigned_abs};
ghost use Rattle.plain_block.specs.Shifts.{moved};

/// A length moved by so much, down or up, in 0.001 mm.
pub fn moved(down: bool, length: i64, by: u64) -> i64
    requires length { unsigned_abs length ≤ 1000000000000 }
    requires by { by ≤ 1000000000000 }
    ensures moved { result ≡ moved down length by }
    ensures near { unsigned_abs result ≤ unsigned_abs length + by }
{
    if down {
        length - by as i64
    } else {
        length + by as i64
    }
}
