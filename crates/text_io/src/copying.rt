ghost use Rattle.std.specs.Prelude.{◌≡◌, ◌++◌, drop, length, min, take};

/// Copies the front of `from` over the front of `to`, as many bytes as both have, and answers how
/// many.
pub(crate) fn copy_front(from: &[u8], to: &mut [u8]) -> usize
    ensures count { result ≡ min (length from.now) (length to.old) }
    ensures copied { to.new ≡ take result from.now ++ drop result to.old }
{
    let count = from.len().min(to.len());
    to[..count].copy_from_slice(&from[..count]);
    count
}
