//! Copying into a caller's buffer.
ghost use Rattle.std.specs.Prelude.{◌≡◌, ◌++◌, length, min, take, drop};

/// Copies as many of the first bytes as there are, as fit and as are allowed, and says how many.
pub(crate) fn copy_front(from: &[u8], into: &mut [u8], most: usize) -> usize
    ensures count { result ≡ min most (min (length into.old) (length from.now)) }
    ensures front { from.now ≡ take result into.new ++ drop result from.now }
{
    let count = most.min(into.len().min(from.len()));
    into[..count].copy_from_slice(&from[..count]);
    count
}
