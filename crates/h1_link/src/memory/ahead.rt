//! Copying the bytes that are ahead.
ghost use Rattle.std.specs.Prelude.{◌≡◌, ◌+◌, ◌-◌, ◌≤◌, ◌++◌, min, take, length};

/// Copies as many bytes after the first `next` as there are and fit, and answers how many.
pub fn copy_ahead(put: &[u8], next: usize, buf: &mut [u8]) -> usize
    requires { next ≤ length put.now }
    ensures count { result ≡ min (length buf.old) (length put.now - next) }
    ensures copied { take next put.now ++ take result buf.new ≡ take (next + result) put.now }
    ensures kept { length buf.new ≡ length buf.old }
{
    let count = buf.len().min(put.len() - next);
    buf[..count].copy_from_slice(&put[next..next + count]);
    count
}
