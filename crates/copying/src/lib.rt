// Bytes copied over the start of others, which are at least as many.
#![tactic(auto)]

ghost use Rattle.std.specs.Prelude.{◌≡◌, ◌≤◌, ◌++◌, length, take, drop};

// How many bytes were copied.
pub fn copy(src: &[u8], dst: &mut [u8]) -> usize
    requires { length src.now ≤ length dst.old }
    ensures count { result ≡ length src.now }
    ensures bytes { dst.new ≡ take (length src.now) src.now ++ drop (length src.now) dst.old }
{
    dst[..src.len()].copy_from_slice(src);
    src.len()
}
