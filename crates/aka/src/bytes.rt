ghost use Rattle.std.specs.Prelude.{◌≡◌, ◌≤◌, take};
ghost use Rattle.std.specs.Str.{bytes_eq};

// Whether a part is the first n bytes of a block. A block and a size: an end has no heap, and its sizes are known only when it runs.
pub(crate) fn is_front(part: &[u8], block: [u8; 32], n: usize) -> bool
    requires { n ≤ 32 }
    ensures { result ≡ bytes_eq part.now (take n block) }
{
    same(part, &block[..n])
}

// Whether they are equal, in length and bytes.
// The one place where the library's word for `==` of slices becomes the one of the definitions: each use of `==` would need the same lemma.
pub fn same(a: &[u8], b: &[u8]) -> bool
    ensures { result ≡ bytes_eq a.now b.now }
{
    a == b
}
