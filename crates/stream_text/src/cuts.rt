ghost use Rattle.std.specs.Prelude.{◌≡◌, [], ◌∷◌, ◌==◌, ◌<◌, MatchOption, IfSome, length};
ghost use Rattle.std.specs.List.{slice_split};

use memchr::memchr;

/// What stands before the first separator, and what stands behind it. It looks at many bytes at once.
pub(crate) fn cut(separator: u8, bytes: &[u8]) -> (&[u8], Option<&[u8]>)
    ensures parts { MatchOption result.1
        (slice_split (λ byte. byte == separator) bytes.now ≡ result.0.now ∷ [])
        (λ rest. slice_split (λ byte. byte == separator) bytes.now
        ≡ result.0.now ∷ slice_split (λ byte. byte == separator) rest.now) }
    ensures shorter { IfSome result.1 (λ rest. length rest.now < length bytes.now) }
{
    match memchr(separator, bytes) {
        Some(at) => (&bytes[..at], Some(&bytes[at + 1..])),
        None => (bytes, None),
    }
}

/// The same, byte by byte: it is faster where the separator is near.
pub(crate) fn cut_near(separator: u8, bytes: &[u8]) -> (&[u8], Option<&[u8]>)
    ensures parts { MatchOption result.1
        (slice_split (λ byte. byte == separator) bytes.now ≡ result.0.now ∷ [])
        (λ rest. slice_split (λ byte. byte == separator) bytes.now
        ≡ result.0.now ∷ slice_split (λ byte. byte == separator) rest.now) }
    ensures shorter { IfSome result.1 (λ rest. length rest.now < length bytes.now) }
{
    for (at, byte) in bytes.iter().enumerate() {
        if *byte == separator {
            return (&bytes[..at], Some(&bytes[at + 1..]));
        }
    }
    (bytes, None)
}
