//! The first place of a byte.
ghost use Rattle.std.specs.Prelude.{◌≡◌, ◌==◌, false, MatchOption};
ghost use Rattle.std.specs.List.{list_any};
ghost use Rattle.row_reader.specs.steps.Finding.{IsFirstAt};

use memchr::memchr;

/// The first place of a byte.
pub(crate) fn find(byte: u8, bytes: &[u8]) -> Option<usize>
    ensures { MatchOption result (list_any (λ b. b == byte) bytes.now ≡ false)
        (IsFirstAt byte bytes.now) }
{
    memchr(byte, bytes)
}
