//! How far the lines of a transcript are counted.

ghost use Rattle.std.specs.Prelude.{◌≡◌};
ghost use Rattle.transcript_reader.specs.Counting.{number_after};

/// The number of the line after so many.
pub fn number_after(count: u64) -> u32
    ensures { result ≡ number_after count }
{
    u32::try_from(count.saturating_add(1)).unwrap_or(u32::MAX)
}
