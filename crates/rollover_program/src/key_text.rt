//! The octets of a key text, and what stands between them and a capture.

ghost use Rattle.std.specs.Prelude.{◌≡◌, ◌++◌, length, take, min};
ghost use Rattle.rollover_program.specs.Joined.{ends_line, seam};

use lan_base::{Failed, Source};

/// Ends a line.
const LINE_FEED: u8 = b'\n';

/// A source that gives the octets of another one, a line feed where they end without one, and the line
/// behind which a capture begins.
#[derive(Drop)]
pub struct KeyText<K: Source + Drop> {
    keys: K,
    /// Whether what was given of them ends with a line feed.
    ends_line: bool,
    /// What is left of what stands behind them, when they have ended.
    seam: Option<&'static [u8]>,
}

impl<K: Source + Drop> KeyText<K> {
    ghost use Rattle.std.specs.Prelude.{option_map, false};
    ghost use Rattle.rollover_program.specs.Joined.{up_to_capture};

    /// What a source has left, up to the capture.
    pub fn new(keys: K) -> KeyText<K>
        ensures left { ⟦<KeyText<K> as Source>⟧.left result ≡ option_map up_to_capture (K.left keys) }
        ensures faults { ⟦<KeyText<K> as Source>⟧.faults result ≡ K.faults keys }
    {
        KeyText {
            keys,
            ends_line: false,
            seam: None,
        }
    }
}

impl<K: Source + Drop> Source for KeyText<K> {
    ghost use Rattle.std.specs.Prelude.{Bool, Option, None, Some, option_map, ⊤};
    ghost use Rattle.std.specs.Option.{option_map_or};
    ghost use Rattle.rollover_program.specs.Joined.{ends_line, seam};

    ghost left = { λ t. option_map (λ octets. option_map_or (λ rest. rest.now)
        t.seam (octets ++ seam (ends_line t.ends_line octets))) (K.left t.keys) };

    ghost faults = { λ t. K.faults t.keys };

    // In which turns the two are read is not said.
    ghost Gave = { λ _ _ _. ⊤ };

    fn read(&mut self, into: &mut [u8]) -> Result<usize, Failed> {
        if self.seam.is_none() {
            let count = self.keys.read(into)?;
            if count > 0 {
                self.ends_line = into[count - 1] == LINE_FEED;
                return Ok(count);
            }
        }
        let rest = self.seam.unwrap_or(seam(self.ends_line));
        let count = put_front(rest, into);
        self.seam = Some(&rest[count..]);
        Ok(count)
    }
}

/// What stands between octets that end with a line feed, or not, and a capture.
fn seam(ends_line: bool) -> &'static [u8]
    ensures { result.now ≡ seam ends_line }
{
    if ends_line {
        b"capture\n"
    } else {
        b"\ncapture\n"
    }
}

/// Puts as many octets as there is room for in front, and answers how many.
fn put_front(octets: &[u8], into: &mut [u8]) -> usize
    ensures some { result ≡ min (length octets.now) (length into.old) }
    ensures length { length into.new ≡ length into.old }
    ensures put { take result into.new ≡ take result octets.now }
{
    let count = octets.len().min(into.len());
    into[..count].copy_from_slice(&octets[..count]);
    count
}
