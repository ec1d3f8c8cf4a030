//! Pieces of a text are cut into lines.

ghost use Rattle.std.specs.Prelude.{◌≡◌, ◌++◌, ◌∷◌, [], OnOk, IfErr, IfNone, IfSome};
ghost use Rattle.text_lines.specs.Texts.{ended, open_line, last_line, without_return};
ghost use Rattle.text_lines.specs.Moments.{moment};
ghost use Rattle.text_lines.specs.inside.Fed.{Fed, HasNoFeed};

use crate::reading::End;
use crate::taker::LineTaker;
use memchr::memchr;

/// Hands on the lines that end in a piece, and keeps what begins the next one.
pub fn feed<K, T: LineTaker<K>>(
    taker: &mut T,
    begun: &mut Vec<u8>,
    piece: &[u8],
    outlet: &mut K,
) -> Result<(), End<T::Error>>
    requires { T.Asks }
    ensures does { Fed T.Did (ended begun.old.items piece.now) (moment taker.old outlet.old)
        (moment taker.new outlet.new) result }
    ensures begun { OnOk result (begun.new.items ≡ open_line begun.old.items piece.now) }
{
    let mut left = piece;
    while let Some((octets, rest)) = split_line(left) {
        end_line(taker, begun, octets, outlet)?;
        left = rest;
    }
    keep(begun, left)
}

/// What stands before the first line feed of a text, and what stands behind it.
fn split_line(text: &[u8]) -> Option<(&[u8], &[u8])>
    ensures parts { IfSome result (λ x. text.now ≡ x.0.now ++ 10 ∷ x.1.now) }
    ensures first { IfSome result (λ x. HasNoFeed x.0.now) }
    ensures none { IfNone result (HasNoFeed text.now) }
{
    let end = memchr(b'\n', text)?;
    let (octets, rest) = text.split_at(end);
    Some((octets, &rest[1..]))
}

/// Octets end the line that began: where none began it, they are handed on as they stand.
fn end_line<K, T: LineTaker<K>>(
    taker: &mut T,
    begun: &mut Vec<u8>,
    octets: &[u8],
    outlet: &mut K,
) -> Result<(), End<T::Error>>
    requires { T.Asks }
    ensures does { Fed T.Did (without_return (begun.old.items ++ octets.now) ∷ [])
        (moment taker.old outlet.old) (moment taker.new outlet.new) result }
    ensures begun { OnOk result (begun.new.items ≡ []) }
{
    if begun.is_empty() {
        return hand_on(taker, without_return(octets), outlet);
    }
    keep(begun, octets)?;
    hand_on(taker, without_return(begun.as_slice()), outlet)?;
    begun.clear();
    Ok(())
}

/// Octets belong to the line that began.
fn keep<E: Drop>(begun: &mut Vec<u8>, octets: &[u8]) -> Result<(), End<E>>
    ensures ok { OnOk result (begun.new.items ≡ begun.old.items ++ octets.now) }
    ensures memory { IfErr result (λ end. end ≡ End.Memory) }
{
    match begun.extend_from_slice(octets) {
        Ok(()) => Ok(()),
        Err(_) => Err(End::Memory),
    }
}

/// Hands on the last line, where octets are left for it.
pub fn last<K, T: LineTaker<K>>(
    taker: &mut T,
    begun: &[u8],
    outlet: &mut K,
) -> Result<(), End<T::Error>>
    requires { T.Asks }
    ensures { Fed T.Did (last_line begun.now) (moment taker.old outlet.old)
        (moment taker.new outlet.new) result }
{
    if begun.is_empty() {
        return Ok(());
    }
    hand_on(taker, begun, outlet)
}

/// Hands on a line.
fn hand_on<K, T: LineTaker<K>>(
    taker: &mut T,
    line: &[u8],
    outlet: &mut K,
) -> Result<(), End<T::Error>>
    requires { T.Asks }
    ensures { Fed T.Did (line.now ∷ []) (moment taker.old outlet.old)
        (moment taker.new outlet.new) result }
{
    match taker.line(line, outlet) {
        Ok(()) => Ok(()),
        Err(error) => Err(End::Refused(error)),
    }
}

/// Octets without one carriage return at their end.
fn without_return(octets: &[u8]) -> &[u8]
    ensures { result.now ≡ without_return octets.now }
{
    let [front @ .., last] = octets else {
        return octets;
    };
    if *last == b'\r' { front } else { octets }
}
