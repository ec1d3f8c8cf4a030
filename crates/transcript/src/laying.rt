//! Short lines, laid out in room of their own before they are appended.

ghost use Rattle.std.specs.Prelude.{◌≡◌, ◌≤◌, ◌++◌, ◌∷◌, [], take, codes, decimal, IfSome};
ghost use Rattle.transcript.specs.inside.Appending.{line_of};

use itoa::Buffer;
/// How many octets there is room for. The line of a tick has at most 59.
pub const ROOM: usize = 64;

/// Lays out the line of a tick of the station that is named, and answers how long it is, if there is
/// room for it.
pub fn lay_ticked(line: &mut [u8; ROOM], name: &[u8], at: u32, next: u64) -> Option<usize>
    ensures within { IfSome result (λ end. end ≤ 64) }
    ensures line { IfSome result (λ end. take end line.new ≡ line_of (codes "tick")
        (name.now ∷ decimal at ∷ codes "next" ∷ decimal next ∷ [])) }
{
    let mut digits = Buffer::new();
    let mut end = lay(line, 0, b"tick ")?;
    end = lay(line, end, name)?;
    end = lay(line, end, b" ")?;
    end = lay(line, end, digits.format(at).as_bytes())?;
    end = lay(line, end, b" next ")?;
    end = lay(line, end, digits.format(next).as_bytes())?;
    lay(line, end, b"\n")
}

/// Lays octets behind so many, and answers how many there are then, if there is room for them.
fn lay(line: &mut [u8; ROOM], from: usize, octets: &[u8]) -> Option<usize>
    requires { from ≤ 64 }
    ensures within { IfSome result (λ end. end ≤ 64) }
    ensures laid { IfSome result (λ end. take end line.new ≡ take from line.old ++ octets.now) }
{
    let mut end = from;
    for octet in octets {
        if end >= ROOM {
            return None;
        }
        line[end] = *octet;
        end += 1;
    }
    Some(end)
}
