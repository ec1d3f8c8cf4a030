//! The forms of a transcript.

ghost use Rattle.std.specs.Prelude.{◌≡◌, option_map};
ghost use Rattle.transcript_reader.specs.Forms.{form_of, group_of, marked, parted};

use crate::group::Group;

/// What the lines of a transcript are.
#[derive(Clone, Copy, Debug, PartialEq, Eq)]
pub enum Form {
    /// Those of the facts of one group.
    OneGroup,
    /// Those of the facts of two groups, each behind its group's number.
    TwoGroups,
}

impl Form {
    /// The form of a transcript whose first line this is.
    pub fn of(line: &[u8]) -> Form
        ensures { result ≡ form_of line.now }
    {
        match marked(line) {
            Some(_) => Form::TwoGroups,
            None => Form::OneGroup,
        }
    }

    /// The group whose fact a line tells, and the line of the fact.
    pub fn part(self, line: &[u8]) -> Option<(Group, &[u8])>
        ensures { option_map (λ x. (x.0, x.1.now)) result ≡ parted self line.now }
    {
        match self {
            Form::OneGroup => Some((Group::First, line)),
            Form::TwoGroups => marked(line),
        }
    }
}

/// The group whose number stands in front of a line, and what stands behind it.
fn marked(line: &[u8]) -> Option<(Group, &[u8])>
    ensures { option_map (λ x. (x.0, x.1.now)) result ≡ marked line.now }
{
    let [digit, space, text @ ..] = line else {
        return None;
    };
    if *space != b' ' {
        return None;
    }
    let group = group_of(*digit)?;
    Some((group, text))
}

/// The group with this digit.
fn group_of(digit: u8) -> Option<Group>
    ensures { result ≡ group_of digit }
{
    match digit {
        b'1' => Some(Group::First),
        b'2' => Some(Group::Second),
        _ => None,
    }
}
