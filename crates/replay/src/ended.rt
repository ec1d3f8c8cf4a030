//! How a run ends, by the ends of the calls that it is made of.

ghost use Rattle.std.specs.Prelude.{◌≡◌};
ghost use Rattle.replay.specs.inside.Ended.{answered, ended};

use lan_base::Unwritten;
use text_lines::End;
use trace_acts::Halt;

/// How a run ends, by how its lines were read and whether its text may end there.
pub fn ended(read: Result<(), End<Halt>>, may: Result<(), Halt>) -> Result<(), End<Halt>>
    ensures { result ≡ ended read may }
{
    read?;
    match may {
        Ok(()) => Ok(()),
        Err(halt) => Err(End::Refused(halt)),
    }
}

/// What writing a text answers, as the answer of a replay.
pub fn answered(answer: Result<(), Unwritten>) -> Result<(), End<Halt>>
    ensures { result ≡ answered answer }
{
    match answer {
        Ok(()) => Ok(()),
        Err(why) => Err(End::Refused(Halt::from(why))),
    }
}
