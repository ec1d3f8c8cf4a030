//! Who takes the facts of a transcript, and records their frames.

use crate::fault::LineFault;
use crate::recording::Recording;
use lan_base::Sink;
use lan_core::Fact;
use transcript_reader::{FactTaker, TakeError};

impl<K: Sink> FactTaker<K> for Recording {
    ghost use Rattle.lan_base.specs.Faults.{Rose};
    ghost use Rattle.transcript_capture.specs.declared.fault.LineFault.TheVariants.{Unread};
    ghost use Rattle.transcript_capture.specs.Lines.{by_length};
    ghost use Rattle.transcript_capture.specs.inside.Holding.{rose-earlier};
    ghost use Rattle.transcript_capture.specs.inside.Recorded.{Grew, Refuses, all-part, fact-denies, grew-none, grew-then, recorded_all};

    type Fault = LineFault;

    ghost rule = { by_length };

    ghost Refuses = { Refuses };

    ghost unread = { Unread };

    ghost courses = { recorded_all K.held };

    ghost Grew = { Grew K.held K.faults };

    ghost Fails = { λ old new. Rose (K.faults old) (K.faults new) };

    fn unread() -> LineFault {
        LineFault::Unread
    }

    fn fact(&mut self, fact: &Fact, outlet: &mut K) -> Result<(), TakeError<LineFault>> {
        self.take(fact, outlet)?;
        Ok(())
    }

    ghost untold = { λ known facts line none. none };

    ghost denied = { λ known after facts line fact why tells refused.
        fact-denies known after line facts fact why tells refused };

    ghost breaks = { λ first now facts took. all-part K.held K.faults first now facts took };

    ghost stays = { λ a. grew-none K.held K.faults a };

    ghost further = { λ a b c earlier later. grew-then K.held K.faults a b c earlier later };

    ghost late = { λ a b c earlier fails. rose-earlier (K.faults a) (K.faults b) (K.faults c) earlier.1 fails };
}
