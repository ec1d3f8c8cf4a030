//! Whoever draws a transcript and whoever judges it refuse the same.

ghost use Rattle.std.specs.Prelude.{ℕ, ◌≡◌, ◌⊎◌, List, Result, Err};
ghost use Rattle.text_lines.specs.Reading.{Sourced};
ghost use Rattle.text_lines.specs.declared.unfinished.Unfinished.{Unfinished};
ghost use Rattle.text_lines.specs.declared.unfinished.Unfinished.TheVariants as ends;
ghost use Rattle.transcript_check.specs.Transcripts.{EndsJudging};
ghost use Rattle.transcript_check.specs.declared.fault.CheckFault.{CheckFault};
ghost use Rattle.transcript_check.specs.declared.verdict.Verdict.{Verdict};
ghost use Rattle.transcript_picture.specs.Transcripts.{EndsDrawing};

use transcript_check::law_one_line_is_refused;

/// Where a line of a text is refused as it is drawn, judging the text ends at the same line for the same
/// reason; and where it is refused as it is judged, drawing it does. Only want of memory or a fault of
/// the source may come before.
pub fn law_drawing_refuses_as_judging_does()
    ensures judged { (text : List ℕ) (left now first last : Sourced) (number : ℕ) (why : CheckFault)
        (result : Result Verdict (Unfinished CheckFault))
        → EndsDrawing {X = List ℕ} text left now (Err (ends.Refused number why))
        → EndsJudging text first last result
        → (result ≡ Err (ends.Refused number why)) ⊎ (result ≡ Err ends.Memory)
        ⊎ (result ≡ Err ends.ReadFault) }
    ensures drawn { (text : List ℕ) (left now first last : Sourced) (number : ℕ) (why : CheckFault)
        (result : Result (List ℕ) (Unfinished CheckFault))
        → EndsJudging text left now (Err (ends.Refused number why))
        → EndsDrawing text first last result
        → (result ≡ Err (ends.Refused number why)) ⊎ (result ≡ Err ends.Memory)
        ⊎ (result ≡ Err ends.ReadFault) }
{
    law_one_line_is_refused();
}
