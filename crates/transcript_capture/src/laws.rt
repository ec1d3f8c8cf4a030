//! What holds of the packets of every transcript.

ghost use Rattle.std.specs.Prelude.{◌≡◌, ◌≤◌, ◌∷◌, ◌++◌, ℕ, [], All, Bool, List, length};
ghost use Rattle.lan_core.specs.declared.fact.Fact.{Fact};
ghost use Rattle.lan_core.specs.declared.fact.Fact.TheVariants.{Framed};
ghost use Rattle.capture_file.specs.Pcap.{most_written};
ghost use Rattle.capture_file.specs.Records.{IsFileOf, file_of};
ghost use Rattle.transcript_reader.specs.Time.{ticks};
ghost use Rattle.transcript_capture.specs.Packets.{frames, packet_at, packets, packets_after};

use capture_file::law_capture;

/// Where no frame is too long, the file of a transcript's packets has the frames that were put on the
/// air, each whole and in order. The time of each is how often
/// the facts before it moved time on.
pub fn law_frames_are_packets()
    ensures whole { (facts : List Fact)
        → All (λ octets. length octets ≤ most_written) (frames facts)
        → IsFileOf (frames facts) (file_of (packets facts)) }
    ensures times { (earlier later : List Fact) (k s : ℕ) (sec : Bool) (octets : List ℕ)
        → packets (earlier ++ Framed k s sec octets ∷ later)
        ≡ packets earlier ++ packet_at (ticks earlier) octets
        ∷ packets_after (earlier ++ Framed k s sec octets ∷ []) later }
{
    law_capture();
}
