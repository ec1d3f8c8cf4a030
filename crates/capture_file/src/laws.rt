//! Laws of files of captured packets.

ghost use Rattle.std.specs.Prelude.{◌≡◌, ◌≤◌, ℕ, All, List, length, map};
ghost use Rattle.capture_file.specs.Pcap.{most_written};
ghost use Rattle.capture_file.specs.Records.{IsFileOf, Packet, file_of};

/// Where no packet is too long, the file that is written of packets has these, each whole and in
/// order. A file has no other packets than those that it has.
pub fn law_capture()
    ensures packets { (packets : List Packet)
        → All (λ p. length p.octets ≤ most_written) packets
        → IsFileOf (map (λ p. p.octets) packets) (file_of packets) }
    ensures only { (file : List ℕ) (packets others : List (List ℕ)) → IsFileOf packets file
        → IsFileOf others file → packets ≡ others }
{}
