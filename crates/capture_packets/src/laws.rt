//! Laws of files of captured packets.

ghost use Rattle.std.specs.Prelude.{◌≡◌, ◌++◌, ℕ, List, None};
ghost use Rattle.std.specs.List.{AllByRecursion};
ghost use Rattle.capture_file.specs.declared.order.Order.{Order};
ghost use Rattle.capture_packets.specs.declared.state.Parts.{Parts};
ghost use Rattle.capture_packets.specs.Packets.{Seen};
ghost use Rattle.capture_packets.specs.Captures.{capture};
ghost use Rattle.capture_packets.specs.Fronts.{IsToldBefore};
ghost use Rattle.capture_packets.specs.Written.{IsWritable, blocks_file, classic_file};

/// Packets that can be written are what the file tells that is written of them, and nothing is refused:
/// in the classic format with microseconds or nanoseconds, and in pcapng, in either order of octets. So
/// these files are one to whoever reads packets.
pub fn law_one_list()
    ensures classic { (order : Order) (parts : Parts) (packets : List Seen)
        → AllByRecursion (IsWritable parts) packets
        → capture (classic_file order parts packets) ≡ record { packets = packets; refused = None } }
    ensures blocks { (order : Order) (parts : Parts) (packets : List Seen)
        → AllByRecursion (IsWritable parts) packets
        → capture (blocks_file order packets) ≡ record { packets = packets; refused = None } }
{}

/// A front of a file has the first packets of the whole, so that a capture that was broken off is one of
/// what it has. Where more is refused of the front than its end, the whole tells the same.
pub fn law_front()
    ensures { (front rest : List ℕ) → IsToldBefore (capture front) (capture (front ++ rest)) }
{}
