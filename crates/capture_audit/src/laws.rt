//! Laws of audits.

ghost use Rattle.std.specs.Prelude.{◌≡◌, ◌≢◌, ◌↔◌, ◌∷◌, ◌++◌, All, Bool, ℕ, List, Option, Some, None, option_map};
ghost use Rattle.audit_report.specs.Verdicts.{Verdict};
ghost use Rattle.audit_report.specs.declared.blame.Blame.{Blame};
ghost use Rattle.audit_report.specs.declared.ending.Ending.{Ending};
ghost use Rattle.audit_report.specs.declared.ending.Ending.TheVariants.{Fault};
ghost use Rattle.audit_text.specs.declared.line.KeyLine.TheVariants.{Group};
ghost use Rattle.capture_packets.specs.Packets.{Seen};
ghost use Rattle.key_ring.specs.Rings.{Ring, ring_in, with_line};
ghost use Rattle.known_keys.specs.OneKey.{BreaksOneKey};
ghost use Rattle.least_pairs.specs.Pairs.{IsLeast};
ghost use Rattle.packet_verdicts.specs.Groups.{GroupKeys, derived_keys};
ghost use Rattle.use_notes.specs.Once.{BreaksOnce};
ghost use Rattle.capture_audit.specs.declared.asks.Asks.{Asks};
ghost use Rattle.capture_audit.specs.Before.{IsUnwrapped, Unwrapped, entries, frames, number_behind};
ghost use Rattle.capture_audit.specs.Ends.{IsReported};
ghost use Rattle.capture_audit.specs.Laws.{IsFileOf, IsInput, IsOfOther, IsWhole, moved_pair, once_more, with_group};
ghost use Rattle.capture_audit.specs.Telling.{IsVerdict, report, told_lines};

use audit_text::law_parted;
use capture_packets::law_one_list;
use key_ring::law_groups_are_keyed;
use key_wrap::law_one_key_for_one_wrap;

/// A verdict names the least pair that breaks exactly where one does: of packets that use a packet
/// number of a sender twice under a key, and of packets that give one identifier with two keys or
/// association numbers, or one key under two identifiers.
pub fn law_the_least_pair_is_named()
    ensures once { (ring : Ring) (packets : List Unwrapped) (v : Verdict) → IsVerdict ring packets v
        → (i j : ℕ) → (v.once ≡ Some (i, j)) ↔ IsLeast (BreaksOnce (frames ring packets)) i j }
    ensures once_ok { (ring : Ring) (packets : List Unwrapped) (v : Verdict) → IsVerdict ring packets v
        → (v.once ≡ None) ↔ ((i j : ℕ) → BreaksOnce (frames ring packets) i j → ⊥) }
    ensures one_key { (ring : Ring) (packets : List Unwrapped) (v : Verdict) → IsVerdict ring packets v
        → (i j : ℕ) → (v.one_key ≡ Some (i, j)) ↔ IsLeast (BreaksOneKey (entries ring packets)) i j }
    ensures one_key_ok { (ring : Ring) (packets : List Unwrapped) (v : Verdict) → IsVerdict ring packets v
        → (v.one_key ≡ None) ↔ ((i j : ℕ) → BreaksOneKey (entries ring packets) i j → ⊥) }
{}

/// What is told of a front of the packets is told first of the whole, and what is broken in it stays
/// broken, by the same pair: so what was written while a capture grew is not taken back.
pub fn law_a_front_is_told_first()
    ensures lines { (asks : Asks) (ring : Ring) (later earlier : List Unwrapped)
        → (more : List ℕ) × (told_lines asks ring (later ++ earlier) ≡ told_lines asks ring earlier ++ more) }
    ensures once { (ring : Ring) (later earlier : List Unwrapped) (front whole : Verdict) (pair : ℕ × ℕ)
        → IsVerdict ring earlier front → IsVerdict ring (later ++ earlier) whole
        → front.once ≡ Some pair → whole.once ≡ Some pair }
    ensures one_key { (ring : Ring) (later earlier : List Unwrapped) (front whole : Verdict) (pair : ℕ × ℕ)
        → IsVerdict ring earlier front → IsVerdict ring (later ++ earlier) whole
        → front.one_key ≡ Some pair → whole.one_key ≡ Some pair }
{}

/// The report of a whole file follows from the key text and the packets: two inputs that agree in both
/// are read alike, judged alike, and the same is written. So it says nothing whether the packets stand in
/// the classic format or in pcapng, in which order of octets, and with which kind of time. Where the
/// source failed, fewer packets were read, of which a front of the same is told.
pub fn law_the_format_says_nothing()
    ensures packets { (asks : Asks) (packets : List Seen) (text other : List ℕ) (one two : Ending)
        (blamed also : Blame) (left right held then later : Option (List ℕ))
        → ring_in text ≡ ring_in other → IsWhole text packets → IsWhole other packets
        → one ≢ Fault → two ≢ Fault
        → IsReported asks text left one blamed held then
        → IsReported asks other right two also held later
        → (one ≡ two) × (blamed ≡ also) × (then ≡ later) }
    ensures formats { (asks : Asks) (packets : List Seen) (keys file another text other : List ℕ)
        (one two : Ending) (blamed also : Blame) (left right held then later : Option (List ℕ))
        → IsFileOf packets file → IsFileOf packets another
        → IsInput keys file text → IsInput keys another other
        → one ≢ Fault → two ≢ Fault
        → IsReported asks text left one blamed held then
        → IsReported asks other right two also held later
        → (one ≡ two) × (blamed ≡ also) × (then ≡ later) }
{
    law_one_key_for_one_wrap();
    law_groups_are_keyed();
    law_one_list();
    law_parted();
}

/// A packet once more, directly behind itself and at any time, makes no pair appear or go: a mirror port
/// or a capture at two interfaces refutes nothing, and hides nothing. The packets behind it are counted
/// one further.
pub fn law_a_repetition_changes_no_verdict()
    ensures once { (ring : Ring) (later before : List Unwrapped) (u : Unwrapped) (nanos : ℕ)
        (is_untimed : Bool) (one two : Verdict)
        → IsVerdict ring (later ++ u ∷ before) one
        → IsVerdict ring (later ++ once_more nanos is_untimed u ∷ u ∷ before) two
        → two.once ≡ option_map (moved_pair (number_behind before)) one.once }
    ensures one_key { (ring : Ring) (later before : List Unwrapped) (u : Unwrapped) (nanos : ℕ)
        (is_untimed : Bool) (one two : Verdict)
        → IsVerdict ring (later ++ u ∷ before) one
        → IsVerdict ring (later ++ once_more nanos is_untimed u ∷ u ∷ before) two
        → two.one_key ≡ option_map (moved_pair (number_behind before)) one.one_key }
{}

/// A group whose name no MKPDU spells, put last, as a line of the key text adds it, changes no line: keys
/// of other LANs do no harm.
pub fn law_a_group_without_frames_changes_nothing()
    ensures line { (n : ℕ) (cak ckn : List ℕ) (ring : Ring)
        → with_line n (Group cak ckn) ring ≡ with_group ring (derived_keys cak ckn) }
    ensures unwrapped { (ring : Ring) (keys : GroupKeys) (u : Unwrapped) → IsOfOther keys u
        → IsUnwrapped (with_group ring keys) u ↔ IsUnwrapped ring u }
    ensures known { (ring : Ring) (keys : GroupKeys) (packets : List Unwrapped) → All (IsOfOther keys) packets
        → entries (with_group ring keys) packets ≡ entries ring packets }
    ensures verdict { (ring : Ring) (keys : GroupKeys) (packets : List Unwrapped) (v : Verdict)
        → All (IsOfOther keys) packets
        → IsVerdict (with_group ring keys) packets v ↔ IsVerdict ring packets v }
    ensures lines { (asks : Asks) (ring : Ring) (keys : GroupKeys) (packets : List Unwrapped)
        → All (IsOfOther keys) packets
        → told_lines asks (with_group ring keys) packets ≡ told_lines asks ring packets }
    ensures report { (asks : Asks) (ring : Ring) (keys : GroupKeys) (packets : List Unwrapped) (v : Verdict)
        (ending : Ending) → All (IsOfOther keys) packets
        → report asks (with_group ring keys) packets v ending ≡ report asks ring packets v ending }
{}
