//! Laws of protected frames.

ghost use Rattle.std.specs.Prelude.{◌≡◌, ◌↔◌, ◌+◌, Bool, List, ℕ, length, Some, Ok, IsTrue, is_some};
ghost use Rattle.aes_block.specs.Aes.{IsKey};
ghost use Rattle.lan_base.specs.declared.address.Sci.{Sci};
ghost use Rattle.lan_base.specs.declared.association_number.AssociationNumber.{AssociationNumber};
ghost use Rattle.lan_base.specs.declared.frame.UserFrame.{UserFrame};
ghost use Rattle.gcm_frames.specs.declared.tag.Tag.{Tag};
ghost use Rattle.gcm_frames.specs.Protected.{IsSci, IsSent, iv, protected, protection_octets};
ghost use Rattle.gcm_frames.specs.Tags.{is_sec, tag_fields};
ghost use Rattle.gcm_frames.specs.Written.{tag_written};
ghost use Rattle.gcm_frames.specs.Sealed.{IsSealedFrom, is_sealed_with, opened, user_data};
ghost use Rattle.mkpdu_codec.specs.Refusals.{refused as refused_by_mka};
ghost use Rattle.mkpdu_codec.specs.declared.refusal.Refusal.TheVariants.{NotMka};

use crate::protecting::PROTECTION_OCTETS;
use aes_block::law_ciphertexts_are_blocks;

/// What `protect` writes is read again: the sender's SCI, the association number, the packet number
/// and the mode, and where the user data stands.
pub fn law_protected_is_read()
    ensures { (key : List ℕ) (sci : Sci) (an : AssociationNumber) (pn : ℕ) (conf : Bool)
        (user : UserFrame) → IsKey key → IsSent sci pn user
        → tag_fields (protected key sci an pn conf user) ≡ Ok (tag_written sci an pn conf user) }
{
    law_ciphertexts_are_blocks();
}

/// A protected frame has 44 octets more than its user data: addresses, SecTAG and tag.
pub fn law_protected_is_longer()
    ensures { (key : List ℕ) (sci : Sci) (an : AssociationNumber) (pn : ℕ) (conf : Bool)
        (user : UserFrame) → IsKey key → IsSent sci pn user
        → length (protected key sci an pn conf user) ≡ length user.body + protection_octets }
{
    law_ciphertexts_are_blocks();
}

/// What `protect` writes, the same key opens to the user data.
pub fn law_protected_is_opened()
    ensures { (key : List ℕ) (sci : Sci) (an : AssociationNumber) (pn : ℕ) (conf : Bool)
        (user : UserFrame) → IsKey key → IsSent sci pn user
        → opened key (tag_written sci an pn conf user) (protected key sci an pn conf user)
        ≡ Some user.body }
{
    law_ciphertexts_are_blocks();
}

/// A frame opens to user data exactly where it is sealed from a text with that user data.
pub fn law_opened_is_sealed()
    ensures { (key frame user : List ℕ) (tag : Tag) → IsKey key → IsSci tag.sci
        → (opened key tag frame ≡ Some user)
        ↔ ((text : List ℕ) × IsSealedFrom key tag frame text × (user ≡ user_data tag frame text)) }
{
    law_ciphertexts_are_blocks();
}

/// A frame is sealed as it is with the IV of its SCI and packet number and no octets in clear.
pub fn law_sealed_without_offset()
    ensures { (key frame : List ℕ) (tag : Tag)
        → is_sealed_with key (iv tag.sci tag.pn) 0 tag frame ≡ is_some (opened key tag frame) }
{}

/// No frame with the EtherType of MACsec is a frame of key agreement.
pub fn law_no_frame_is_both()
    ensures { (frame : List ℕ) → IsTrue (is_sec frame) → refused_by_mka frame ≡ Some NotMka }
{}

/// The count of the code is that of the definition.
pub fn law_protection_octets()
    ensures { PROTECTION_OCTETS ≡ protection_octets }
{}
