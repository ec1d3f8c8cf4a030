//! Frames that one loop protects.

ghost use Rattle.std.specs.Prelude.{◌≡◌, length, IfOk};
ghost use Rattle.lan_base.specs.Ranges.{IsUserData};

use crate::table::{AN, CARD};
use aes_block::Key;
use data_workers::Sender;
use gcm_core::GcmKey;
use gcm_frames::{PROTECTION_OCTETS, protect};
use std::alloc::{AllocError, Global};

/// The sender's frame under so many packet numbers, from 1 on, each time in memory of its own.
pub fn protected(alloc: Global, sender: &Sender, count: u32) -> Result<Vec<Vec<u8>>, AllocError>
    requires { IsUserData sender.now.user.body }
    ensures { IfOk result (λ frames. length frames.items ≡ count) }
{
    let key = GcmKey::of(Key::of(&CARD.sak));
    let mut frames = Vec::with_capacity(alloc, count as usize)?;
    for done in 0..count {
        let mut frame = Vec::with_capacity(alloc, sender.user.body.len() + PROTECTION_OCTETS)?;
        protect(
            &key,
            sender.sci,
            AN,
            done + 1,
            CARD.conf,
            &sender.user,
            &mut frame,
        );
        frames.push_reserved(frame);
    }
    Ok(frames)
}
