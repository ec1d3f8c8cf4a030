//! What is protected.

ghost use Rattle.std.specs.Prelude.{◌≡◌, IfOk};
ghost use Rattle.lan_base.specs.Ranges.{IsUserData};

use data_workers::Sender;
use lan_base::{Mac, Octets, Sci, UserFrame};
use std::alloc::{AllocError, Global};

/// How many octets of user data a frame has: with two addresses of 6 octets it has 1,500.
const USER_DATA: usize = 1488;

/// The station at the first place, and the frame that it sends.
pub fn sender(alloc: Global) -> Result<Sender, AllocError>
    ensures station { IfOk result (λ s. s.station ≡ 0) }
    ensures user { IfOk result (λ s. IsUserData s.user.body) }
{
    let user = UserFrame {
        destination: Mac([0xff; 6]),
        body: Octets::from_slice(alloc, &[0x5a; USER_DATA])?,
    };
    Ok(Sender {
        station: 0,
        sci: Sci([2, 0, 0, 0, 0, 0x0a, 0, 1]),
        user,
    })
}
