//! What a station is set up with.

use lan_base::{Sci, Suite};
use mka_kdf::Group;
use sak_exchange::Rekey;
use std::marker::Model;

/// What a station is set up with, for all its lives. Contracts see it as a `Setup`.
#[derive(Drop)]
pub struct Config {
    pub sci: Sci,
    /// The key server priority: the least one serves, 255 never does.
    pub priority: u8,
    /// From where on a key is spent.
    pub rekey: Rekey,
    /// Whether keys that the station makes give confidentiality.
    pub conf: bool,
    /// Whether the station has the key server flag also while it has elected nobody.
    pub early_flag: bool,
    /// The keys that the group's connectivity association key gives.
    pub group: Group,
    /// The cipher suite of the keys that the station makes.
    pub suite: Suite,
}

impl Model for Config {
    ghost use Rattle.mka_station.specs.Lives.{Setup};

    ghost Value = { Setup };

    ghost view = { λ c. record {
      sci = c.sci;
      priority = c.priority;
      rekey = c.rekey;
      conf = c.conf;
      early_flag = c.early_flag;
      suite = c.suite;
      ckn = c.group.ckn;
      kek = c.group.kek;
      ick = c.group.ick;
    } };
}
