//! The lines of a trace.

use lan_base::{Blocks, Mac, Name, Octets, Sci, Suite};

/// One line of a trace. Its fields are the words of its form, in order, but for those that it
/// begins with.
#[derive(Drop)]
pub enum Line {
    /// `draws count`: the draws count from 1.
    DrawsCount,
    /// `draws chacha KEY`: the draws are ChaCha's key stream, under a key of 32 octets.
    DrawsChaCha {
        key: [u8; 32],
    },
    /// `draws list D ..`: the draws are listed, 16 octets each, one at least.
    DrawsList {
        values: Blocks,
    },
    /// `conf C`: whether keys are made for confidentiality, 0 or 1.
    Conf {
        conf: u32,
    },
    /// `window W`: how far behind the highest number a frame may come.
    Window {
        window: u32,
    },
    /// `rekey R`: the packet number from which a key is spent, 2 at least.
    Rekey {
        rekey: u32,
    },
    /// `lag L`: how many flow rounds a frame waits, 0 to 1,000.
    Lag {
        lag: u32,
    },
    /// `suite S`: the cipher suite, by the bits of its keys, 128 or 256.
    Suite {
        suite: Suite,
    },
    /// `flag F`: whether a station has the key server flag also while it has elected nobody, 0 or 1.
    Flag {
        early: bool,
    },
    /// `group CAK CKN`: a key of 16 or 32 octets, and its name of 1 to 32 octets.
    Group {
        cak: Octets,
        ckn: Octets,
    },
    /// `station NAME SCI P`: a station starts, with a priority of 0 to 255.
    Station {
        name: Name,
        sci: Sci,
        priority: u32,
    },
    /// `tick N`: N rounds, 1 to 1,000,000.
    Tick {
        rounds: u32,
    },
    /// `tick NAME N`: N ticks of one station, 1 to 1,000,000.
    TickOne {
        name: Name,
        ticks: u32,
    },
    /// `flow N`: N flow rounds, 1 to 1,000,000.
    Flow {
        rounds: u32,
    },
    /// `deliver K NAME`: frame K reaches a station. Frames have numbers from 1 to 200,000.
    Deliver {
        frame: u32,
        name: Name,
    },
    /// `spread K`: frame K reaches the stations that its sender's links lead to.
    Spread {
        frame: u32,
    },
    /// `lose K`: frame K reaches nobody by itself.
    Lose {
        frame: u32,
    },
    /// `cut FROM TO`: the link from one station to another is cut.
    Cut {
        from: Name,
        to: Name,
    },
    /// `mend FROM TO`: that link is whole again.
    Mend {
        from: Name,
        to: Name,
    },
    /// `restart NAME`: a station begins a new life.
    Restart {
        name: Name,
    },
    /// `send NAME DST BODY`: a station sends user data of 2 to 1,500 octets.
    Send {
        name: Name,
        destination: Mac,
        body: Octets,
    },
    /// `race`: the lines of a race follow.
    Race,
    /// `burst NAME W N DST BODY`: 1 to 8 workers of a station send 1 to 100,000 frames of one body.
    Burst {
        name: Name,
        workers: u32,
        frames: u32,
        destination: Mac,
        body: Octets,
    },
    /// `while`: the control lines of a race follow.
    While,
    /// `end`: the race ends.
    End,
    /// `inject NAME OCTETS`: 1 to 1,600 octets reach a station from outside.
    Inject {
        name: Name,
        octets: Octets,
    },
    /// `feed K1 K2 NAME`: the frames from K1 to K2, which isn't below it, reach a station in order.
    Feed {
        first: u32,
        last: u32,
        name: Name,
    },
}
