//! Many protected frames are tried by as many threads as there are processors.

ghost use Rattle.std.specs.Prelude.{◌≡◌, All, map};
ghost use Rattle.packet_verdicts.specs.Trials.{IsTrial, answer, newest, tag_in};

use crate::sealed::newest_right;
use gcm_core::GcmKey;
use gcm_frames::Tag;
use rayon::slice::par_for_each_mut;
use std::thread::Threads;

/// A protected frame that waits for its key: the packet's octets, in which the frame begins at
/// `start`, what the frame says of itself, the numbers of the keys that are known to it, newest first,
/// and then the newest one under which it is right.
#[derive(Drop)]
pub struct Trial {
    pub octets: Vec<u8>,
    pub start: usize,
    pub tag: Tag,
    pub candidates: Vec<u32>,
    pub newest: Option<u32>,
}

impl Trial {
    /// Tries the keys.
    fn run(&mut self, keys: &[GcmKey])
        requires { IsTrial self.old }
        ensures answer { self.new.newest ≡ answer keys.now self.old }
        ensures tag { self.new.tag ≡ self.old.tag }
    {
        let frame = &self.octets[self.start..];
        self.newest = newest_right(keys, &self.candidates, &self.tag, frame);
    }
}

/// Finds for each frame the newest of its candidates under which it is right, just as `newest_right`
/// finds them one after the other.
pub fn run_trials(rt: &(impl Threads + Sync), keys: &[GcmKey], trials: &mut [Trial])
    requires { All IsTrial trials.old }
    ensures answers { map newest trials.new ≡ map (answer keys.now) trials.old }
    ensures tags { map tag_in trials.new ≡ map tag_in trials.old }
{
    par_for_each_mut(
        rt,
        trials,
        |_: usize, trial: &mut Trial|
            requires { IsTrial trial.old }
            ensures answer { trial.new.newest ≡ answer keys.entry.now trial.old }
            ensures tag { trial.new.tag ≡ trial.old.tag }
        {
            trial.run(keys);
        },
    );
}
