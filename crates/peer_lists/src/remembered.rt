//! What the table keeps of a peer: its last accepted and its last vouched announcement, each with
//! the ticks that it has left and with whether a later announcement displaced it.

ghost use Rattle.std.specs.Prelude.{◌≡◌};
ghost use Rattle.peer_lists.specs.Showing.{aged, aged_peer, shown};
ghost use Rattle.peer_lists.specs.inside.RowChanges.{displaced_under, fresh, displaced_peer, has_more, has_sci, renewed, introduced, stays};

use crate::heard::{Heard, Row};
use crate::sent_numbers::WHOLE_LIFE;
use lan_base::Sci;

/// An accepted announcement that is younger than the life time.
#[derive(Clone, Copy)]
pub struct Words {
    pub told: Heard,
    /// In how many ticks it is as old as the life time.
    pub left: u8,
    /// Whether a later vouched announcement of another member has its SCI.
    pub displaced: bool,
}

impl Words {
    /// Of an announcement that has just come.
    fn fresh(told: &Heard) -> Words
        ensures { result ≡ fresh told.now }
    {
        Words {
            told: *told,
            left: WHOLE_LIFE,
            displaced: false,
        }
    }

    /// A tick passes.
    fn tick(&mut self)
        ensures { self.new ≡ aged self.old }
    {
        self.left = self.left.saturating_sub(1);
    }

    /// Whether it is young after the next tick too.
    fn has_more(&self) -> bool
        ensures { result ≡ has_more self.now }
    {
        self.left > 1
    }

    /// Another member's vouched announcement has this SCI.
    fn displace(&mut self, sci: &Sci)
        ensures { self.new ≡ displaced_under sci.now self.old }
    {
        if *sci == self.told.sci {
            self.displaced = true;
        }
    }
}

/// A peer with a young accepted announcement.
#[derive(Clone, Copy)]
pub struct Remembered {
    pub last: Words,
    pub vouched: Option<Words>,
}

impl Remembered {
    /// A peer that is heard for the first time.
    pub fn introduced(heard: &Heard, vouched: bool) -> Remembered
        ensures { result ≡ introduced vouched heard.now }
    {
        let words = Words::fresh(heard);
        Remembered {
            last: words,
            vouched: if vouched { Some(words) } else { None },
        }
    }

    /// The peer itself is heard again.
    pub fn renew(&mut self, heard: &Heard, vouched: bool)
        ensures { self.new ≡ renewed vouched heard.now self.old }
    {
        let words = Words::fresh(heard);
        self.last = words;
        if vouched {
            self.vouched = Some(words);
        }
    }

    /// A tick passes: vouched words that are now old go.
    pub fn tick(&mut self)
        ensures { self.new ≡ aged_peer self.old }
    {
        self.last.tick();
        if let Some(words) = &mut self.vouched {
            words.tick();
            if words.left == 0 {
                self.vouched = None;
            }
        }
    }

    /// Whether a tick changes nothing of what is shown of it.
    pub fn stays(&self) -> bool
        ensures { result ≡ stays self.now }
    {
        match &self.vouched {
            Some(words) => self.last.has_more() && words.has_more(),
            None => self.last.has_more(),
        }
    }

    /// Whether its last words or its vouched ones have this SCI.
    fn has_sci(&self, sci: &Sci) -> bool
        ensures { result ≡ has_sci sci.now self.now }
    {
        match &self.vouched {
            Some(words) => *sci == self.last.told.sci || *sci == words.told.sci,
            None => *sci == self.last.told.sci,
        }
    }

    /// A vouched announcement is heard, of this member or of another.
    pub fn displace(&mut self, heard: &Heard)
        ensures { self.new ≡ displaced_peer heard.now self.old }
    {
        if !self.has_sci(&heard.sci) || self.last.told.mi == heard.mi {
            return;
        }
        self.last.displace(&heard.sci);
        if let Some(words) = &mut self.vouched {
            words.displace(&heard.sci);
        }
    }

    /// What is shown of it.
    pub fn row(&self) -> Row
        ensures { result ≡ shown self.now }
    {
        let says = match self.vouched {
            Some(words) if !words.displaced => Some(words),
            _ => None,
        };
        let words = match says {
            Some(words) => words.told,
            None => self.last.told,
        };
        Row {
            mi: self.last.told.mi,
            mn: self.last.told.mn,
            sci: words.sci,
            priority: words.priority,
            live: says.is_some(),
            potential: says.is_none() && !self.last.displaced,
            uses: words.uses,
        }
    }
}
