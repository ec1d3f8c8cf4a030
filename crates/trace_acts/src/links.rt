//! The links that are cut.

ghost use Rattle.std.specs.Prelude.{◌≡◌, [], OnOk};
ghost use Rattle.trace_acts.specs.Links.{is_link, is_cut, with_link, without_link};

use std::alloc::{AllocError, Global};
use std::marker::Model;

/// The link from one station to another.
#[derive(Clone, Copy, Debug)]
pub struct Link {
    pub from: u8,
    pub to: u8,
}

/// The links that are cut, each once. Contracts see the list.
#[derive(Drop)]
pub struct Links {
    cuts: Vec<Link>,
}

impl Model for Links {
    ghost use Rattle.std.specs.Prelude.{List};
    ghost use Rattle.trace_acts.specs.declared.links.Link.{Link};

    ghost Value = { List Link };

    ghost view = { λ l. l.cuts.items };
}

impl Links {
    /// No link is cut.
    pub fn new(alloc: Global) -> Self
        ensures { result ≡ [] }
    {
        Links {
            cuts: Vec::new(alloc),
        }
    }

    /// Whether a link is cut.
    pub fn is_cut(&self, from: u8, to: u8) -> bool
        ensures { result ≡ is_cut from to self.now }
    {
        self.cuts.iter().any(|link| is_link(*link, from, to))
    }

    /// Cuts a link. One that is cut already stays so.
    pub fn cut(&mut self, from: u8, to: u8) -> Result<(), AllocError>
        ensures { OnOk result (self.new ≡ with_link from to self.old) }
    {
        if !self.is_cut(from, to) {
            self.cuts.push(Link { from, to })?;
        }
        Ok(())
    }

    /// Mends a link. One that is whole stays so.
    pub fn mend(&mut self, from: u8, to: u8)
        ensures { self.new ≡ without_link from to self.old }
    {
        self.cuts.retain(|link| !is_link(*link, from, to));
    }
}

/// Whether a link leads from one station to another.
fn is_link(link: Link, from: u8, to: u8) -> bool
    ensures { result ≡ is_link from to link }
{
    link.from == from && link.to == to
}
