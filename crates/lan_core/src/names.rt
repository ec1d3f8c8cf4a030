//! The names of the stations of a group.

ghost use Rattle.std.specs.Prelude.{◌≡◌, ◌<◌, ◌≤◌, ◌++◌, ◌∷◌, [], length, OnOk, OnErr};
ghost use Rattle.lan_core.specs.Keys.{place_of};
ghost use Rattle.lan_core.specs.Order.{most_stations};

use lan_base::Name;
use std::alloc::{AllocError, Global};
use std::marker::Model;

/// The names of the stations, in the order of their starts. Contracts see the list.
#[derive(Drop)]
pub struct Names {
    names: Vec<Name>,
}

impl Model for Names {
    ghost use Rattle.std.specs.Prelude.{List, ◌≤◌, length};
    ghost use Rattle.lan_base.specs.declared.name.Name.{Name};
    ghost use Rattle.lan_core.specs.Order.{most_stations};

    ghost Value = { List Name };

    ghost view = { λ n. n.names.items };

    ghost invariant = { λ n. length n.names.items ≤ most_stations };
}

impl Names {
    /// No name, which takes no memory.
    pub fn new(alloc: Global) -> Names
        ensures { result ≡ [] }
    {
        Names {
            names: Vec::new(alloc),
        }
    }

    /// How many names there are.
    pub fn len(&self) -> usize
        ensures { result ≡ length self.now }
    {
        self.names.len()
    }

    /// The names.
    pub fn as_slice(&self) -> &[Name]
        ensures { result.now ≡ self.now }
    {
        &self.names
    }

    /// The place of a name.
    pub fn place(&self, name: &Name) -> Option<u8>
        ensures { result ≡ place_of name.now self.now }
    {
        let place = first_of(&self.names, name)?;
        Some(place as u8)
    }

    /// Appends a name. An error leaves the names as they were.
    pub fn push(&mut self, name: Name) -> Result<(), AllocError>
        requires { length self.old < most_stations }
        ensures ok { OnOk result (self.new ≡ self.old ++ name ∷ []) }
        ensures err { OnErr result (self.new ≡ self.old) }
    {
        self.names.push(name)?;
        Ok(())
    }
}

/// The place of the first of these names that is this one.
fn first_of(names: &[Name], name: &Name) -> Option<usize>
    ensures { result ≡ place_of name.now names.now }
{
    for place in 0..names.len() {
        if names[place].octets() == name.octets() {
            return Some(place);
        }
    }
    None
}
