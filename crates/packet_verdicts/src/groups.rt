//! The groups of a LAN, by what is derived of their keys.

ghost use Rattle.std.specs.Prelude.{◌≡◌, ◌↔◌, ◌+◌, ◌-◌, ◌^◌, ◌<◌, ◌≤◌, ◌++◌, ◌∷◌, [], Err, IfSome, OnErr, OnOk, Some, length, slice_get};
ghost use Rattle.std.specs.List.{list_any, position};
ghost use Rattle.aes_block.specs.Aes.{IsKey};
ghost use Rattle.aes_block.specs.Secrets.{secret_octets};
ghost use Rattle.mka_kdf.specs.declared.group.GroupError.TheVariants as errors;
ghost use Rattle.mka_kdf.specs.declared.group.GroupFault.TheVariants.{CknLength};
ghost use Rattle.mka_kdf.specs.Kdf.{HasWrongLength, kek_of};
ghost use Rattle.packet_verdicts.specs.Groups.{GroupKeys, derived_keys, gives_check, has_name, keys_of};

use aes_block::{Key, Secret};
use aes_cmac::cmac;
use lan_base::Octets;
use mka_kdf::{Group, GroupError};
use mkpdu_codec::Spelled;
use std::alloc::Global;
use std::marker::Model;

/// The groups whose keys are known, in the order in which they were added: they are numbered from 1.
/// Two may have one name. Contracts see them as the list of their names, key encrypting keys and
/// integrity check keys.
#[derive(Debug, Drop)]
pub struct Groups {
    groups: Vec<Group>,
}

impl Model for Groups {
    ghost use Rattle.std.specs.Prelude.{List, map};
    ghost use Rattle.packet_verdicts.specs.Groups.{GroupKeys, keys_of};

    ghost Value = { List GroupKeys };

    ghost view = { λ g. map keys_of g.groups.items };
}

impl Groups {
    /// No group yet.
    pub fn new(alloc: Global) -> Groups
        ensures { result ≡ [] }
    {
        Groups {
            groups: Vec::new(alloc),
        }
    }

    /// Adds the group of a CAK under its name (CKN). An `Err` leaves the groups as they were.
    pub fn add(&mut self, alloc: Global, cak: Secret, ckn: &[u8]) -> Result<(), GroupError>
        ensures ok { OnOk result (self.new
            ≡ self.old ++ derived_keys (secret_octets cak) ckn.now ∷ []) }
        ensures key { OnOk result (IsKey (kek_of (secret_octets cak) ckn.now)) }
        ensures err { OnErr result (self.new ≡ self.old) }
        ensures length { (result ≡ Err (errors.Refused CknLength)) ↔ HasWrongLength ckn.now }
    {
        let group = Group::of(alloc, cak, ckn)?;
        group.kek.law_is_key();
        let Ok(()) = self.groups.push(group) else {
            return Err(GroupError::Memory);
        };
        Ok(())
    }

    /// How many groups there are.
    pub fn len(&self) -> usize
        ensures { result ≡ length self.now }
    {
        self.groups.len()
    }

    /// Where the first group stands, counted from 0, that has the name in an announcement and whose
    /// integrity check key gives its check value over these octets.
    pub(crate) fn first_right(&self, covered: &[u8], spelled: &Spelled) -> Option<usize>
        ensures value { result ≡ position (gives_check covered.now spelled.now) self.now }
        ensures few { IfSome result (λ before. before + 1 < 2 ^ 64) }
    {
        first_right(&self.groups, covered, spelled)
    }

    /// The key encrypting key of the group with this number, from 1.
    pub(crate) fn kek(&self, group: usize) -> &Key
        requires first { 1 ≤ group }
        requires last { group ≤ length self.now }
        ensures { (keys : GroupKeys) → slice_get self.now (group - 1) ≡ Some keys
            → result.now ≡ keys.kek }
    {
        &self.groups[group - 1].kek
    }

    /// Whether a group has this name.
    pub(crate) fn has_name(&self, ckn: &Octets) -> bool
        ensures { result ≡ list_any (has_name ckn.now) self.now }
    {
        has_name(&self.groups, ckn)
    }
}

/// Where the first of these groups stands that has the name in an announcement and whose integrity
/// check key gives its check value.
fn first_right(groups: &[Group], covered: &[u8], spelled: &Spelled) -> Option<usize>
    ensures value { result
        ≡ position (λ group. gives_check covered.now spelled.now (keys_of group)) groups.now }
    ensures few { IfSome result (λ before. before + 1 < 2 ^ 64) }
{
    groups
        .iter()
        .position(|group| gives_check(covered, spelled, group))
}

/// Whether one of these groups has this name.
fn has_name(groups: &[Group], ckn: &Octets) -> bool
    ensures { result ≡ list_any (λ group. has_name ckn.now (keys_of group)) groups.now }
{
    groups.iter().any(|group| group.ckn == *ckn)
}

/// Whether a group has the name in an announcement, and its integrity check key gives the check
/// value over these octets.
fn gives_check(covered: &[u8], spelled: &Spelled, group: &Group) -> bool
    ensures { result ≡ gives_check covered.now spelled.now (keys_of group.now) }
{
    group.ckn == spelled.announcement.ckn && cmac(&group.ick, covered) == spelled.check
}
