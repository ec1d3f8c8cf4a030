//! A record or a block is taken from a supply of octets.

ghost use Rattle.std.specs.Prelude.{◌≡◌, ◌≤◌, ◌+◌, ◌++◌, ℕ, List, Err, OnOk, take};
ghost use Rattle.lan_base.specs.Faults.{Rose};
ghost use Rattle.lan_base.specs.declared.source.ReadEnd.TheVariants as readings;
ghost use Rattle.text_lines.specs.declared.reading.End.TheVariants as ends;
ghost use Rattle.octet_supply.specs.Supplying.{Stands};
ghost use Rattle.capture_packets.specs.inside.Taking.{Looks, TakesBlock};

use crate::block::Block;
use crate::fault::FileEnd;
use lan_base::{ReadEnd, Source};
use octet_supply::Supply;
use text_lines::End;

/// Takes a record or a block with so many octets that close it: those that are kept and those that
/// close it, or those of them that are left at the end of the source, in place of what the vector has.
pub fn take_block<S: Source>(
    supply: &mut Supply,
    block: &Block,
    closing: usize,
    source: &mut S,
    into: &mut Vec<u8>,
) -> Result<(), ReadEnd>
    ensures takes { (limit : ℕ) (text given behind : List ℕ)
        → Stands limit text given supply.old (S.left source.old)
        → take limit text ≡ given ++ behind
        → TakesBlock limit text given behind closing block.now into.new.items supply.new
        (S.left source.new) result }
    ensures failed { result ≡ Err readings.Failed
        → Rose (S.faults source.old) (S.faults source.new) }
    ensures counts { S.faults source.old ≤ S.faults source.new }
{
    into.clear();
    supply.pass(block.before as usize, source)?;
    supply.take(block.kept as usize, source, into)?;
    supply.pass(block.behind as usize, source)?;
    supply.take(closing, source, into)
}

/// Looks at so many octets, and answers whether the limit cuts those that are held.
pub fn look<S: Source>(supply: &mut Supply, count: usize, source: &mut S) -> Result<bool, FileEnd>
    requires { count ≤ 4096 }
    ensures looks { (limit : ℕ) (text given : List ℕ)
        → Stands limit text given supply.old (S.left source.old)
        → Looks limit text given count supply.new (S.left source.new) result }
    ensures given { OnOk result (supply.new.given ≡ supply.old.given) }
    ensures failed { result ≡ Err ends.ReadFault
        → Rose (S.faults source.old) (S.faults source.new) }
    ensures counts { S.faults source.old ≤ S.faults source.new }
{
    match supply.peek(count, source) {
        Ok(()) => Ok(false),
        Err(ReadEnd::Limit) => Ok(true),
        Err(ReadEnd::Failed) => Err(End::ReadFault),
        Err(ReadEnd::Memory) => Err(End::Memory),
    }
}
