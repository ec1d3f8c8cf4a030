//! The lines of members.

ghost use Rattle.std.specs.Prelude.{◌≡◌, ◌++◌, [], OnOk, codes};
ghost use Rattle.trace_text.specs.Words.{spaced};
ghost use Rattle.audit_report.specs.Lines.{line_of};
ghost use Rattle.audit_report.specs.Members.{kind_words, member_line, member_words, sums_line};

use crate::lines::{number, put_line};
use member_notes::{Member, MemberCounts, MemberSums};
use std::alloc::AllocError;
use trace_text::{Word, put_words};

/// Appends what is told of all members. An `Err` may leave a front of it.
pub fn put_sums(sums: &MemberSums, into: &mut Vec<u8>) -> Result<(), AllocError>
    ensures { OnOk result (into.new.items ≡ into.old.items ++ sums_line sums.now) }
{
    put_line(
        into,
        b"mka",
        &[
            Word::Text(b"members"),
            Word::Number(sums.members as u64),
            Word::Text(b"scis"),
            Word::Number(sums.scis as u64),
            Word::Text(b"fell"),
            Word::Number(sums.fell),
            Word::Text(b"servers"),
            Word::Number(sums.servers),
            Word::Text(b"returned"),
            Word::Number(sums.returned),
            Word::Text(b"high"),
            Word::Number(sums.high),
        ],
    )
}

/// Appends the line of a member. An `Err` may leave a front of it.
pub fn put_member(member: &Member, into: &mut Vec<u8>) -> Result<(), AllocError>
    ensures { OnOk result (into.new.items ≡ into.old.items ++ member_line member.now) }
{
    begin_member(member, into)?;
    end_member(&member.counts, into)
}

/// Appends the front of the line of a member.
fn begin_member(member: &Member, into: &mut Vec<u8>) -> Result<(), AllocError>
    ensures { OnOk result (into.new.items
        ≡ into.old.items ++ (codes "member" ++ spaced (member_words member.now))) }
{
    let counts = &member.counts;
    into.extend_from_slice(b"member")?;
    put_words(
        into,
        &[
            number(member.group),
            Word::Octets(&member.mi.0),
            Word::Text(b"sci"),
            Word::Octets(&counts.sci.0),
            Word::Text(b"mkpdus"),
            number(counts.mkpdus),
            Word::Text(b"again"),
            number(counts.again),
            Word::Text(b"given"),
            number(counts.given),
        ],
    )
}

/// Appends the rest of the line of a member.
fn end_member(counts: &MemberCounts, into: &mut Vec<u8>) -> Result<(), AllocError>
    ensures { OnOk result (into.new.items ≡ into.old.items ++ line_of [] (kind_words counts.now)) }
{
    put_line(
        into,
        b"",
        &[
            Word::Text(b"fell"),
            number(counts.fell.count),
            number(counts.fell.first),
            Word::Text(b"servers"),
            number(counts.servers.count),
            number(counts.servers.first),
            Word::Text(b"returned"),
            number(counts.returned.count),
            number(counts.returned.first),
            Word::Text(b"high"),
            number(counts.high.count),
            number(counts.high.first),
        ],
    )
}
