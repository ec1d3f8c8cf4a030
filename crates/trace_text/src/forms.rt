//! The forms of a line: what the words behind a keyword say. Whether they say a line is decided
//! before memory is taken.

ghost use Rattle.std.specs.Prelude.{◌≡◌, [], ◌∷◌, codes};
ghost use Rattle.trace_text.specs.Words.{words_of};
ghost use Rattle.trace_text.specs.Reading.{line_of, line_by, draws_of};
ghost use Rattle.trace_text.specs.Answering.{Answers};

use crate::blocks::{expect_blocks, read_blocks};
use crate::fault::{LineError, TextFault};
use crate::keyword::Keyword;
use crate::kinds::{
    decoded, expect_key, expect_octets, read_array, read_name, read_number, read_octets, read_suite,
};
use crate::limits::{
    MAX_BURST_FRAMES, MAX_INJECTED, MAX_LAG, MAX_PRIORITY, MAX_WORKERS, MIN_REKEY,
};
use crate::line::Line;
use crate::words::{next_word, no_word, one_word, three_words, two_words};
use lan_base::{CKN_MAX, FRAMES_MAX, Mac, Sci, TICKS_MAX, USER_DATA_MAX, USER_DATA_MIN};
use std::alloc::Global;

/// The line that a first word and the words behind it say.
pub fn read_form(alloc: Global, first: &[u8], rest: &[u8]) -> Result<Line, LineError>
    ensures { Answers result (line_of first.now (words_of rest.now)) }
{
    match Keyword::of(first) {
        Some(keyword) => read_behind(alloc, keyword, rest),
        None => Err(LineError::Refused(TextFault::Word)),
    }
}

/// The line that the words behind a keyword say.
fn read_behind(alloc: Global, keyword: Keyword, rest: &[u8]) -> Result<Line, LineError>
    ensures { Answers result (line_by keyword (words_of rest.now)) }
{
    match keyword {
        Keyword::Draws => draws(alloc, rest),
        Keyword::Conf => answered(conf(rest)),
        Keyword::Window => answered(window(rest)),
        Keyword::Rekey => answered(rekey(rest)),
        Keyword::Lag => answered(lag(rest)),
        Keyword::Suite => answered(suite(rest)),
        Keyword::Flag => answered(flag(rest)),
        Keyword::Group => group(alloc, rest),
        Keyword::Station => answered(station(rest)),
        Keyword::Tick => answered(tick(rest)),
        Keyword::Flow => answered(flow(rest)),
        Keyword::Deliver => answered(deliver(rest)),
        Keyword::Spread => answered(spread(rest)),
        Keyword::Lose => answered(lose(rest)),
        Keyword::Cut => answered(cut(rest)),
        Keyword::Mend => answered(mend(rest)),
        Keyword::Restart => answered(restart(rest)),
        Keyword::Send => send(alloc, rest),
        Keyword::Race => answered(race(rest)),
        Keyword::Burst => burst(alloc, rest),
        Keyword::While => answered(race_control(rest)),
        Keyword::End => answered(race_end(rest)),
        Keyword::Inject => inject(alloc, rest),
        Keyword::Feed => answered(feed(rest)),
    }
}

/// What a form that takes no memory says.
fn answered(said: Result<Line, TextFault>) -> Result<Line, LineError>
    ensures { Answers result said }
{
    match said {
        Ok(line) => Ok(line),
        Err(fault) => Err(LineError::Refused(fault)),
    }
}

/// `draws KIND ..`.
fn draws(alloc: Global, rest: &[u8]) -> Result<Line, LineError>
    ensures { Answers result (line_by Keyword.Draws (words_of rest.now)) }
{
    let (kind, rest) = next_word(rest).ok_or(TextFault::Count)?;
    if kind == b"count".as_slice() {
        return answered(draws_count(rest));
    }
    if kind == b"chacha".as_slice() {
        return answered(draws_chacha(rest));
    }
    if kind == b"list".as_slice() {
        return draws_list(alloc, rest);
    }
    Err(LineError::Refused(TextFault::Word))
}

/// `draws count`.
fn draws_count(rest: &[u8]) -> Result<Line, TextFault>
    ensures { result ≡ draws_of (codes "count" ∷ words_of rest.now) }
{
    no_word(rest)?;
    Ok(Line::DrawsCount)
}

/// `draws chacha KEY`.
fn draws_chacha(rest: &[u8]) -> Result<Line, TextFault>
    ensures { result ≡ draws_of (codes "chacha" ∷ words_of rest.now) }
{
    let key = one_word(rest)?;
    Ok(Line::DrawsChaCha {
        key: read_array(key)?,
    })
}

/// `draws list D ..`.
fn draws_list(alloc: Global, rest: &[u8]) -> Result<Line, LineError>
    ensures { Answers result (draws_of (codes "list" ∷ words_of rest.now)) }
{
    if next_word(rest).is_none() {
        return Err(LineError::Refused(TextFault::Count));
    }
    expect_blocks(rest)?;
    let values = read_blocks(alloc, rest)?;
    Ok(Line::DrawsList { values })
}

/// `conf C`.
fn conf(rest: &[u8]) -> Result<Line, TextFault>
    ensures { result ≡ line_by Keyword.Conf (words_of rest.now) }
{
    let conf = read_number(one_word(rest)?, 0, 1)?;
    Ok(Line::Conf { conf })
}

/// `window W`.
fn window(rest: &[u8]) -> Result<Line, TextFault>
    ensures { result ≡ line_by Keyword.Window (words_of rest.now) }
{
    let window = read_number(one_word(rest)?, 0, u32::MAX)?;
    Ok(Line::Window { window })
}

/// `rekey R`.
fn rekey(rest: &[u8]) -> Result<Line, TextFault>
    ensures { result ≡ line_by Keyword.Rekey (words_of rest.now) }
{
    let rekey = read_number(one_word(rest)?, MIN_REKEY, u32::MAX)?;
    Ok(Line::Rekey { rekey })
}

/// `lag L`.
fn lag(rest: &[u8]) -> Result<Line, TextFault>
    ensures { result ≡ line_by Keyword.Lag (words_of rest.now) }
{
    let lag = read_number(one_word(rest)?, 0, MAX_LAG)?;
    Ok(Line::Lag { lag })
}

/// `suite S`.
fn suite(rest: &[u8]) -> Result<Line, TextFault>
    ensures { result ≡ line_by Keyword.Suite (words_of rest.now) }
{
    let suite = read_suite(one_word(rest)?)?;
    Ok(Line::Suite { suite })
}

/// `flag F`.
fn flag(rest: &[u8]) -> Result<Line, TextFault>
    ensures { result ≡ line_by Keyword.Flag (words_of rest.now) }
{
    let flag = read_number(one_word(rest)?, 0, 1)?;
    Ok(Line::Flag { early: flag == 1 })
}

/// `group CAK CKN`.
fn group(alloc: Global, rest: &[u8]) -> Result<Line, LineError>
    ensures { Answers result (line_by Keyword.Group (words_of rest.now)) }
{
    let (cak, ckn) = two_words(rest)?;
    expect_key(cak)?;
    expect_octets(ckn, 1, CKN_MAX)?;
    let cak = decoded(alloc, cak)?;
    let ckn = decoded(alloc, ckn)?;
    Ok(Line::Group { cak, ckn })
}

/// `station NAME SCI P`.
fn station(rest: &[u8]) -> Result<Line, TextFault>
    ensures { result ≡ line_by Keyword.Station (words_of rest.now) }
{
    let (name, sci, priority) = three_words(rest)?;
    let name = read_name(name)?;
    let sci = Sci(read_array(sci)?);
    let priority = read_number(priority, 0, MAX_PRIORITY)?;
    Ok(Line::Station {
        name,
        sci,
        priority,
    })
}

/// `tick N`, or `tick NAME N`.
fn tick(rest: &[u8]) -> Result<Line, TextFault>
    ensures { result ≡ line_by Keyword.Tick (words_of rest.now) }
{
    let (first, rest) = next_word(rest).ok_or(TextFault::Count)?;
    match next_word(rest) {
        None => rounds(first),
        Some((second, rest)) => ticks(first, second, rest),
    }
}

/// `tick NAME N`.
fn ticks(name: &[u8], ticks: &[u8], rest: &[u8]) -> Result<Line, TextFault>
    ensures { result ≡ line_by Keyword.Tick (name.now ∷ ticks.now ∷ words_of rest.now) }
{
    no_word(rest)?;
    let name = read_name(name)?;
    let ticks = read_number(ticks, 1, TICKS_MAX)?;
    Ok(Line::TickOne { name, ticks })
}

/// `tick N`.
fn rounds(word: &[u8]) -> Result<Line, TextFault>
    ensures { result ≡ line_by Keyword.Tick (word.now ∷ []) }
{
    let rounds = read_number(word, 1, TICKS_MAX)?;
    Ok(Line::Tick { rounds })
}

/// `flow N`.
fn flow(rest: &[u8]) -> Result<Line, TextFault>
    ensures { result ≡ line_by Keyword.Flow (words_of rest.now) }
{
    let rounds = read_number(one_word(rest)?, 1, TICKS_MAX)?;
    Ok(Line::Flow { rounds })
}

/// `deliver K NAME`.
fn deliver(rest: &[u8]) -> Result<Line, TextFault>
    ensures { result ≡ line_by Keyword.Deliver (words_of rest.now) }
{
    let (frame, name) = two_words(rest)?;
    let frame = read_number(frame, 1, FRAMES_MAX)?;
    let name = read_name(name)?;
    Ok(Line::Deliver { frame, name })
}

/// `spread K`.
fn spread(rest: &[u8]) -> Result<Line, TextFault>
    ensures { result ≡ line_by Keyword.Spread (words_of rest.now) }
{
    let frame = read_number(one_word(rest)?, 1, FRAMES_MAX)?;
    Ok(Line::Spread { frame })
}

/// `lose K`.
fn lose(rest: &[u8]) -> Result<Line, TextFault>
    ensures { result ≡ line_by Keyword.Lose (words_of rest.now) }
{
    let frame = read_number(one_word(rest)?, 1, FRAMES_MAX)?;
    Ok(Line::Lose { frame })
}

/// `cut FROM TO`.
fn cut(rest: &[u8]) -> Result<Line, TextFault>
    ensures { result ≡ line_by Keyword.Cut (words_of rest.now) }
{
    let (from, to) = two_words(rest)?;
    let from = read_name(from)?;
    let to = read_name(to)?;
    Ok(Line::Cut { from, to })
}

/// `mend FROM TO`.
fn mend(rest: &[u8]) -> Result<Line, TextFault>
    ensures { result ≡ line_by Keyword.Mend (words_of rest.now) }
{
    let (from, to) = two_words(rest)?;
    let from = read_name(from)?;
    let to = read_name(to)?;
    Ok(Line::Mend { from, to })
}

/// `restart NAME`.
fn restart(rest: &[u8]) -> Result<Line, TextFault>
    ensures { result ≡ line_by Keyword.Restart (words_of rest.now) }
{
    let name = read_name(one_word(rest)?)?;
    Ok(Line::Restart { name })
}

/// `send NAME DST BODY`.
fn send(alloc: Global, rest: &[u8]) -> Result<Line, LineError>
    ensures { Answers result (line_by Keyword.Send (words_of rest.now)) }
{
    let (name, destination, body) = three_words(rest)?;
    let name = read_name(name)?;
    let destination = Mac(read_array(destination)?);
    let body = read_octets(alloc, body, USER_DATA_MIN, USER_DATA_MAX)?;
    Ok(Line::Send {
        name,
        destination,
        body,
    })
}

/// `race`.
fn race(rest: &[u8]) -> Result<Line, TextFault>
    ensures { result ≡ line_by Keyword.Race (words_of rest.now) }
{
    no_word(rest)?;
    Ok(Line::Race)
}

/// `burst NAME W N DST BODY`.
fn burst(alloc: Global, rest: &[u8]) -> Result<Line, LineError>
    ensures { Answers result (line_by Keyword.Burst (words_of rest.now)) }
{
    let (name, rest) = next_word(rest).ok_or(TextFault::Count)?;
    let (workers, rest) = next_word(rest).ok_or(TextFault::Count)?;
    let (frames, destination, body) = three_words(rest)?;
    burst_of(alloc, name, workers, frames, destination, body)
}

/// `burst NAME W N DST BODY`, of these words.
fn burst_of(
    alloc: Global,
    name: &[u8],
    workers: &[u8],
    frames: &[u8],
    destination: &[u8],
    body: &[u8],
) -> Result<Line, LineError>
    ensures { Answers result (line_by Keyword.Burst
        (name.now ∷ workers.now ∷ frames.now ∷ destination.now ∷ body.now ∷ [])) }
{
    let name = read_name(name)?;
    let workers = read_number(workers, 1, MAX_WORKERS)?;
    let frames = read_number(frames, 1, MAX_BURST_FRAMES)?;
    let destination = Mac(read_array(destination)?);
    let body = read_octets(alloc, body, USER_DATA_MIN, USER_DATA_MAX)?;
    Ok(Line::Burst {
        name,
        workers,
        frames,
        destination,
        body,
    })
}

/// `while`.
fn race_control(rest: &[u8]) -> Result<Line, TextFault>
    ensures { result ≡ line_by Keyword.While (words_of rest.now) }
{
    no_word(rest)?;
    Ok(Line::While)
}

/// `end`.
fn race_end(rest: &[u8]) -> Result<Line, TextFault>
    ensures { result ≡ line_by Keyword.End (words_of rest.now) }
{
    no_word(rest)?;
    Ok(Line::End)
}

/// `inject NAME OCTETS`.
fn inject(alloc: Global, rest: &[u8]) -> Result<Line, LineError>
    ensures { Answers result (line_by Keyword.Inject (words_of rest.now)) }
{
    let (name, octets) = two_words(rest)?;
    let name = read_name(name)?;
    let octets = read_octets(alloc, octets, 1, MAX_INJECTED)?;
    Ok(Line::Inject { name, octets })
}

/// `feed K1 K2 NAME`.
fn feed(rest: &[u8]) -> Result<Line, TextFault>
    ensures { result ≡ line_by Keyword.Feed (words_of rest.now) }
{
    let (first, last, name) = three_words(rest)?;
    let first = read_number(first, 1, FRAMES_MAX)?;
    let last = read_number(last, first, FRAMES_MAX)?;
    let name = read_name(name)?;
    Ok(Line::Feed { first, last, name })
}
