//! The picture as a whole.

use crate::axis::put_axis;
use crate::bars::{ROW, middle, put_bars};
use crate::lane::Lane;
use crate::lanes::Lanes;
use crate::legend::{height, put_legend};
use crate::marks::{put_known, put_reported, put_reused};
use crate::scale::Scale;
use crate::style::{DARK, LIGHT, SIZE};
use audit_facts::AuditView;
use lan_base::{AssociationNumber, Sci};
use sheets::{Look, Piece, put, put_head};
use std::alloc::{AllocError, Global};

/// Where the first lane begins, in units.
const TOP: u64 = 80;
/// How far below a lane's top its rows begin: there its name stands.
const NAME: u64 = 14;
/// How high a lane is: its name, four rows, one of reused packets, and room below them.
const LANE: u64 = NAME + 5 * ROW + 10;

/// The picture of what is seen of a capture: a text in SVG that stands alone, 1,200 units wide.
pub fn picture(alloc: Global, view: &AuditView) -> Result<Vec<u8>, AllocError> {
    let lanes = Lanes::of(alloc, view)?;
    let scale = Scale::new(view.tally.all);
    let mut text = Vec::new(alloc);
    let foot = TOP.saturating_add((lanes.lanes.len() as u64).saturating_mul(LANE));
    let legend = foot.saturating_add(12);
    put_front(&mut text, legend.saturating_add(height(&lanes.origins)))?;
    put_judged(&mut text, view)?;
    put_axis(&mut text, scale, TOP - 6, foot.saturating_sub(6))?;
    put_lanes(&mut text, view, &lanes, scale)?;
    put_legend(&mut text, &lanes.origins, legend)?;
    put(&mut text, &[Piece::Text(b"</svg>\n")])?;
    Ok(text)
}

/// Appends the head of a picture that is so high, and what its shapes mean.
fn put_front(into: &mut Vec<u8>, height: u64) -> Result<(), AllocError> {
    let look = Look {
        name: SIZE,
        light: LIGHT,
        dark: DARK,
    };
    put_head(into, height, b"Who used which key", &look)?;
    put(
        into,
        &[
            Piece::Text(b"<text x=\"8\" y=\"16\">A bar: the sender used a key, "),
            Piece::Text(b"from the first fresh frame to the last. A triangle: the key was given, "),
            Piece::Text(b"at the left edge where it was set by hand.</text>\n"),
            Piece::Text(
                b"<text x=\"8\" y=\"31\">A diamond: a member with this SCI first reported the ",
            ),
            Piece::Text(b"key. A red cross: a packet number was used again.</text>\n"),
        ],
    )
}

/// Appends what is judged, and how many packets there are.
fn put_judged(into: &mut Vec<u8>, view: &AuditView) -> Result<(), AllocError> {
    let (sec, mka) = (&view.tally.sec, &view.tally.mka);
    put_verdict(into, 8, b"once", view.verdict.once(), sec.right, sec.all)?;
    put_verdict(
        into,
        208,
        b"onekey",
        view.verdict.one_key(),
        mka.giving,
        mka.distributing,
    )?;
    put(
        into,
        &[
            Piece::Text(b"<text x=\"408\" y=\"50\">packets "),
            Piece::Number(u64::from(view.tally.all)),
            Piece::Text(b"</text>\n"),
        ],
    )
}

/// Appends a verdict: the pair that breaks, or of how many packets how many were judged.
fn put_verdict(
    into: &mut Vec<u8>,
    x: u64,
    name: &[u8],
    pair: Option<(u32, u32)>,
    judged: u32,
    all: u32,
) -> Result<(), AllocError> {
    let (class, word, one, between, other): (&[u8], &[u8], u32, &[u8], u32) = match pair {
        Some((first, second)) => (b" class=\"broken\"", b" broken ", first, b" ", second),
        None => (b"", b" ok ", judged, b" of ", all),
    };
    put(
        into,
        &[
            Piece::Text(b"<text"),
            Piece::Text(class),
            Piece::Text(b" x=\""),
            Piece::Number(x),
            Piece::Text(b"\" y=\"50\">"),
            Piece::Text(name),
            Piece::Text(word),
            Piece::Number(u64::from(one)),
            Piece::Text(between),
            Piece::Number(u64::from(other)),
            Piece::Text(b"</text>\n"),
        ],
    )
}

/// Appends the lane of each sender.
fn put_lanes(
    into: &mut Vec<u8>,
    view: &AuditView,
    lanes: &Lanes,
    scale: Scale,
) -> Result<(), AllocError> {
    let mut top = TOP;
    for (sci, lane) in &lanes.lanes {
        put_name(into, *sci, lane, top)?;
        let rows = top.saturating_add(NAME);
        put_rows(into, rows)?;
        put_bars(into, &lane.bars, scale, rows)?;
        put_known(into, &lane.known, scale, rows)?;
        put_reported(into, &lane.reported, scale, rows)?;
        if let Some(reused) = view.facts.reused(*sci) {
            put_reused(into, reused, scale, strip(rows))?;
        }
        top = top.saturating_add(LANE);
    }
    Ok(())
}

/// The middle of the row of reused packets, where the rows' top is so far down.
fn strip(top: u64) -> u64 {
    top.saturating_add(4 * ROW + ROW / 2)
}

/// Appends the name of a lane, and who its members are.
fn put_name(into: &mut Vec<u8>, sci: Sci, lane: &Lane, top: u64) -> Result<(), AllocError> {
    put(
        into,
        &[
            Piece::Text(b"<g><title>"),
            Piece::Hex(&sci.0),
            Piece::Text(b", members "),
            Piece::Number(u64::from(lane.count)),
        ],
    )?;
    for member in &lane.members {
        put(
            into,
            &[
                Piece::Text(b", "),
                Piece::Number(u64::from(member.0)),
                Piece::Text(b" "),
                Piece::Hex(&member.1.0),
            ],
        )?;
    }
    put_name_text(into, sci, lane.count, top.saturating_add(11))
}

/// Appends what is read of the name of a lane, at this height.
fn put_name_text(into: &mut Vec<u8>, sci: Sci, members: u32, y: u64) -> Result<(), AllocError> {
    put(
        into,
        &[
            Piece::Text(b"</title><text class=\"name\" x=\"4\" y=\""),
            Piece::Number(y),
            Piece::Text(b"\">"),
            Piece::Hex(&sci.0),
            Piece::Text(b"</text><text class=\"small\" x=\"150\" y=\""),
            Piece::Number(y),
            Piece::Text(b"\">members "),
            Piece::Number(u64::from(members)),
            Piece::Text(b"</text></g>\n"),
        ],
    )
}

/// Appends the lines of a lane's rows, and what they are.
fn put_rows(into: &mut Vec<u8>, top: u64) -> Result<(), AllocError> {
    for number in AssociationNumber::ALL {
        put_row(into, b"an ", middle(top, number))?;
        put(
            into,
            &[
                Piece::Number(u64::from(number.number())),
                Piece::Text(b"</text>\n"),
            ],
        )?;
    }
    put_row(into, b"reused", strip(top))?;
    put(into, &[Piece::Text(b"</text>\n")])
}

/// Appends the line of a row at this height, and the front of what it is.
fn put_row(into: &mut Vec<u8>, name: &[u8], y: u64) -> Result<(), AllocError> {
    put(
        into,
        &[
            Piece::Text(b"<path class=\"row\" d=\"M142 "),
            Piece::Number(y),
            Piece::Text(b"H1178\"/><text class=\"small\" text-anchor=\"end\" x=\"138\" y=\""),
            Piece::Number(y.saturating_add(3)),
            Piece::Text(b"\">"),
            Piece::Text(name),
        ],
    )
}
