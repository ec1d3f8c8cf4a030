//! The axis: the numbers of packets.

use crate::scale::Scale;
use sheets::{LINES, Piece, put, put_line, step_of};
use std::alloc::AllocError;

/// How many packets lie between two lines of many.
const FAR: [u64; 6] = [
    200_000, 500_000, 1_000_000, 2_000_000, 5_000_000, 10_000_000,
];

/// Appends the lines of the axis from one height to another, each with its packet above: the first
/// packet, and multiples of a step.
pub fn put_axis(into: &mut Vec<u8>, scale: Scale, top: u64, bottom: u64) -> Result<(), AllocError> {
    put_caption(into, top)?;
    let step = step_of(scale.packets(), &FAR);
    let mut packet = step;
    if step > 1 {
        put_line(into, scale.x(1), top, bottom, 1, b"")?;
    }
    for _ in 0..LINES + 1 {
        if packet > scale.packets() {
            break;
        }
        put_line(into, scale.x(packet), top, bottom, packet, b"")?;
        packet = packet.saturating_add(step);
    }
    Ok(())
}

/// Appends what the numbers above the lines are.
fn put_caption(into: &mut Vec<u8>, top: u64) -> Result<(), AllocError> {
    put(
        into,
        &[
            Piece::Text(b"<text class=\"small\" text-anchor=\"end\" x=\"136\" y=\""),
            Piece::Number(top.saturating_sub(4)),
            Piece::Text(b"\">packet</text>\n"),
        ],
    )
}
