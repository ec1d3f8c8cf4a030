//! The axis: seconds of ten ticks of the first station.

use crate::scale::Scale;
use sheets::{LINES, put_line, step_of};
use std::alloc::AllocError;

/// How many seconds lie between two lines of many.
const FAR: [u64; 2] = [1_000_000, 50_000_000];

/// Appends the lines of the axis from one height to another, each with its seconds above.
pub fn put_axis(into: &mut Vec<u8>, scale: Scale, top: u32, bottom: u32) -> Result<(), AllocError> {
    let (top, bottom) = (u64::from(top), u64::from(bottom));
    let step = step_of(scale.ticks() / 10, &FAR);
    let mut second = 0u64;
    for _ in 0..LINES + 1 {
        let tick = second.saturating_mul(10);
        if tick > scale.ticks() {
            break;
        }
        put_line(into, scale.x(tick), top, bottom, second, b" s")?;
        second = second.saturating_add(step);
    }
    Ok(())
}
