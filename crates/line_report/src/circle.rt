//! Points on a circle, by whole numbers.

/// A whole turn, in thousandths of a degree.
pub const TURN: u64 = 360_000;

/// What sines are multiplied by.
const SCALE: u64 = 10_000;

/// The square of a right angle.
const RIGHT_SQUARED: u64 = (TURN / 4) * (TURN / 4);

/// The point at an angle, in thousandths of a degree, on the circle with this radius round the origin. Angles run
/// clockwise from the right, since downwards counts up. The point is exact within two thousandths of the radius, which
/// is cut to 2^32.
pub fn point(radius: u64, angle: u64) -> (i64, i64) {
    let radius = radius.min(1 << 32) as i64;
    let across = radius.saturating_mul(sine(angle.saturating_add(TURN / 4)));
    let down = radius.saturating_mul(sine(angle));
    (across / SCALE as i64, down / SCALE as i64)
}

/// The sine of an angle, times `SCALE`.
fn sine(angle: u64) -> i64 {
    let angle = angle % TURN;
    if angle < TURN / 2 {
        arch(angle)
    } else {
        0i64.saturating_sub(arch(angle - TURN / 2))
    }
}

/// The sine of an angle up to half a turn, times `SCALE`, by the formula of Bhāskara, which is exact within two
/// thousandths.
fn arch(angle: u64) -> i64 {
    let product = angle
        .saturating_mul((TURN / 2).saturating_sub(angle))
        .min(RIGHT_SQUARED);
    (product * 4 * SCALE / (5 * RIGHT_SQUARED - product)) as i64
}
