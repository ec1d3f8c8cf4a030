//! How a great value comes into a place.

ghost use Rattle.std.specs.Prelude.{◌≡◌, Some};

/// A value comes into a place. What was there before is let go here, where nothing is known of its
/// type, so that no proof walks through all that it holds.
pub fn put<T: Drop>(place: &mut Option<T>, value: T)
    ensures { place.new ≡ Some value }
{
    *place = Some(value);
}
