// A list over lent places.
mod changing;
mod reading;

ghost use Rattle.std.specs.Prelude.{◌≤◌, length};

// The items in use stand in the first `count` places.
#[derive(Drop)]
pub struct LentList<'a, T> {
    places: &'a mut [T],
    count: usize,
    ghost within: { count ≤ length places.now },
}
