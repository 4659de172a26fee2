//! Moving what is kept to the front.
ghost use Rattle.std.specs.Prelude.{◌≡◌, ◌-◌, ◌≤◌, ◌++◌, length, take, drop};

/// The items at `from..len` go to the front; the places behind them stay as they were.
pub fn move_down<T: Copy>(items: &mut [T], from: usize, len: usize)
    requires { (from ≤ len) × (len ≤ length items.old) }
    ensures { items.new ≡ take (len - from) (drop from items.old) ++ drop (len - from) items.old }
{
    items.copy_within(from..len, 0);
}
