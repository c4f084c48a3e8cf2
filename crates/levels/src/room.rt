// Places made and taken away in an array of a side.
ghost use Rattle.std.specs.Prelude.{◌+◌, ◌≤◌, ◌<◌, length};
ghost use Rattle.levels.specs.Work.{Opened, Closed};

pub fn open<T: Copy>(items: &mut [T], at: usize, count: usize)
    requires { (at ≤ count) × (count < length items.old) }
    ensures { (d : T) → Opened d at count items.old items.new }
{
    items.copy_within(at..count, at + 1);
}

pub fn close<T: Copy>(items: &mut [T], at: usize, count: usize)
    requires { (at < count) × (count ≤ length items.old) }
    ensures { (d : T) → Closed d at count items.old items.new }
{
    items.copy_within(at + 1..count, at);
}
