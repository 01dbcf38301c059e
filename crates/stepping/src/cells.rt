// The small accesses of the phases: an entry is read or written where there is one.
ghost use Rattle.std.specs.Prelude.{◌≡◌, get_or, set};

// Writes x at a place, where the list has one there.
pub(crate) fn set_at<T: Copy>(list: &mut [T], at: usize, x: T)
    ensures { list.new ≡ set list.old at x }
{
    if at < list.len() {
        list[at] = x;
    }
}

// The entry at a place, or the default where the list has none there.
pub(crate) fn get_at<T: Copy>(list: &[T], at: usize, default: T) -> T
    ensures { result ≡ get_or list.now at default }
{
    list.get(at).copied().unwrap_or(default)
}
