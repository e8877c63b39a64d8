// Values put into a slice and taken out of it, the others keeping their order.
ghost use Rattle.std.specs.Prelude.{◌≡◌, ◌-◌, ◌<◌, length, take};
ghost use Rattle.std.specs.List.{insert, remove};

// Puts `x` at `i` among all values but the last, whose row the others may take.
pub(crate) fn put_in<T: Copy>(rows: &mut [T], i: usize, x: T)
    requires { i < length rows.old }
    ensures { rows.new ≡ insert (take (length rows.old - 1) rows.old) i x }
{
    rows[i..].rotate_right(1);
    rows[i] = x;
}

// Takes the value at `i` out; the last row is none of the others.
pub(crate) fn take_out<T: Copy>(rows: &mut [T], i: usize)
    requires { i < length rows.old }
    ensures { take (length rows.old - 1) rows.new ≡ remove rows.old i }
{
    rows[i..].rotate_left(1);
}
