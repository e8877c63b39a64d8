// A kind of point on a finite scale, ordered by its places, and the facts that it has to show.
ghost use Rattle.std.specs.Prelude.{◌≡◌, ℕ, ◌+◌, ◌<◌, MatchOption, Some, ◌==◌};
ghost use Rattle.std.specs.Ordering.{nat_cmp};

// A kind of point. `place` says where a point stands, counted from 0, and `size` how many places there are.
pub trait Point: Copy + Ord {
    ghost size: { ℕ };

    ghost place: { Self → ℕ };

    // The first point.
    fn first() -> Self
        ensures { place result ≡ 0 };

    // The last point.
    fn last() -> Self
        ensures { place result + 1 ≡ size };

    // The point one place higher; none after the last, and only there.
    fn next(&self) -> Option<Self>
        ensures { MatchOption result (place self.now + 1 ≡ size) (λ p. place p ≡ place self.now + 1) };

    // The point one place lower; none before the first, and only there.
    fn previous(&self) -> Option<Self>
        ensures { MatchOption result (place self.now ≡ 0) (λ p. place p + 1 ≡ place self.now) };

    ghost inside: { (p : Self) → place p < size };

    // Two points are equal where they stand in one place.
    ghost equal_by_place: { (a b : Self) → Self.PartialEq.eq a b ≡ (place a == place b) };

    // Of two points the smaller is the one that stands before the other.
    ghost ordered_by_place: { (a b : Self) → Self.PartialOrd.partial_cmp a b ≡ Some (nat_cmp (place a) (place b)) };
}
