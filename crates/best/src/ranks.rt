// Orders in which only the same entry ties.
ghost use Rattle.std.specs.Prelude.{◌≡◌, false};
ghost use Rattle.best.specs.Orders.{before};

// What std's order does not say, since entries may be equal there and not the same.
pub trait Ranked: Ord {
    // Only the same entries tie.
    ghost total: { (x y : Self) → before Self.Ord.cmp x y ≡ false → before Self.Ord.cmp y x ≡ false → x ≡ y };
}
