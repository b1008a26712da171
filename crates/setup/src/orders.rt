// A kind of setup, and the order that it is kept in.
ghost use Rattle.std.specs.Prelude.{◌≡◌, Bool};
ghost use Rattle.setup.specs.Orders.{Ordered};

// A kind of setup answers whether one comes before another.
pub trait Setup: Copy {
    ghost before: { Self → Self → Bool };

    fn comes_before(&self, other: &Self) -> bool
        ensures { result ≡ before self.now other.now };

    ghost ordered: { Ordered before };
}
