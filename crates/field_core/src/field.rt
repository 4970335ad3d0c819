ghost use Rattle.std.specs.Prelude.{◌≡◌, ◌<◌, ◌≤◌, ◌↔◌, ℕ, IsNone, IfSome, IsTrue};
ghost use Rattle.linear_algebra.specs.Scalars.{Scalars, IsField};

/// A finite field. A value is known by its number, which is below `ORDER`: contracts speak of numbers,
/// and of the sums and products that `scalars` defines on them.
pub trait Field: Copy + Eq {
    /// How many values the field has.
    const ORDER: u16;

    ghost ORDER: { ℕ };

    ghost scalars: { Scalars };

    ghost number: { Self → ℕ };

    /// The value that is neutral for sums.
    fn zero() -> Self
        ensures { number result ≡ scalars.zero };

    /// The value that is neutral for products.
    fn one() -> Self
        ensures { number result ≡ scalars.one };

    /// The sum of the two values.
    fn add(self, other: Self) -> Self
        ensures { number result ≡ scalars.sum (number self) (number other) };

    /// The difference: what the sum with `other` makes this value.
    fn sub(self, other: Self) -> Self
        ensures { scalars.sum (number result) (number other) ≡ number self };

    /// The negative: what the sum with this value makes zero.
    fn neg(self) -> Self
        ensures { scalars.sum (number self) (number result) ≡ scalars.zero };

    /// The product of the two values.
    fn mul(self, other: Self) -> Self
        ensures { number result ≡ scalars.product (number self) (number other) };

    /// The inverse: what the product with this value makes one. `None` exactly at zero.
    fn inverse(self) -> Option<Self>
        ensures none { IsNone result ↔ (number self ≡ scalars.zero) }
        ensures some { IfSome result (λ inverse. scalars.product (number self) (number inverse) ≡ scalars.one) };

    /// The value with this number. `None` exactly where the number isn't below `ORDER`.
    fn from_number(n: u16) -> Option<Self>
        ensures none { IsNone result ↔ (ORDER ≤ n) }
        ensures some { IfSome result (λ value. number value ≡ n) };

    /// The number of this value, which `from_number` turns back.
    fn number(self) -> u16
        ensures { result ≡ number self };

    ghost lawful: { IsField scalars };

    ghost order_is: { scalars.order ≡ ORDER };

    ghost is_scalar: { (x : Self) → number x < scalars.order };

    ghost same: { (x y : Self) → number x ≡ number y → x ≡ y };

    ghost equals: { (x y : Self) → IsTrue (Self.eq x y) ↔ (number x ≡ number y) };
}
