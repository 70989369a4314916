// The interface of a level kind: levels that can be compared, whose meaning is a height for each level.
ghost use Rattle.std.specs.Prelude.{◌≡◌, ℕ, ◌≤◌, nat_le};

/// A level kind. A level's meaning is its height, a whole number from 0 to the kind's top.
/// A kind is lawful when it keeps the laws below, which every `impl` has to prove; its methods never refuse.
pub trait Level: Copy {
    // The greatest height, 1 to 65,536.
    ghost top: { ℕ };

    // The meaning of a level.
    ghost height: { Self → ℕ };

    /// The level of height 0.
    fn lowest() -> Self
        ensures { height result ≡ 0 };

    /// The level whose height is the top.
    fn highest() -> Self
        ensures { height result ≡ top };

    /// The height of this level.
    fn height(self) -> u32
        ensures { result ≡ height self };

    /// Whether this level is not above the other: yes exactly when its height is no greater.
    fn at_most(self, other: Self) -> bool
        ensures { result ≡ nat_le (height self) (height other) };

    ghost topped: { 1 ≤ top };

    ghost bounded: { top ≤ 65536 };

    ghost within: { (x : Self) → height x ≤ top };

    ghost distinct: { (x y : Self) → height x ≡ height y → x ≡ y };
}
