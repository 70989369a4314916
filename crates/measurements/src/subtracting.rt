// How numbers fall from one to the next.
ghost use Rattle.std.specs.Prelude.{◌≡◌};
ghost use Rattle.measurements.specs.Areas.{minus_next};

/// Each number of a list becomes how far it is above the next one, or 0 where it is not; the last stays as it is.
pub fn subtract_next(list: &mut [u64])
    ensures { list.new ≡ minus_next list.old }
{
    for k in 1..list.len() {
        list[k - 1] = list[k - 1].saturating_sub(list[k]);
    }
}
