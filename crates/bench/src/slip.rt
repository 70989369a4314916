// The slip that begin hands out and that end takes back.
ghost use Rattle.std.specs.Prelude.{◌≡◌};

use limits::Fault;

/// A slip bears the flat number of the visit that it was handed out for. No code can make or copy one, and it may be
/// let go only when end has spent it, which leaves 0 on it, no flat's number.
// Its 0 is no `Option`: a slip is plain numbers, and they tell whether it may be let go.
pub struct Slip {
    pub(crate) flat: u16,
}

impl Drop for Slip {
    fn drop(self)
        requires { self.flat ≡ 0 }
    {
        let Slip { flat: _ } = self;
    }
}

/// A refused end: why, and the slip, which has still to be given back.
pub struct EndRefused {
    /// The slip as it was.
    pub slip: Slip,
    /// Why end refused.
    pub fault: Fault,
}
