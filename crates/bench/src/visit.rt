// A visit, as a rack and a slate keep it.

/// What a rack and a slate keep of the open visit: the flat that it is to. The calls on sheets and tallies pass it on whole.
#[derive(Clone, Copy)]
pub struct Visit {
    pub(crate) flat: u16,
}
