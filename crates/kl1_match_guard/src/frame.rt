// Structures on the way.

ghost use Rattle.std.specs.Prelude.{◌≡◌, ◌+◌, ◌<◌};

/// Two structures of `count` arguments each, which are looked at side by side from argument `next` on.
#[derive(Clone, Copy)]
pub(crate) struct Frame<S> {
    pub left: S,
    pub right: S,
    pub next: u32,
    pub count: u32,
}

impl<S: Copy> Frame<S> {
    /// The structures, one argument further.
    pub(crate) fn onward(&self) -> Self
        requires { self.now.next < self.now.count }
        ensures { result ≡ record self.now { next = self.now.next + 1 } }
    {
        let frame = *self;
        Frame {
            left: frame.left,
            right: frame.right,
            next: frame.next + 1,
            count: frame.count,
        }
    }
}
