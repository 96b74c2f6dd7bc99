// Pairs of structures on the way.

ghost use Rattle.std.specs.Prelude.{◌≡◌, ◌<◌};

/// Two structures of `count` arguments each, which are looked at side by side from argument `next` on.
#[derive(Clone, Copy)]
pub struct Frame {
    pub left: u32,
    pub right: u32,
    pub next: u32,
    pub count: u32,
}

impl Frame {
    ghost use Rattle.kl1_store.specs.Onward.{onward};

    /// The pair, one argument further.
    pub fn onward(&self) -> Self
        requires { self.now.next < self.now.count }
        ensures { result ≡ onward self.now }
    {
        let frame = *self;
        Frame {
            left: frame.left,
            right: frame.right,
            next: frame.next + 1,
            count: frame.count,
        }
    }
}
