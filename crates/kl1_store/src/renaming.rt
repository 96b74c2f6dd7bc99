// Names that become others.

ghost use Rattle.std.specs.Prelude.{◌≡◌};

/// What each name becomes.
pub trait Renaming<N> {
    /// What a name becomes.
    ghost becomes: { Self → N → N };

    /// What a name becomes.
    fn renamed(&self, name: N) -> N
        ensures { result ≡ becomes self.now name };
}
