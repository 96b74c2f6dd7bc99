// The keys of a host's accounts.

ghost use Rattle.std.specs.Prelude.{Bool};

use std::marker::Brand;

/// The keys of a host's accounts, which open the sessions of its browsers.
pub trait LoginKeys {
    /// Whether the book of the host's sessions may begin. Only who picks the keys knows it, so there is one book for them.
    ghost begins: { Bool };
}

impl LoginKeys for Brand {
    ghost use Rattle.std.specs.Prelude.{false};

    ghost begins = { false };
}
