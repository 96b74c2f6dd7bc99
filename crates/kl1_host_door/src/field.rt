// The fields of a request's head.

ghost use Rattle.std.specs.Prelude.{◌≡◌, option_map};
ghost use Rattle.kl1_host_door.specs.Fields.{is_named, value_of, is_single};

/// A field of a request's head: its name, and its value without the blanks around it.
#[derive(Drop)]
pub struct Field {
    pub name: Vec<u8>,
    pub value: Vec<u8>,
}

impl Field {
    /// Whether the field has this name; small and capital letters are the same.
    #[tactic(auto, using(crate::proofs::Names::named_by))]
    pub fn is_named(&self, name: &[u8]) -> bool
        ensures { result ≡ is_named name.now self.now }
    {
        self.name.as_slice().eq_ignore_ascii_case(name)
    }
}

/// The value of the first field of this name; `None` if there is none.
pub fn value_of<'a>(fields: &'a [Field], name: &[u8]) -> Option<&'a [u8]>
    ensures { option_map (λ value. value.now) result ≡ value_of name.now fields.now }
{
    let mut rest = fields;
    while let [first, others @ ..] = rest {
        if first.is_named(name) {
            return Some(first.value.as_slice());
        }
        rest = others;
    }
    None
}

/// Whether at most one field has this name.
pub(crate) fn is_single(fields: &[Field], name: &[u8]) -> bool
    ensures { result ≡ is_single name.now fields.now }
{
    let mut rest = fields;
    while let [first, others @ ..] = rest {
        if first.is_named(name) {
            return value_of(others, name).is_none();
        }
        rest = others;
    }
    true
}
