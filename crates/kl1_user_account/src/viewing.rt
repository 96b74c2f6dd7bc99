// What is shown of an account.

pub(crate) mod awaiting;
pub(crate) mod goals;
pub(crate) mod presence;
pub(crate) mod shoens;
pub(crate) mod texts;
