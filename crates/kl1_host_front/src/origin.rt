// Where a page comes from, as a browser tells it.

ghost use Rattle.std.specs.Prelude.{◌≡◌, option_map};
ghost use Rattle.kl1_host_front.specs.Origins.{behind, as_name, host_of};

use kl1_lines::is_same;

/// What is behind a front, if that front is there.
fn behind<'a>(front: &[u8], text: &'a [u8]) -> Option<&'a [u8]>
    ensures { option_map (λ rest. rest.now) result ≡ behind front.now text.now }
{
    let len = front.len().min(text.len());
    let (first, rest) = text.split_at(len);
    if is_same(first, front) {
        Some(rest)
    } else {
        None
    }
}

/// A name, if something is there, and no `/`.
fn as_name(name: &[u8]) -> Option<&[u8]>
    ensures { option_map (λ rest. rest.now) result ≡ as_name name.now }
{
    if name.is_empty() || name.contains(&b'/') {
        None
    } else {
        Some(name)
    }
}

/// The host of an origin, as `https://kl1.example.org`: what is behind `https://` or `http://`, with no `/`.
pub fn host_of(origin: &[u8]) -> Option<&[u8]>
    ensures { option_map (λ host. host.now) result ≡ host_of origin.now }
{
    let name = match behind(b"https://", origin) {
        Some(name) => Some(name),
        None => behind(b"http://", origin),
    };
    as_name(name?)
}
