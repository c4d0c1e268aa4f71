//! The media type of a request's body.

ghost use Rattle.std.specs.Prelude.{◌≡◌, bytes_eq, codes, map, option_copied};
ghost use Rattle.std.specs.Char.{to_ascii_lowercase};
ghost use Rattle.dl_server.specs.Media.{ends_type, is_json, may_be_json};

use http::{HeaderMap, HeaderValue, header};

const JSON: &[u8] = b"application/json";

/// Whether the body may be JSON, by the head of its request: each `content-type` that is there says so.
pub(crate) fn may_be_json(headers: &HeaderMap<HeaderValue>) -> bool
    ensures { result ≡ may_be_json headers.now }
{
    headers
        .get_all(header::CONTENT_TYPE)
        .into_iter()
        .all(|value| is_json(value.as_bytes()))
}

/// Whether a `content-type` says that the body is JSON: it is `application/json`, in any case, with any parameters.
fn is_json(value: &[u8]) -> bool
    ensures { result ≡ is_json value.now }
{
    if value.len() < JSON.len() {
        return false;
    }
    is_name(&value[..JSON.len()]) && ends_type(value.get(JSON.len()))
}

/// Whether these bytes are the name of JSON's type, in any case.
fn is_name(name: &[u8]) -> bool
    ensures { result ≡ bytes_eq (map to_ascii_lowercase name.now) (codes "application/json") }
{
    name.eq_ignore_ascii_case(JSON)
}

/// Whether a type ends in front of this byte: there is none, or parameters begin with it.
fn ends_type(next: Option<&u8>) -> bool
    ensures { result ≡ ends_type (option_copied next.entry) }
{
    match next {
        Some(byte) => *byte == b';' || *byte == b' ' || *byte == b'\t',
        None => true,
    }
}
