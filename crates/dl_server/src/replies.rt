//! Fills responses.

ghost use Rattle.std.specs.Prelude.{◌≡◌, ◌∷◌, ◌++◌, [], IsTrue, OnOk, codes, string_bytes};
ghost use Rattle.http_header.specs.FieldValue.{is_visible_text};
ghost use Rattle.http_server.specs.Response.{IsBlank, IsResponse, fields_of};
ghost use Rattle.dl_server.specs.Responses.{allowed, json_type, line_type, page_type, picture_type, typed};

use crate::places::Place;
use bytes::Bytes;
use http::{HeaderValue, StatusCode, header};
use http_server::Response;
use std::alloc::AllocError;

/// Fills a response with this status and this JSON text.
pub(crate) fn reply_json(
    response: &mut Response,
    status: StatusCode,
    text: String,
) -> Result<(), AllocError>
    requires { IsBlank response.old }
    ensures { OnOk result (IsResponse status (typed json_type) (string_bytes text) response.new) }
{
    reply(
        response,
        status,
        "application/json",
        Bytes::from_string(text)?,
    )
}

/// Fills a response with this picture.
pub(crate) fn reply_picture(response: &mut Response, picture: String) -> Result<(), AllocError>
    requires { IsBlank response.old }
    ensures { OnOk result (IsResponse 200 (typed picture_type) (string_bytes picture) response.new) }
{
    reply(
        response,
        StatusCode::OK,
        "image/svg+xml",
        Bytes::from_string(picture)?,
    )
}

/// Fills a response with this page.
pub(crate) fn reply_page(response: &mut Response, page: &'static str) -> Result<(), AllocError>
    requires { IsBlank response.old }
    ensures { OnOk result (IsResponse 200 (typed page_type) page.now response.new) }
{
    reply(
        response,
        StatusCode::OK,
        "text/html; charset=utf-8",
        Bytes::from_static(page.as_bytes()),
    )
}

/// Fills a response with this status and this line of text.
pub(crate) fn reply_line(
    response: &mut Response,
    status: StatusCode,
    line: &'static str,
) -> Result<(), AllocError>
    requires { IsBlank response.old }
    ensures { OnOk result (IsResponse status (typed line_type) line.now response.new) }
{
    reply(
        response,
        status,
        "text/plain; charset=utf-8",
        Bytes::from_static(line.as_bytes()),
    )
}

/// Fills a response to a request that a place doesn't do.
pub(crate) fn reply_no_method(response: &mut Response, place: Place) -> Result<(), AllocError>
    requires { IsBlank response.old }
    ensures { OnOk result (IsResponse 405 ((codes "allow", allowed place) ∷ typed line_type)
        (codes "method not allowed\n") response.new) }
{
    response.add_header(header::ALLOW, allowed(place))?;
    reply(
        response,
        StatusCode::METHOD_NOT_ALLOWED,
        "text/plain; charset=utf-8",
        Bytes::from_static("method not allowed\n".as_bytes()),
    )
}

/// The methods of a place.
fn allowed(place: Place) -> HeaderValue
    ensures { result.bytes ≡ allowed place }
{
    match place {
        Place::Top => HeaderValue::from_static("GET, HEAD, POST"),
        Place::Picture => HeaderValue::from_static("POST"),
        Place::Health => HeaderValue::from_static("GET, HEAD"),
    }
}

/// Fills a response with this status, this type and this body.
fn reply(
    response: &mut Response,
    status: StatusCode,
    kind: &'static str,
    body: Bytes,
) -> Result<(), AllocError>
    requires visible { IsTrue (is_visible_text kind.now) }
    requires empty { response.old.body.items ≡ [] }
    ensures { OnOk result (IsResponse status (fields_of response.old ++ typed kind.now) body response.new) }
{
    response.status = status;
    response.add_header(header::CONTENT_TYPE, HeaderValue::from_static(kind))?;
    response.body.push(body)?;
    Ok(())
}
