//! What a request asks for.

ghost use Rattle.std.specs.Prelude.{◌≡◌};
ghost use Rattle.dl_server.specs.Asked.{asked_at, asked_for, is_reading, place_of, posted};

/// A place that the server has.
#[derive(Clone, Copy, Debug, PartialEq, Eq)]
pub(crate) enum Place {
    /// `/`: the page, and the answers to a plan file.
    Top,
    /// `/picture`: the picture of a plan file.
    Picture,
    /// `/health`: whether the server runs.
    Health,
}

/// What a request asks for.
#[derive(Clone, Copy, Debug, PartialEq, Eq)]
pub(crate) enum Asked {
    /// The page.
    Page,
    /// Whether the server runs.
    Health,
    /// The answers to a plan file.
    Answers,
    /// The picture of a plan file.
    Picture,
    /// A place that isn't there.
    NoPlace,
    /// Something that this place doesn't do.
    NoMethod(Place),
}

/// What a request with this method and this path asks for. Nothing else of its head counts for that.
pub(crate) fn asked_for(method: &str, path: &str) -> Asked
    ensures { result ≡ asked_for method.now path.now }
{
    match place_of(path) {
        Some(place) => asked_at(place, method),
        None => Asked::NoPlace,
    }
}

/// The place at this path.
fn place_of(path: &str) -> Option<Place>
    ensures { result ≡ place_of path.now }
{
    if path == "/" {
        Some(Place::Top)
    } else if path == "/picture" {
        Some(Place::Picture)
    } else if path == "/health" {
        Some(Place::Health)
    } else {
        None
    }
}

/// What a request with this method asks of a place.
fn asked_at(place: Place, method: &str) -> Asked
    ensures { result ≡ asked_at place method.now }
{
    match place {
        Place::Top => {
            if is_reading(method) {
                Asked::Page
            } else {
                posted(Asked::Answers, place, method)
            }
        }
        Place::Picture => posted(Asked::Picture, place, method),
        Place::Health => {
            if is_reading(method) {
                Asked::Health
            } else {
                Asked::NoMethod(place)
            }
        }
    }
}

/// What a request asks of a place that takes plan files: this, if it is a POST.
fn posted(wanted: Asked, place: Place, method: &str) -> Asked
    ensures { result ≡ posted wanted place method.now }
{
    if method == "POST" {
        wanted
    } else {
        Asked::NoMethod(place)
    }
}

/// Whether the method reads a place, and gives it nothing.
fn is_reading(method: &str) -> bool
    ensures { result ≡ is_reading method.now }
{
    method == "GET" || method == "HEAD"
}
