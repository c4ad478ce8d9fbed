//! The files of the page.

use http::HeaderValue;
use std::fs;

/// The bytes of a file below a folder, for a path that a browser asks for; None where it names none.
pub(crate) fn file_of(rt: &HostRuntime, web: &str, path: &str) -> Option<Vec<u8>> {
    let name = name_of(path)?;
    let alloc = rt.alloc();
    let place = format!(in alloc; "{web}/{name}").ok()?;
    fs::read(rt, place.as_str()).ok()
}

/// The name that a path has below the folder: one file, or one of the examples; None for other paths.
fn name_of(path: &str) -> Option<&str> {
    if path == "/" {
        return Some("index.html");
    }
    let name = path.strip_prefix("/")?;
    let last = match name.strip_prefix("examples/") {
        Some(last) => last,
        None => name,
    };
    if is_plain(last) { Some(name) } else { None }
}

/// Whether a name has only letters, digits, `-`, `_` and dots, and does not begin with a dot.
fn is_plain(name: &str) -> bool {
    let bytes = name.as_bytes();
    match bytes.first() {
        None | Some(b'.') => false,
        Some(_) => bytes.iter().all(|byte| byte.is_ascii_alphanumeric()
            || matches!(*byte, b'-' | b'_' | b'.')),
    }
}

/// What a browser takes an answer for.
#[derive(Clone, Copy)]
pub(crate) enum FileKind {
    Html,
    Css,
    Script,
    Picture,
    Plain,
    Object,
}

impl FileKind {
    /// The kind of a file, by the end of its path.
    pub(crate) fn of(path: &str) -> FileKind {
        if path == "/" || path.ends_with(".html") {
            FileKind::Html
        } else if path.ends_with(".css") {
            FileKind::Css
        } else if path.ends_with(".js") {
            FileKind::Script
        } else if path.ends_with(".svg") {
            FileKind::Picture
        } else {
            FileKind::Plain
        }
    }

    /// As a header tells it.
    pub(crate) fn header(self) -> HeaderValue {
        match self {
            FileKind::Html => HeaderValue::from_static("text/html; charset=utf-8"),
            FileKind::Css => HeaderValue::from_static("text/css; charset=utf-8"),
            FileKind::Script => HeaderValue::from_static("text/javascript; charset=utf-8"),
            FileKind::Picture => HeaderValue::from_static("image/svg+xml"),
            FileKind::Plain => HeaderValue::from_static("text/plain; charset=utf-8"),
            FileKind::Object => HeaderValue::from_static("application/json"),
        }
    }
}
