//! What is answered to a request.

ghost use Rattle.std.specs.Prelude.{◌<◌, ◌^◌, length};

use crate::answers::Made;
use crate::files::{FileKind, file_of};
use crate::requests::{Bends, bends_in, number_in, text_in, then_in};
use crate::runs::{Bending, Untold, bend_text, tell_run, tell_why};
use crate::watch::Watch;
use bytes::{BufMut, Bytes};
use http::header::{CONTENT_TYPE, HOST, ORIGIN};
use http::{Request, StatusCode};
use http_server::{Response, Service};
use serde_json::Value;
use std::alloc::{AllocError, Global};

/// The most bytes that the page sends.
const MOST_BYTES: usize = 1_048_576;

/// Answers the requests of the page.
#[derive(Drop)]
pub(crate) struct Desk<'a> {
    rt: &'a HostRuntime,
    port: u16,
    web: &'a str,
}

/// What is answered.
#[derive(Drop)]
struct Answer {
    status: u16,
    kind: FileKind,
    body: Vec<u8>,
}

impl<'a> Desk<'a> {
    /// A desk for the page in a folder, at a port.
    pub(crate) fn new(rt: &'a HostRuntime, port: u16, web: &'a str) -> Desk<'a> {
        Desk { rt, port, web }
    }

    /// What is answered to a request.
    fn answer(&self, request: &Request<Bytes>) -> Result<Answer, AllocError> {
        let alloc = self.rt.alloc();
        if !self.is_own(request)? {
            return text(alloc, 403, "this laboratory answers only its own page\n");
        }
        let path = request.uri().path();
        let body = request.body().as_slice();
        match request.method().as_str() {
            "GET" | "HEAD" => self.file(path),
            "POST" => self.post(path, body),
            _ => text(alloc, 405, "GET or POST\n"),
        }
    }

    /// Whether a request names this machine and port as its host and, if it has one, as its origin.
    fn is_own(&self, request: &Request<Bytes>) -> Result<bool, AllocError> {
        let headers = request.headers();
        let is_host = match headers.get(HOST) {
            Some(host) => self.is_here(host.as_bytes())?,
            None => false,
        };
        let is_origin = match headers.get(ORIGIN) {
            Some(origin) => self.is_from_here(origin.as_bytes())?,
            None => true,
        };
        Ok(is_host && is_origin && request.uri().host().is_none())
    }

    /// Whether an origin is this machine and port.
    fn is_from_here(&self, origin: &[u8]) -> Result<bool, AllocError> {
        match origin.strip_prefix(b"http://") {
            Some(host) => self.is_here(host),
            None => Ok(false),
        }
    }

    /// Whether a host is this machine and port.
    fn is_here(&self, host: &[u8]) -> Result<bool, AllocError> {
        let port = self.port;
        let number = format!(in self.rt.alloc(); "127.0.0.1:{port}")?;
        let name = format!(in self.rt.alloc(); "localhost:{port}")?;
        Ok(host == number.as_bytes() || host == name.as_bytes())
    }

    /// A file of the page.
    fn file(&self, path: &str) -> Result<Answer, AllocError> {
        match file_of(self.rt, self.web, path) {
            Some(body) => Ok(Answer {
                status: 200,
                kind: FileKind::of(path),
                body,
            }),
            None => text(self.rt.alloc(), 404, "there is no such file\n"),
        }
    }

    /// What is answered to what the page sends.
    fn post(&self, path: &str, body: &[u8]) -> Result<Answer, AllocError> {
        let alloc = self.rt.alloc();
        if body.len() > MOST_BYTES {
            return too_long(alloc);
        }
        let mut watch = Watch::new(self.rt);
        if path == "/run" {
            return run(&mut watch, body);
        }
        let Ok(asked) = Value::from_slice(alloc, body) else {
            return text(alloc, 400, "that is no JSON\n");
        };
        match path {
            "/why" => why(&mut watch, &asked),
            "/bend" => bend(&mut watch, &asked),
            _ => text(alloc, 404, "there is no such path\n"),
        }
    }
}

/// What is told of a schedule's run.
fn run(watch: &mut Watch<'_>, body: &[u8]) -> Result<Answer, AllocError>
    requires { length body.now < 2 ^ 31 }
{
    let alloc = watch.alloc();
    let told = match tell_run(watch, body) {
        Ok(told) => told,
        Err(why) => return untold(alloc, why),
    };
    let mut made = Made::new(alloc);
    made.run(told)?;
    object(made)
}

/// The events that led to the entry in a line of a schedule's journal.
fn why(watch: &mut Watch<'_>, asked: &Value) -> Result<Answer, AllocError> {
    let alloc = watch.alloc();
    let (Some(schedule), Some(line)) = (text_in(asked, "schedule"), number_in(asked, "line")) else {
        return text(alloc, 400, "a schedule and a line are wanted\n");
    };
    if schedule.len() > MOST_BYTES {
        return too_long(alloc);
    }
    let (status, why) = match tell_why(watch, schedule.as_bytes(), line) {
        Ok(told) => told,
        Err(why) => return untold(alloc, why),
    };
    let mut made = Made::new(alloc);
    made.number("status", status as u64)?;
    made.text("why", why)?;
    object(made)
}

/// What is told of the run of a schedule that is bent.
fn bend(watch: &mut Watch<'_>, asked: &Value) -> Result<Answer, AllocError> {
    let alloc = watch.alloc();
    let (Some(schedule), Some(then)) = (text_in(asked, "schedule"), then_in(asked)) else {
        return text(
            alloc,
            400,
            "a schedule, and `go on` or `stop`, are wanted\n",
        );
    };
    if schedule.len() > MOST_BYTES {
        return too_long(alloc);
    }
    let bends = match bends_in(alloc, asked)? {
        Bends::All(bends) => bends,
        Bends::Bad(place) => return untold(alloc, Untold::Bend(place)),
    };
    let mut made = Made::new(alloc);
    match bend_text(watch, schedule.as_bytes(), &bends, then) {
        Ok(Bending::Bent { bent, told }) => {
            made.bent(bent)?;
            made.run(told)?;
        }
        Ok(Bending::Faulty(told)) => {
            made.unbent()?;
            made.run(told)?;
        }
        Err(why) => return untold(alloc, why),
    }
    object(made)
}

/// The answer to a request that is too long.
fn too_long(alloc: Global) -> Result<Answer, AllocError> {
    text(alloc, 413, "a schedule here has at most 1,048,576 bytes\n")
}

/// The answer that says why nothing is told.
fn untold(alloc: Global, why: Untold) -> Result<Answer, AllocError> {
    match why {
        Untold::Memory => text(alloc, 503, "memory is wanting\n"),
        Untold::Time => text(alloc, 503, "that takes longer than 5 seconds\n"),
        Untold::Bend(place) => {
            let words = format!(in alloc; "bend {place} says nothing that can be done\n")?;
            text(alloc, 400, words.as_str())
        }
    }
}

/// An answer of an object.
fn object(made: Made) -> Result<Answer, AllocError> {
    Ok(Answer {
        status: 200,
        kind: FileKind::Object,
        body: made.into_bytes()?,
    })
}

/// An answer of plain text.
fn text(alloc: Global, status: u16, words: &str) -> Result<Answer, AllocError> {
    Ok(Answer {
        status,
        kind: FileKind::Plain,
        body: words.as_bytes().to_vec(alloc)?,
    })
}

impl Service for Desk<'_> {
    ghost answers = { λ old request response new. Unit {0} };

    fn call(
        &mut self,
        request: &Request<Bytes>,
        response: &mut Response,
    ) -> Result<(), AllocError> {
        let Answer { status, kind, body } = self.answer(request)?;
        if let Ok(status) = StatusCode::from_u16(status) {
            response.status = status;
        }
        response.headers.push((CONTENT_TYPE, kind.header()))?;
        response.body.put_slice(&body)
    }
}
