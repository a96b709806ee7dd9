//! The status of an answer (RFC 9110, section 15).
ghost use Rattle.std.specs.Prelude.{◌≡◌};
ghost use Rattle.office_http.specs.Answers.{status_text};

/// A status that an office answers.
#[derive(Clone, Copy, Debug, PartialEq, Eq)]
pub enum Status {
    Done,
    Created,
    BadRequest,
    NotFound,
    NotAllowed,
    Conflict,
    LengthRequired,
    TooLarge,
    Unprocessable,
}

impl Status {
    /// The code and its phrase.
    pub(crate) fn text(self) -> &'static str
        ensures { result.now ≡ status_text self }
    {
        match self {
            Status::Done => "200 OK",
            Status::Created => "201 Created",
            Status::BadRequest => "400 Bad Request",
            Status::NotFound => "404 Not Found",
            Status::NotAllowed => "405 Method Not Allowed",
            Status::Conflict => "409 Conflict",
            Status::LengthRequired => "411 Length Required",
            Status::TooLarge => "413 Content Too Large",
            Status::Unprocessable => "422 Unprocessable Content",
        }
    }
}
