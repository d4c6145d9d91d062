//! Why the server refuses a request, and what it replies then.
ghost use Rattle.std.specs.Prelude.{◌≡◌};
ghost use Rattle.sync_server.specs.Replies.{refusal_bytes, status_of};
ghost use Rattle.sync_server.specs.Texts.{text_of};

use budget_ports::PortFault;
use field_values::NoMemory;

/// Why a request is refused, in the order in which the first case of each is looked for. That the length of the body is told wrongly, or is
/// too great, comes behind `LengthRequired`.
#[derive(Clone, Copy, Debug, PartialEq, Eq)]
pub enum Refusal {
    /// 65,536 bytes came without a whole head, or the body is longer than 67,108,864 bytes.
    TooLarge,
    /// The head is no head of a request with at most 64 fields, or the length of the body is not told by one number.
    BadRequest,
    /// The path is not that of a sync.
    NotFound,
    /// The method is not POST.
    MethodNotAllowed,
    /// The length of the body is not told.
    LengthRequired,
    /// The token is not the server's.
    TokenNotFound,
    /// The body means no request.
    BadMessage,
    /// The request has an encrypted envelope.
    EncryptedMessage,
    /// The request doesn't say which messages it asks for.
    SinceRequired,
    /// There is no such file.
    FileNotFound,
    /// The file has another group now.
    FileHasReset,
    /// A record of the group keeps no message.
    BadRecord,
    /// The keeper failed.
    KeeperFault,
    /// Memory ran out.
    NoMemory,
}

impl Refusal {
    /// The status of the reply.
    pub fn status(self) -> u16
        ensures { result ≡ status_of self }
    {
        match self {
            Refusal::TooLarge => 413,
            Refusal::BadRequest => 400,
            Refusal::NotFound => 404,
            Refusal::MethodNotAllowed => 405,
            Refusal::LengthRequired => 411,
            Refusal::TokenNotFound => 401,
            Refusal::BadMessage => 400,
            Refusal::EncryptedMessage => 400,
            Refusal::SinceRequired => 422,
            Refusal::FileNotFound => 400,
            Refusal::FileHasReset => 400,
            Refusal::BadRecord => 500,
            Refusal::KeeperFault => 503,
            Refusal::NoMemory => 507,
        }
    }

    /// All bytes of the reply, which take no memory.
    pub fn reply(self) -> &'static str
        ensures { result.now ≡ refusal_bytes self }
    {
        self.text()
    }

    /// The reply, as it is written.
    fn text(self) -> &'static str
        ensures { result.now ≡ text_of self }
    {
        match self {
            Refusal::TooLarge =>
                "HTTP/1.1 413 Payload Too Large\r\nContent-Type: text/plain\r\nContent-Length: 9\r\nConnection: close\r\n\r\ntoo-large",
            Refusal::BadRequest =>
                "HTTP/1.1 400 Bad Request\r\nContent-Type: text/plain\r\nContent-Length: 11\r\nConnection: close\r\n\r\nbad-request",
            Refusal::NotFound =>
                "HTTP/1.1 404 Not Found\r\nContent-Type: text/plain\r\nContent-Length: 9\r\nConnection: close\r\n\r\nnot-found",
            Refusal::MethodNotAllowed =>
                "HTTP/1.1 405 Method Not Allowed\r\nContent-Type: text/plain\r\nContent-Length: 18\r\nConnection: close\r\n\r\nmethod-not-allowed",
            Refusal::LengthRequired =>
                "HTTP/1.1 411 Length Required\r\nContent-Type: text/plain\r\nContent-Length: 15\r\nConnection: close\r\n\r\nlength-required",
            Refusal::TokenNotFound =>
                "HTTP/1.1 401 Unauthorized\r\nContent-Type: text/plain\r\nContent-Length: 15\r\nConnection: close\r\n\r\ntoken-not-found",
            Refusal::BadMessage =>
                "HTTP/1.1 400 Bad Request\r\nContent-Type: text/plain\r\nContent-Length: 11\r\nConnection: close\r\n\r\nbad-message",
            Refusal::EncryptedMessage =>
                "HTTP/1.1 400 Bad Request\r\nContent-Type: text/plain\r\nContent-Length: 17\r\nConnection: close\r\n\r\nencrypted-message",
            Refusal::SinceRequired =>
                "HTTP/1.1 422 Unprocessable Entity\r\nContent-Type: text/plain\r\nContent-Length: 14\r\nConnection: close\r\n\r\nsince-required",
            Refusal::FileNotFound =>
                "HTTP/1.1 400 Bad Request\r\nContent-Type: text/plain\r\nContent-Length: 14\r\nConnection: close\r\n\r\nfile-not-found",
            Refusal::FileHasReset =>
                "HTTP/1.1 400 Bad Request\r\nContent-Type: text/plain\r\nContent-Length: 14\r\nConnection: close\r\n\r\nfile-has-reset",
            Refusal::BadRecord =>
                "HTTP/1.1 500 Internal Server Error\r\nContent-Type: text/plain\r\nContent-Length: 10\r\nConnection: close\r\n\r\nbad-record",
            Refusal::KeeperFault =>
                "HTTP/1.1 503 Service Unavailable\r\nContent-Type: text/plain\r\nContent-Length: 12\r\nConnection: close\r\n\r\nkeeper-fault",
            Refusal::NoMemory =>
                "HTTP/1.1 507 Insufficient Storage\r\nContent-Type: text/plain\r\nContent-Length: 9\r\nConnection: close\r\n\r\nno-memory",
        }
    }
}

impl From<NoMemory> for Refusal {
    ghost use Rattle.std.specs.Prelude.{◌≡◌};
    ghost use Rattle.sync_server.specs.declared.refusal.Refusal.TheVariants.{NoMemory as OutOfMemory};

    ghost from_gives = { λ _ r. r ≡ OutOfMemory };

    fn from(_error: NoMemory) -> Refusal {
        Refusal::NoMemory
    }
}

impl From<PortFault> for Refusal {
    ghost use Rattle.std.specs.Prelude.{◌≡◌};
    ghost use Rattle.sync_server.specs.Replies.{refusal_of};

    ghost from_gives = { λ fault r. r ≡ refusal_of fault };

    fn from(fault: PortFault) -> Refusal {
        match fault {
            PortFault::Failed => Refusal::KeeperFault,
            PortFault::NoMemory => Refusal::NoMemory,
        }
    }
}
