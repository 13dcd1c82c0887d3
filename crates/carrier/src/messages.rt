ghost use Rattle.std.specs.Prelude.{◌≡◌, Some};
ghost use Rattle.carrier.specs.Messages.{kind_number, kind_word, kind_of};

use std::fmt;

// The two kinds of message, with their numbers.
#[derive(Clone, Copy, PartialEq, Eq, Debug)]
pub enum Kind {
    Request = 1,
    Response = 2,
}

// What a line carries: a request, or a response with a word.
#[derive(Clone, Copy)]
pub enum Message<W> {
    Request,
    Response(W),
}

impl Kind {
    pub fn number(self) -> u8
        ensures { result ≡ kind_number self }
    {
        self as u8
    }
}

impl fmt::Display for Kind {
    ghost output = { λ k. Some (kind_word k) };

    fn fmt<W: fmt::Write>(&self, f: &mut fmt::Formatter<W>) -> fmt::Result {
        match self {
            Kind::Request => write!(f, "req"),
            Kind::Response => write!(f, "resp"),
        }
    }
}

impl<W: Copy> Message<W> {
    pub fn kind(self) -> Kind
        ensures { result ≡ kind_of self }
    {
        match self {
            Message::Request => Kind::Request,
            Message::Response(_) => Kind::Response,
        }
    }
}
