ghost use Rattle.std.specs.Prelude.{◌≡◌, ◌≤◌, length};
ghost use Rattle.lines.specs.declared.lines.End.TheVariants.{From};
ghost use Rattle.lines.specs.Lines.{meets};
ghost use Rattle.pulse.specs.Rounds.{with_message, way_of, at_lines, none_waits};
ghost use Rattle.pulse.specs.Steps.{waits, next, rest};

use carrier::Message;
use lines::{End, Line, Way};
use pulse::Waiting;
use quantity::Word;

// What waits for a line where nothing does.
pub(crate) const NONE_WAITS: Waiting<Word> = Waiting {
    request: false,
    response: None,
};

// A message comes to wait.
fn add(waiting: &mut Waiting<Word>, message: Message<Word>)
    ensures { waiting.new ≡ with_message message waiting.old }
{
    match message {
        Message::Request => waiting.request = true,
        Message::Response(word) => waiting.response = Some(word),
    }
}

// The tree along which a message goes.
fn way_of(message: Message<Word>) -> Way
    ensures { result ≡ way_of message }
{
    match message {
        Message::Request => Way::Direct,
        Message::Response(_) => Way::Back,
    }
}

// The message comes to wait for each line of its tree that leaves the house.
pub(crate) fn send(
    lines: &[Line],
    house: usize,
    message: Message<Word>,
    waiting: &mut [Waiting<Word>],
)
    requires { length lines.now ≤ length waiting.old }
    ensures { waiting.new ≡ at_lines (meets (way_of message) From house) (with_message message) lines.now waiting.old }
{
    for (i, line) in lines.iter().enumerate() {
        if line.meets(way_of(message), End::From, house) {
            add(&mut waiting[i], message);
        }
    }
}

// Whether something waits.
pub(crate) fn waits(waiting: Waiting<Word>) -> bool
    ensures { result ≡ waits waiting }
{
    waiting.request || waiting.response.is_some()
}

// Takes out the message that is loaded next: a request before a response.
pub(crate) fn take_next(waiting: &mut Waiting<Word>) -> Message<Word>
    ensures value { result ≡ next waiting.old }
    ensures after { waiting.new ≡ rest waiting.old }
{
    if waiting.request {
        waiting.request = false;
        return Message::Request;
    }
    waiting
        .response
        .take()
        .map_or(Message::Request, Message::Response)
}
