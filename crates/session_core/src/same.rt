//! Whether a command is the one that a request asks for (own).

ghost use Rattle.std.specs.Prelude.{◌≡◌};
ghost use Rattle.std.specs.Option.{option_copied};
ghost use Rattle.session_core.specs.Checks.{is_asked_by, is_last};

use gate_journal::Command;
use line_words::Request;

fn is_asked_by(request: &Request, command: &Command) -> bool
    ensures { result ≡ is_asked_by request.now command.now }
{
    match request {
        Request::Line {
            win,
            text,
            term,
            ..
        } => match command {
            Command::Line {
                win: w,
                term: t,
                text: x,
            } => *w == *win && *t == *term && x.is_same(text),
            _ => false,
        },
        Request::Char { win, code, .. } => match command {
            Command::Char { win: w, code: c } => *w == *win && *c == *code,
            _ => false,
        },
        Request::File { name, .. } => match command {
            Command::File { name: x } => x.is_same(name),
            _ => false,
        },
        Request::Size { cols, rows, .. } => match command {
            Command::Size { cols: c, rows: r } => *c == *cols && *r == *rows,
            _ => false,
        },
        Request::Close { .. } => matches!(command, Command::Close),
        Request::Open { .. } | Request::Last { .. } | Request::Watch { .. } => false,
    }
}

/// The game's last command is that one.
pub fn is_last(last: Option<&Command>, request: &Request) -> bool
    ensures { result ≡ is_last (option_copied last.entry) request.now }
{
    match last {
        Some(command) => is_asked_by(request, command),
        None => false,
    }
}
