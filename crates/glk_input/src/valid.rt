//! Requests that a session may have (Glk 0.7.5, "Line Input Events"; own: the limits).

ghost use Rattle.std.specs.Prelude.{◌≡◌, ◌≢◌, MatchOption, true};
ghost use Rattle.glk_input.specs.Valid as valid;

use crate::keys::{Keys, MAX_KEYS};
use crate::request::{LineRequest, Request, WindowInput};
use crate::requests::Requests;
use glk_numbers::{MAX_NUMBER, ascend};

/// The most characters with which a line begins.
const MAX_INITIAL: u32 = 1024;

/// Whether the keys are few enough.
fn are_few(keys: &Keys) -> bool
    ensures { result ≡ valid.are_few keys.now }
{
    keys.as_slice().len() <= MAX_KEYS
}

impl LineRequest {
    /// Whether it begins with at most its maximum of characters and 1,024.
    fn is_valid(&self) -> bool
        ensures { result ≡ valid.is_line self.now }
    {
        self.init <= self.max && self.init <= MAX_INITIAL && are_few(&self.keys)
    }
}

impl WindowInput {
    fn is_valid(&self) -> bool
        ensures { result ≡ valid.is_window_input self.now }
    {
        are_few(&self.keys) && has_valid(&self.request)
    }
}

/// Whether what is asked for may be, if anything is.
fn has_valid(request: &Option<Request>) -> bool
    ensures { result ≡ valid.is_request request.now }
{
    match request {
        Some(Request::Line(line)) => line.is_valid(),
        Some(Request::Char { .. }) | None => true,
    }
}

fn are_valid(windows: &[WindowInput]) -> bool
    ensures { result ≡ valid.are_windows windows.now }
{
    for window in windows {
        if !window.is_valid() {
            return false;
        }
    }
    true
}

impl Requests {
    /// Whether they are such as a session may have: the windows' numbers ascend, from 1 to
    /// 4,294,967,294, and their requests are within the limits.
    pub fn is_valid(&self) -> bool
        ensures { result ≡ valid.are_valid_inputs self.now }
    {
        ascend(&self.windows, 0, MAX_NUMBER + 1) && are_valid(&self.windows)
    }

    /// The requests of these windows; None where no session may have them.
    pub fn of_fields(windows: Vec<WindowInput>) -> Option<Requests>
        ensures { MatchOption result (valid.are_valid_inputs windows.items ≢ true)
            (λ r. (r ≡ windows.items) × (valid.are_valid_inputs r ≡ true)) }
    {
        let requests = Requests { windows };
        if requests.is_valid() {
            Some(requests)
        } else {
            None
        }
    }
}
