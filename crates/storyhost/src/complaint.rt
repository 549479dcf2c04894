//! What standard error is told of an exit status.
ghost use Rattle.std.specs.Prelude.{◌≡◌};
ghost use Rattle.storyhost.specs.Complaint.{complaint};

/// The line for an exit code; of 0, and of a code that no command ends with, nothing.
pub fn complaint_of(code: u8) -> &'static str
    ensures { result.now ≡ complaint code }
{
    match code {
        2 => "storyhost: these words aren't understood; see storyhost --help",
        3 => "storyhost: a story is refused; the line that was written says which, and why",
        4 => "storyhost: the input failed, or a file can't be read",
        5 => "storyhost: the output failed",
        6 => "storyhost: a file of the folder can't be opened, made, read or written",
        7 => "storyhost: there is too little memory",
        8 => "storyhost: what the folder holds is refused; the line that was written says why",
        9 => "storyhost: the port can't be served; another program may be using it",
        10 => "storyhost: the connection's limit of lines or bytes was reached",
        _ => "",
    }
}
