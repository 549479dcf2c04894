//! The texts of `--help` and `--version`.
ghost use Rattle.std.specs.Prelude.{◌≡◌};
ghost use Rattle.command_words.specs.Help.{help_text};

/// What help is asked of: the program, or one of its commands.
#[derive(Clone, Copy, Debug, PartialEq, Eq)]
pub enum Topic {
    Program,
    Run,
    Check,
    Init,
    Pipe,
    Serve,
    Replay,
    Pack,
    Drill,
}

/// The version of the program, and the text of `--version`.
pub const VERSION: &str = "0.1.0";

pub const VERSION_TEXT: &str = "storyhost 0.1.0\n";

/// What the program is, and its commands.
pub const PROGRAM_HELP: &str = "\
Plays interactive fiction: Glulx story files, alone or in a Blorb container.

Usage: storyhost COMMAND

Commands:
  run FILE [--budget N]            play one story over standard input and output
  check FILE                       tell what the header of a story says
  init DIR                         begin the files of a folder
  pipe DIR STORY.. [--budget N]    serve up to 64 sessions over one connection
  serve DIR PORT WORKERS STORY.. [--budget N] [--links K]
                                   serve them over TCP, on this machine alone
  replay DIR STORY..               write all that the players of a folder saw
  pack OLD NEW                     begin a folder anew with the games in use alone
  drill N                          play eight sessions by scripts, as a trial

  storyhost COMMAND --help         tells more of a command
  storyhost --version              tells the version

Exit status:
  0   done: the input was read to its end, the story is over, or K links ended
  2   the words aren't understood; nothing is written
  3   a story is refused; the line written says which, and why
  4   the input failed, or a file could not be read
  5   the output failed
  6   a file of the folder failed
  7   there was too little memory
  8   what the folder holds is refused; the line written says why
  9   the port can't be served
  10  the input reached the limit of a connection: 1,048,576 lines or 2 GiB
";

/// What `run` does.
pub const RUN_HELP: &str = "\
Plays one story alone, on a screen of 80 by 24.

Usage: storyhost run FILE [--budget N]

  FILE          a Glulx story file, or a Blorb container with one
  --budget N    the most ticks of a turn, 1 to 1000000000000; else 50000000

Each turn writes what the player sees, line by line, and then the line `.`:
  W id kind x y width height    a window: kind 3 is text, kind 4 a grid
  T id style =text              text that was printed to a window
  G id row =text                a row of a grid
  I id line max =text           the story waits for a line in this window
  I id char                     the story waits for a character in this window
  P usage mode                  the story waits for a file's name
  E quit                        the story has ended; E fault N: it failed
In a text, %20 is a space and %0A the end of a line.

Each line of input is the player's next move:
  LINE id =text                 a line that was typed in window id
  CHAR id code                  a key that was pressed in window id
  FILE =name                    the name of a file
  SIZE width height             the screen has this size from now on
It is answered by the next turn, or by a line that begins with NO:
  NO 1 it isn't understood, NO 8 the story doesn't wait for it, NO 14 too long
";

/// What `check` does.
pub const CHECK_HELP: &str = "\
Tells what the header of a story file says, without playing the story.

Usage: storyhost check FILE

  FILE          a Glulx story file, or a Blorb container with one

Writes one line. For a good story, with sum=1 where its checksum is wrong:
  good version=00030103 ram=256 ext=256 end=512 stack=256 sum=0
For a file that is refused, with exit status 3:
  bad 0 image N   1 too short, 2 no Glulx story, 3 its version isn't known,
                  4 its memory is laid out wrongly, 5 it is too large
  bad 0 blorb N   1 no Blorb container, 2 a part is cut off,
                  3 it names no story, 4 its story is no Glulx story
";

/// What `init` does.
pub const INIT_HELP: &str = "\
Begins the journal and the snapshot files of a folder, which is made where it
is missing.

Usage: storyhost init DIR

  DIR           the folder

Writes `ready`. A folder that has a journal is refused with exit status 8, and
the line `not empty`; no file of it is changed.
";

/// What `pipe` does.
pub const PIPE_HELP: &str = "\
Serves up to 64 sessions over standard input and output.

Usage: storyhost pipe DIR STORY.. [--budget N]

  DIR           a folder that `init` made; its journal keeps every move, and its
                snapshots spare playing all of them again after a start
  STORY..       1 to 64 story files, numbered from 0
  --budget N    the most ticks of a turn, 1 to 1000000000000; else 50000000

Each line of input is a request to session S, 0 to 63. Its key is a word that
the player chooses, and N counts the session's moves from 1:
  OPEN S key story seed width height    begin a game
  LINE S key N id =text                 a line that was typed in window id
  CHAR S key N id code                  a key that was pressed in window id
  FILE S key N =name                    the name of a file
  SIZE S key N width height             the screen has this size from now on
  LAST S key                            show the last turn again
  CLOSE S key N                         end the game
  WATCH S word from                     show up to eight turns to a spectator
Each is answered by the line SHOW S N, the turn as `run` writes it and the line
`.`, or by a line NO with a number; WATCH by the line SEEN S from to and then
those turns. A repeated request is played once.
";

/// What `serve` does.
pub const SERVE_HELP: &str = "\
Serves up to 64 sessions over TCP, on this machine alone.

Usage: storyhost serve DIR PORT WORKERS STORY.. [--budget N] [--links K]

  DIR           a folder that `init` made; its journal keeps every move, and its
                snapshots spare playing all of them again after a start
  PORT          0 to 65535; for 0 a free one is taken, and standard error says
                which
  WORKERS       1 to 16, the most links that are served at one time
  STORY..       1 to 64 story files, numbered from 0
  --budget N    the most ticks of a turn, 1 to 1000000000000; else 50000000
  --links K     the links after which it ends, 1 to 4294967295; else 4294967295

A link is one connection to the port. Its lines are requests to sessions, and
are answered as `pipe` answers those of its input. A link that comes while each
worker serves one waits. A link that fails ends alone.
";

/// What `replay` does.
pub const REPLAY_HELP: &str = "\
Writes what each player of a folder was shown, game by game, from its journal.
No file of the folder is changed, and none but its journal is read.

Usage: storyhost replay DIR STORY..

  DIR           a folder with a journal, which no running host holds
  STORY..       1 to 64 story files, in the order in which the host had them

Writes the games of session 0 in the order in which they were opened, then those
of session 1 and so on up to 63, and then the line `done`. Of each game it writes
  GAME S place    session S, and the place of the game's OPEN in the journal
  SHOW S N        its turns in order, N from 0, each as `pipe` wrote it, and the
                  line `.` behind it; that of an ended game is `E closed`
  NO 13           in the place of all turns: its story isn't there, or the file
                  isn't the one with which the game was opened
";

/// What `pack` does.
pub const PACK_HELP: &str = "\
Begins a folder with a shorter journal: the games of another folder that are in
use, without those that are over. The old folder is only read.

Usage: storyhost pack OLD NEW

  OLD           a folder with a journal, which no running host holds
  NEW           another folder, which is made where it is missing

Writes `packed A of B`: A moves were kept of B. Each player can go on in the new
folder where the game stood; a session that was closed is one that was never
opened. A NEW that has a journal is refused with exit status 8 and the line
`not empty`, and no file is changed. Where the packing ends otherwise, NEW is of
no use: remove it before the next.
";

/// What `drill` does.
pub const DRILL_HELP: &str = "\
Plays eight sessions of a small story, which only says what it is told, on a
host that is kept in memory. No file is read or written.

Usage: storyhost drill N

  N             0 to 18446744073709551615; the moves of each session are drawn
                from it

Each session is opened and given 1000 lines: new moves, repeats, and moves that
leave a number out. Writes a line for each session, and then the line `done`:
  S A R H       of session S, A commands were accepted and R lines refused; H is
                the SHA-256 digest of all replies
What is written depends on N alone.
";

/// The text for a topic.
pub fn help_text(topic: Topic) -> &'static str
    ensures { result.now ≡ help_text topic }
{
    match topic {
        Topic::Program => PROGRAM_HELP,
        Topic::Run => RUN_HELP,
        Topic::Check => CHECK_HELP,
        Topic::Init => INIT_HELP,
        Topic::Pipe => PIPE_HELP,
        Topic::Serve => SERVE_HELP,
        Topic::Replay => REPLAY_HELP,
        Topic::Pack => PACK_HELP,
        Topic::Drill => DRILL_HELP,
    }
}
