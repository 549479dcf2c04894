//! Laws of a Glk state: what calls keep valid, what a new size of the screen changes, and which
//! entries and streams are a window's.

ghost use Rattle.glk_dispatch.specs.Fields.{EntriesFollowWindows, StreamsFollowWindows};
ghost use Rattle.glk_dispatch.specs.Laws.{CallsKeepValid, SizesChangeTheScreen};

/// A law: from a valid Glk state in which nothing is waited with, every call leaves a valid one that
/// waits with what the call's answer says; every input sets a valid one back to a valid one in which
/// nothing is waited with. So does a fault of either.
pub fn calls_keep_valid()
    ensures { CallsKeepValid }
{}

/// A law: a new size of the screen changes the screen, the rectangles of windows and the cells of
/// grids alone; memory and stack take its event, and requests, streams and files stay.
pub fn sizes_change_the_screen()
    ensures { SizesChangeTheScreen }
{}

/// A law: the entries for input of a valid Glk state are those of its windows, in their order.
pub fn entries_follow_windows()
    ensures { EntriesFollowWindows }
{}

/// A law: in a valid Glk state a stream that is a window's is that of the one window that has it.
pub fn streams_follow_windows()
    ensures { StreamsFollowWindows }
{}
