//! Windows that are closed (Glk 0.7.5, "Window Opening, Closing, and Constraints").

ghost use Rattle.std.specs.Prelude.{◌≡◌, ◌≤◌, ◌<◌, length, map};
ghost use Rattle.glk_windows.specs.Tree as tree;
ghost use Rattle.glk_windows.specs.Tree.{IsLive, window_number};
ghost use Rattle.glk_windows.specs.Closing as closing;
ghost use Rattle.glk_windows.specs.Closing.{windows_without, forgotten, removed, unechoed};
ghost use Rattle.glk_windows.specs.Closing.{unlinked};
ghost use Rattle.glk_numbers.specs.Numbered.{without};

use crate::changing::{Change, change_at};
use crate::reading::{other, pair_at, parent_at, stream_at};
use crate::window::{Content, Window};
use crate::windows::Windows;
use glk_numbers::place_of;

impl Windows {
    /// Closes a window and all below it. Its sibling takes the place of their pair, which ends. No
    /// pair has a closed window as its key, and no window echoes to the stream of one.
    pub fn close(&mut self, win: u32)
        requires { IsLive self.old win }
        ensures { self.new ≡ closing.close self.old win }
    {
        let above = parent_at(&self.slots, win);
        let depth = self.slots.len();
        remove_all(&mut self.slots, depth, win);
        if above == 0 {
            self.root = 0;
        } else {
            self.end(above, win);
        }
    }

    // Ends a pair of which this window was one.
    fn end(&mut self, pair: u32, win: u32)
        ensures { self.new
            ≡ closing.sibling_lifted self.old pair (tree.pair_of self.old.slots pair) win }
    {
        match pair_at(&self.slots, pair) {
            None => {}
            Some(holds) => self.lift(pair, other(holds, win)),
        }
    }

    fn lift(&mut self, pair: u32, to: u32)
        ensures { self.new ≡ closing.lifted self.old pair to }
    {
        let above = parent_at(&self.slots, pair);
        remove_one(&mut self.slots, pair);
        change_at(&mut self.slots, above, Change::Child { old: pair, new: to });
        change_at(&mut self.slots, to, Change::Parent(above));
        if self.root == pair {
            self.root = to;
        }
    }

    /// Ends each window's echo to this stream.
    pub fn end_echo(&mut self, stream: u32)
        ensures { self.new ≡ closing.echo_ended self.old stream }
    {
        silence(&mut self.slots, stream)
    }
}

// Takes the window with this number away, and those below it, to this depth.
#[tactic(auto, unfolding(crate::specs::Closing::removed))]
fn remove_all(slots: &mut Vec<Window>, depth: usize, win: u32)
    ensures { slots.new.items ≡ removed depth slots.old.items win }
{
    if depth == 0 {
        return;
    }
    let pair = pair_at(slots, win);
    remove_one(slots, win);
    match pair {
        Some(pair) => {
            remove_all(slots, depth - 1, pair.first);
            remove_all(slots, depth - 1, pair.second)
        }
        None => {}
    }
}

// Takes the window with this number away. No other names it, or its stream, any more.
fn remove_one(slots: &mut Vec<Window>, win: u32)
    ensures { slots.new.items ≡ windows_without slots.old.items win }
{
    let stream = stream_at(slots, win);
    take_out(slots, win);
    forget(slots, win, stream)
}

fn take_out(slots: &mut Vec<Window>, win: u32)
    ensures { slots.new.items ≡ without window_number slots.old.items win }
{
    match place_of(slots, win) {
        None => {}
        Some(at) => {
            let _gone = slots.remove(at);
        }
    }
}

// No pair has this key any more, and no window this echo.
fn forget(slots: &mut [Window], key: u32, stream: u32)
    ensures { slots.new ≡ forgotten slots.old key stream }
{
    for slot in slots.iter_mut() {
        unlink(slot, key, stream);
    }
}

fn unlink(window: &mut Window, key: u32, stream: u32)
    ensures { window.new ≡ unlinked key stream window.old }
{
    unecho(window, stream);
    match &mut window.content {
        Content::Pair(pair) => {
            if pair.key == key {
                pair.key = 0;
            }
        }
        _ => {}
    }
}

fn unecho(window: &mut Window, stream: u32)
    ensures { window.new ≡ unechoed stream window.old }
{
    if window.echo == stream {
        window.echo = 0;
    }
}

fn silence(slots: &mut [Window], stream: u32)
    ensures { slots.new ≡ map (unechoed stream) slots.old }
{
    for slot in slots.iter_mut() {
        unecho(slot, stream);
    }
}
