//! What stands in lists: codes, blocks, undo states, and the objects of Glk (own).

ghost use Rattle.snap_fields.specs.Counts.{CountsFile, CountsFileRef, CountsStream, CountsWindow};
ghost use Rattle.snap_fields.specs.Counts.{CountsUndoState, HasNoList};
ghost use Rattle.snap_fields.specs.Items.{block_at, undo_state_at};
ghost use Rattle.snap_fields.specs.Numbers.{IsWord, n4};
ghost use Rattle.snap_fields.specs.Printable.{IsBlock, IsFile, IsFileRef, IsStream, IsUndoState};
ghost use Rattle.snap_fields.specs.Printable.{IsWindow};
ghost use Rattle.snap_fields.specs.Printing.{print_block, print_file, print_fileref, print_stream};
ghost use Rattle.snap_fields.specs.Printing.{print_undo_state, print_window};
ghost use Rattle.snap_fields.specs.Reading.{n4_at};
ghost use Rattle.snap_fields.specs.GlkItems.{file_at, fileref_at, stream_item_at, window_item_at};

use crate::counts::{has_cells, is_counted, request_has_counts, target_has_counts};
use crate::cursor::Cursor;
use crate::fault::SnapFault;
use crate::fields::UndoState;
use crate::glk::{SnapFile, SnapFileRef, SnapStream, SnapWindow};
use crate::glk_reading::{area, content, request, target};
use crate::glk_writing::{put_area, put_content, put_request, put_target};
use crate::item::{Item, list, put_list};
use crate::put::{put_bytes, put_flag1, put_flag4, put1, put4};
use std::alloc::{AllocError, Global};
use vm_heap::Block;

impl Item for u32 {
    ghost read_as = { n4_at };

    ghost print = { n4 };

    ghost is_printable = { IsWord };

    ghost has_counts = { HasNoList };

    fn has_counts(&self) -> bool {
        true
    }

    fn read(_alloc: Global, from: &mut Cursor<'_>) -> Result<u32, SnapFault> {
        from.n4()
    }

    fn write(&self, out: &mut Vec<u8>) -> Result<(), AllocError> {
        put4(out, *self)
    }
}

impl Item for UndoState {
    ghost read_as = { undo_state_at };

    ghost print = { print_undo_state };

    ghost is_printable = { IsUndoState };

    ghost has_counts = { CountsUndoState };

    fn has_counts(&self) -> bool {
        is_counted(self.contents.as_slice())
            && is_counted(self.stack.as_slice())
            && is_counted(self.heap.as_slice())
    }

    #[tactic(auto, unfolding(crate::specs::Items::undo_state_at))]
    fn read(alloc: Global, from: &mut Cursor<'_>) -> Result<UndoState, SnapFault> {
        Ok(UndoState {
            contents: from.bytes(alloc)?,
            stack: from.bytes(alloc)?,
            heap_start: from.n4()?,
            heap: list(alloc, from)?,
        })
    }

    fn write(&self, out: &mut Vec<u8>) -> Result<(), AllocError> {
        put_bytes(out, self.contents.as_slice())?;
        put_bytes(out, self.stack.as_slice())?;
        put4(out, self.heap_start)?;
        put_list(out, self.heap.as_slice())?;
        Ok(())
    }
}

impl Item for Block {
    ghost read_as = { block_at };

    ghost print = { print_block };

    ghost is_printable = { IsBlock };

    ghost has_counts = { HasNoList };

    fn has_counts(&self) -> bool {
        true
    }

    #[tactic(auto, unfolding(crate::specs::Items::block_at))]
    fn read(_alloc: Global, from: &mut Cursor<'_>) -> Result<Block, SnapFault> {
        Ok(Block {
            at: from.n4()?,
            length: from.n4()?,
        })
    }

    fn write(&self, out: &mut Vec<u8>) -> Result<(), AllocError> {
        put4(out, self.at)?;
        put4(out, self.length)
    }
}

impl Item for SnapWindow {
    ghost read_as = { window_item_at };

    ghost print = { print_window };

    ghost is_printable = { IsWindow };

    ghost has_counts = { CountsWindow };

    fn has_counts(&self) -> bool {
        is_counted(self.terminators.as_slice())
            && has_cells(self.area, &self.content)
            && request_has_counts(&self.request)
    }

    #[tactic(auto, unfolding(crate::specs::GlkItems::window_item_at))]
    fn read(alloc: Global, from: &mut Cursor<'_>) -> Result<SnapWindow, SnapFault> {
        let number = from.n4()?;
        let kind = from.n4()?;
        let rock = from.n4()?;
        let stream = from.n4()?;
        let echo_stream = from.n4()?;
        let parent = from.n4()?;
        let echo = from.flag4()?;
        let terminators = list(alloc, from)?;
        let area = area(from)?;
        Ok(SnapWindow {
            number,
            rock,
            stream,
            echo_stream,
            parent,
            echo,
            terminators,
            area,
            content: content(alloc, from, kind, area)?,
            request: request(alloc, from)?,
        })
    }

    fn write(&self, out: &mut Vec<u8>) -> Result<(), AllocError> {
        put4(out, self.number)?;
        put4(out, self.content.kind())?;
        put4(out, self.rock)?;
        put4(out, self.stream)?;
        put4(out, self.echo_stream)?;
        put4(out, self.parent)?;
        put_flag4(out, self.echo)?;
        put_list(out, self.terminators.as_slice())?;
        put_area(out, self.area)?;
        put_content(out, self.area, &self.content)?;
        put_request(out, &self.request)?;
        Ok(())
    }
}

impl Item for SnapStream {
    ghost read_as = { stream_item_at };

    ghost print = { print_stream };

    ghost is_printable = { IsStream };

    ghost has_counts = { CountsStream };

    fn has_counts(&self) -> bool {
        target_has_counts(&self.target)
    }

    #[tactic(auto, unfolding(crate::specs::GlkItems::stream_item_at))]
    fn read(alloc: Global, from: &mut Cursor<'_>) -> Result<SnapStream, SnapFault> {
        let number = from.n4()?;
        let kind = from.n1()?;
        Ok(SnapStream {
            number,
            rock: from.n4()?,
            mode: from.n4()?,
            style: from.n4()?,
            read: from.n4()?,
            written: from.n4()?,
            position: from.n4()?,
            unicode: from.flag1()?,
            target: target(alloc, from, kind)?,
        })
    }

    fn write(&self, out: &mut Vec<u8>) -> Result<(), AllocError> {
        put4(out, self.number)?;
        put1(out, self.target.kind())?;
        put4(out, self.rock)?;
        put4(out, self.mode)?;
        put4(out, self.style)?;
        put4(out, self.read)?;
        put4(out, self.written)?;
        put4(out, self.position)?;
        put_flag1(out, self.unicode)?;
        put_target(out, &self.target)?;
        Ok(())
    }
}

impl Item for SnapFileRef {
    ghost read_as = { fileref_at };

    ghost print = { print_fileref };

    ghost is_printable = { IsFileRef };

    ghost has_counts = { CountsFileRef };

    fn has_counts(&self) -> bool {
        is_counted(self.name.as_slice())
    }

    #[tactic(auto, unfolding(crate::specs::GlkItems::fileref_at))]
    fn read(alloc: Global, from: &mut Cursor<'_>) -> Result<SnapFileRef, SnapFault> {
        Ok(SnapFileRef {
            number: from.n4()?,
            usage: from.n4()?,
            rock: from.n4()?,
            name: list(alloc, from)?,
        })
    }

    fn write(&self, out: &mut Vec<u8>) -> Result<(), AllocError> {
        put4(out, self.number)?;
        put4(out, self.usage)?;
        put4(out, self.rock)?;
        put_list(out, self.name.as_slice())?;
        Ok(())
    }
}

impl Item for SnapFile {
    ghost read_as = { file_at };

    ghost print = { print_file };

    ghost is_printable = { IsFile };

    ghost has_counts = { CountsFile };

    fn has_counts(&self) -> bool {
        is_counted(self.name.as_slice()) && is_counted(self.bytes.as_slice())
    }

    #[tactic(auto, unfolding(crate::specs::GlkItems::file_at))]
    fn read(alloc: Global, from: &mut Cursor<'_>) -> Result<SnapFile, SnapFault> {
        Ok(SnapFile {
            usage: from.n4()?,
            name: list(alloc, from)?,
            bytes: from.bytes(alloc)?,
        })
    }

    fn write(&self, out: &mut Vec<u8>) -> Result<(), AllocError> {
        put4(out, self.usage)?;
        put_list(out, self.name.as_slice())?;
        put_bytes(out, self.bytes.as_slice())
    }
}
