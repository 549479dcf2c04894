//! SnapFile references and files, told and made (own).

ghost use Rattle.std.specs.Prelude.{IfOk};
ghost use Rattle.snap_glk.specs.Made as made;
ghost use Rattle.snap_glk.specs.Making.{is_valid_file};
ghost use Rattle.snap_glk.specs.Texts.{is_text_of_file, is_text_of_ref};
ghost use Rattle.snap_glk.specs.Told as told;

use crate::make::Make;
use crate::tell::Tell;
use crate::texts::{codes_of, text_of};
use crate::unfit::Unfit;
use glk_streams::{Contents, MAX_FILE_BYTES};
use snap_fields::{Items, SnapFile, SnapFileRef, SnapWindow};
use std::alloc::{AllocError, Global};

impl Tell<SnapFileRef> for glk_streams::FileRef {
    ghost told = { told.fileref_told };

    ghost is_kept = { is_text_of_ref };

    fn tell(&self, alloc: Global) -> Result<SnapFileRef, AllocError> {
        Ok(SnapFileRef {
            number: self.number,
            usage: self.usage,
            rock: self.rock,
            name: codes_of(alloc, &self.name)?,
        })
    }
}

impl Make<glk_streams::FileRef> for SnapFileRef {
    ghost made = { λ _ r. made.fileref_made r };

    ghost fits = { is_text_of_ref };

    fn make(&self, alloc: Global, _windows: &[SnapWindow]) -> Result<glk_streams::FileRef, Unfit> {
        Ok(glk_streams::FileRef {
            number: self.number,
            usage: self.usage,
            rock: self.rock,
            name: text_of(alloc, self.name.as_slice())?,
        })
    }
}

impl Tell<SnapFile> for glk_streams::File {
    ghost told = { told.file_told };

    ghost is_kept = { is_text_of_file };

    fn tell(&self, alloc: Global) -> Result<SnapFile, AllocError> {
        Ok(SnapFile {
            usage: self.usage,
            name: codes_of(alloc, &self.name)?,
            bytes: Items::of(Vec::from_slice(alloc, self.bytes.as_slice())?),
        })
    }
}

impl Make<glk_streams::File> for SnapFile {
    ghost made = { λ _ f. made.file_made f };

    ghost fits = { is_valid_file };

    fn make(&self, alloc: Global, _windows: &[SnapWindow]) -> Result<glk_streams::File, Unfit> {
        let bytes = self.bytes.as_slice();
        if bytes.len() > MAX_FILE_BYTES {
            return Err(Unfit::Invalid);
        }
        Ok(glk_streams::File {
            usage: self.usage,
            name: text_of(alloc, self.name.as_slice())?,
            bytes: Contents::of(alloc, bytes)?,
        })
    }
}
