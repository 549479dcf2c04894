//! What windows ask for, told and made (own).

ghost use Rattle.std.specs.Prelude.{◌≡◌, IfOk};
ghost use Rattle.glk_input.specs.Valid.{are_few};
ghost use Rattle.snap_glk.specs.Made as made;
ghost use Rattle.snap_glk.specs.Making.{MakesIfFit, has_few, has_few_keys};
ghost use Rattle.snap_glk.specs.Told as told;

use crate::make::Make;
use crate::unfit::Unfit;
use glk_input::{Keys, LineRequest, MAX_KEYS, WindowInput};
use snap_fields::{Items, SnapRequest, SnapWindow};
use std::alloc::{AllocError, Global};

/// The list again.
pub(crate) fn copy_of(alloc: Global, list: &[u32]) -> Result<Items<u32>, AllocError>
    ensures { IfOk result (λ l. l ≡ list.now) }
{
    Ok(Items::of(Vec::from_slice(alloc, list)?))
}

pub(crate) fn tell_request(
    alloc: Global,
    request: &Option<glk_input::Request>,
) -> Result<SnapRequest, AllocError>
    ensures { IfOk result (λ r. r ≡ told.request_told request.now) }
{
    match request {
        None => Ok(SnapRequest::Nothing),
        Some(glk_input::Request::Line(line)) => Ok(SnapRequest::Line {
            unicode: line.unicode,
            buffer: line.buf,
            maximum: line.max,
            initial: line.init,
            echo: line.echo,
            terminators: copy_of(alloc, line.keys.as_slice())?,
        }),
        Some(glk_input::Request::Char { unicode }) => Ok(SnapRequest::Char { unicode: *unicode }),
    }
}

/// The keys, where they are few enough.
fn make_keys(keys: &[u32]) -> Result<Keys, Unfit>
    ensures { MakesIfFit (λ ks. ks) are_few keys.now result }
{
    if keys.len() > MAX_KEYS {
        return Err(Unfit::Invalid);
    }
    Ok(Keys::of(keys))
}

fn make_request(request: &SnapRequest) -> Result<Option<glk_input::Request>, Unfit>
    ensures { MakesIfFit made.request_made has_few request.now result }
{
    match request {
        SnapRequest::Nothing => Ok(None),
        SnapRequest::Line {
            unicode,
            buffer,
            maximum,
            initial,
            echo,
            terminators,
        } => Ok(Some(glk_input::Request::Line(LineRequest {
            buf: *buffer,
            max: *maximum,
            init: *initial,
            unicode: *unicode,
            echo: *echo,
            keys: make_keys(terminators.as_slice())?,
        }))),
        SnapRequest::Char { unicode } => Ok(Some(glk_input::Request::Char { unicode: *unicode })),
    }
}

impl Make<WindowInput> for SnapWindow {
    ghost made = { λ _ w. made.input_made w };

    ghost fits = { has_few_keys };

    fn make(&self, _alloc: Global, _windows: &[SnapWindow]) -> Result<WindowInput, Unfit> {
        Ok(WindowInput {
            win: self.number,
            echo: self.echo,
            keys: make_keys(self.terminators.as_slice())?,
            request: make_request(&self.request)?,
        })
    }
}
